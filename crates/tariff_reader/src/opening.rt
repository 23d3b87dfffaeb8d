// The opening of a file.
ghost use Rattle.std.specs.Prelude.{◌≡◌, ◌<◌, ◌≤◌, IfOk, MatchResult};
ghost use Rattle.marks.specs.declared.refusal.Refusal.TheVariants.{FewRecords};
ghost use Rattle.tariff.specs.Readings.{fault, text, placed};
ghost use Rattle.tariff_format.specs.Files.{opening_at};

use marks::refusal::Refusal;
use tariff::cursor::Reader;
use tariff::fault::NumberFault;
use tariff_format::counts::Counts;

// Refused where the caller has fewer records than the count that stands at a byte.
fn check_room(records: usize, count: u16, byte: usize) -> Result<(), NumberFault>
    ensures { MatchResult result (λ _. count ≤ records) (λ f. (records < count) × (f ≡ fault FewRecords byte)) }
{
    if records < count as usize {
        return Err(NumberFault {
            refusal: Refusal::FewRecords,
            byte,
        });
    }
    Ok(())
}

// Reads the width and the two counts, for a caller with so many records.
pub(crate) fn read_opening(
    reader: &mut Reader,
    fares: usize,
    terms: usize,
) -> Result<Counts, NumberFault>
    ensures same { text reader.new ≡ text reader.old }
    ensures value { placed result reader.new.place ≡ opening_at fares terms (text reader.old) reader.old.place }
    ensures room { IfOk result (λ h. (1 ≤ h.width) × (h.fares ≤ fares) × (h.terms ≤ terms)) }
{
    let width = reader.number(1, 512)?;
    let fares_byte = reader.place();
    let fare_count = reader.number(0, 1024)?;
    let terms_byte = reader.place();
    let term_count = reader.number(0, 512)?;
    check_room(fares, fare_count, fares_byte)?;
    check_room(terms, term_count, terms_byte)?;
    Ok(Counts {
        width,
        fares: fare_count,
        terms: term_count,
    })
}
