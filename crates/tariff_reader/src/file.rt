// The walks over a file: one that keeps nothing, and one that fills records.
ghost use Rattle.std.specs.Prelude.{◌≡◌, length};
ghost use Rattle.tariff_format.specs.Files.{file_at};
ghost use Rattle.tariff_reader.specs.Answers.{Accepted, Tested, answer, fare_records, term_records, RightReading};

use crate::opening::read_opening;
use crate::section::{fill, skim};
use lines::fare::FareLine;
use lines::term::TermLine;
use tariff::cursor::Reader;
use tariff_format::counts::Counts;
use tariff_format::fault::FileFault;

// Makes every test of a file, for a caller with so many records.
fn scan(bytes: &[u8], fares: usize, terms: usize) -> Result<Counts, FileFault>
    ensures { Tested (file_at fares terms bytes.now) result }
{
    let mut reader = Reader::new(bytes);
    let counts = read_opening(&mut reader, fares, terms)?;
    skim::<FareLine>(&mut reader, counts.width, counts.fares)?;
    skim::<TermLine>(&mut reader, counts.width, counts.terms)?;
    reader.finish()?;
    Ok(counts)
}

// The same, with what its answer means.
pub(crate) fn check(bytes: &[u8], fares: usize, terms: usize) -> Result<Counts, FileFault>
    ensures value { Tested (file_at fares terms bytes.now) result }
    ensures says { RightReading fares terms bytes.now }
{
    scan(bytes, fares, terms)
}

// Reads a file into the first of the records, in one walk. Where it is refused, some of them may be written.
pub(crate) fn load(
    bytes: &[u8],
    fares: &mut [FareLine],
    terms: &mut [TermLine],
) -> Result<Counts, FileFault>
    ensures value { result ≡ answer (file_at (length fares.old) (length terms.old) bytes.now) }
    ensures fares { Accepted (file_at (length fares.old) (length terms.old) bytes.now) → fares.new ≡ fare_records (file_at (length fares.old) (length terms.old) bytes.now) fares.old }
    ensures terms { Accepted (file_at (length fares.old) (length terms.old) bytes.now) → terms.new ≡ term_records (file_at (length fares.old) (length terms.old) bytes.now) terms.old }
{
    let mut reader = Reader::new(bytes);
    let counts = read_opening(&mut reader, fares.len(), terms.len())?;
    fill(
        &mut reader,
        counts.width,
        &mut fares[..counts.fares as usize],
    )?;
    fill(
        &mut reader,
        counts.width,
        &mut terms[..counts.terms as usize],
    )?;
    reader.finish()?;
    Ok(counts)
}
