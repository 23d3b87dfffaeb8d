// A tariff written as a file.
ghost use Rattle.tariff_format.specs.Tariffs.{tariff_of};
ghost use Rattle.tariff_writer.specs.Calls.{Sizes, WritesFile};

use crate::lent::Tariff;
use lines::fare::FareLine;
use lines::term::TermLine;
use marks::refusal::Refusal;

// The length of the tariff's file. Refused where there is none: the width or a record breaks a limit.
pub fn tariff_size(width: u16, fares: &[FareLine], terms: &[TermLine]) -> Result<usize, Refusal>
    ensures { Sizes (tariff_of width fares.now terms.now) result }
{
    let tariff = Tariff::new(width, fares, terms)?;
    Ok(tariff.file_size())
}

// Writes the tariff's file at the start of the bytes and answers its length; the bytes behind it stay. Refused: no byte is
// changed.
pub fn write_tariff(
    width: u16,
    fares: &[FareLine],
    terms: &[TermLine],
    out: &mut [u8],
) -> Result<usize, Refusal>
    ensures { WritesFile (tariff_of width fares.now terms.now) out.old out.new result }
{
    let tariff = Tariff::new(width, fares, terms)?;
    if out.len() < tariff.file_size() {
        return Err(Refusal::OutputShort);
    }
    Ok(tariff.put_file(out))
}
