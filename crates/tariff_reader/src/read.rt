// The calls that read a tariff file.
ghost use Rattle.std.specs.Prelude.{◌≡◌, length};
ghost use Rattle.tariff_format.specs.Files.{file_at};
ghost use Rattle.tariff_reader.specs.Answers.{answer, fare_records, term_records, RightReading};

use crate::file::{check, load};
use lines::fare::{FareLine, MOST_FARES};
use lines::term::{MOST_TERMS, TermLine};
use tariff_format::counts::Counts;
use tariff_format::fault::FileFault;

// Reads a tariff file into the first of the caller's records, one for each line, with unused places 0, and answers its
// width and its counts; the other records stay. Refused: no record is changed.
pub fn read_tariff(
    bytes: &[u8],
    fares: &mut [FareLine],
    terms: &mut [TermLine],
) -> Result<Counts, FileFault>
    ensures value { result ≡ answer (file_at (length fares.old) (length terms.old) bytes.now) }
    ensures fares { fares.new ≡ fare_records (file_at (length fares.old) (length terms.old) bytes.now) fares.old }
    ensures terms { terms.new ≡ term_records (file_at (length fares.old) (length terms.old) bytes.now) terms.old }
    ensures says { RightReading (length fares.old) (length terms.old) bytes.now }
{
    check(bytes, fares.len(), terms.len())?;
    load(bytes, fares, terms)
}

// Whether the bytes are a lawful tariff file: its width and its counts, or its fault. There is room for all lines.
pub fn check_tariff(bytes: &[u8]) -> Result<Counts, FileFault>
    ensures value { result ≡ answer (file_at 1024 512 bytes.now) }
    ensures says { RightReading 1024 512 bytes.now }
{
    check(bytes, MOST_FARES, MOST_TERMS)
}
