// The lines of a section, fare or term lines, one behind the other.
ghost use Rattle.std.specs.Prelude.{◌≡◌, ◌≤◌, length, Err, MatchResult};
ghost use Rattle.tariff.specs.Facts.{filled};
ghost use Rattle.tariff.specs.Readings.{text};
ghost use Rattle.tariff_format.specs.Lines.{lines_at};
ghost use Rattle.tariff_reader.specs.Answers.{Reads};

use crate::line::Line;
use tariff::cursor::Reader;
use tariff_format::fault::LineFault;

// Reads so many lines and keeps none.
pub(crate) fn skim<L: Line + Copy>(
    reader: &mut Reader,
    width: u16,
    count: u16,
) -> Result<(), LineFault>
    requires { 1 ≤ width }
    ensures same { text reader.new ≡ text reader.old }
    ensures value { MatchResult result (λ _. Reads (lines_at (L.Line.reading width (text reader.old)) count 0 reader.old.place) count reader.new.place) (λ f. lines_at (L.Line.reading width (text reader.old)) count 0 reader.old.place ≡ Err f) }
{
    for index in 0..count as usize {
        L::read(reader, width, index)?;
    }
    Ok(())
}

// Reads a line into each of the records.
pub(crate) fn fill<L: Line + Copy>(
    reader: &mut Reader,
    width: u16,
    records: &mut [L],
) -> Result<(), LineFault>
    requires { 1 ≤ width }
    ensures same { text reader.new ≡ text reader.old }
    ensures value { filled result records.new reader.new.place ≡ lines_at (L.Line.reading width (text reader.old)) (length records.old) 0 reader.old.place }
{
    for (index, record) in records.iter_mut().enumerate() {
        *record = L::read(reader, width, index)?;
    }
    Ok(())
}
