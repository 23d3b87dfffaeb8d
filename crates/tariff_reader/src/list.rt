// Lists of marks.
ghost use Rattle.std.specs.Prelude.{◌≡◌, ◌≤◌, length};
ghost use Rattle.tariff.specs.Facts.{filled};
ghost use Rattle.tariff.specs.Lists.{marks_at};
ghost use Rattle.tariff.specs.Readings.{text, placed};
ghost use Rattle.tariff_format.specs.Lines.{list_at};

use lines::list::MarkList;
use tariff::cursor::Reader;
use tariff::fault::NumberFault;

// Reads a mark into each of the places.
fn read_marks(reader: &mut Reader, width: u16, places: &mut [u16]) -> Result<(), NumberFault>
    requires { 1 ≤ width }
    ensures same { text reader.new ≡ text reader.old }
    ensures value { filled result places.new reader.new.place ≡ marks_at width (text reader.old) (length places.old) 0 reader.old.place }
{
    let mut least = 0;
    for place in places.iter_mut() {
        let mark = reader.step(0, width - 1, least)?;
        *place = mark;
        least = mark + 1;
    }
    Ok(())
}

// Reads a count up to eight and so many marks below the width, which ascend strictly. The unused places are 0.
pub(crate) fn read_list(reader: &mut Reader, width: u16) -> Result<MarkList, NumberFault>
    requires { 1 ≤ width }
    ensures same { text reader.new ≡ text reader.old }
    ensures value { placed result reader.new.place ≡ list_at width (text reader.old) reader.old.place }
{
    let count = reader.number(0, 8)?;
    let mut marks = [0u16; 8];
    read_marks(reader, width, &mut marks[..count as usize])?;
    Ok(MarkList {
        count: count as u8,
        marks,
    })
}
