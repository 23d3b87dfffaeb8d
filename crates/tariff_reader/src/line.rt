// Fare and term lines.
ghost use Rattle.std.specs.Prelude.{◌≡◌, ℕ, ◌≤◌, List, Result as Outcome};
ghost use Rattle.tariff.specs.Readings.{text, placed, mapped, number_at};
ghost use Rattle.tariff_format.specs.declared.fault.LineFault.{LineFault as Refused};
ghost use Rattle.tariff_format.specs.Faults.{in_line};
ghost use Rattle.tariff_format.specs.Lines.{kind_of, fare_at, term_at, fare_line_at, term_line_at};

use crate::list::read_list;
use lines::fare::FareLine;
use lines::term::{Kind, TermLine};
use tariff::cursor::Reader;
use tariff::fault::NumberFault;
use tariff_format::fault::{LineAt, LineFault, Section};

// A line of a section.
pub(crate) trait Line: Sized {
    // what stands at a place as the line of an index
    ghost reading: { ℕ → List ℕ → ℕ → ℕ → Outcome (Self × ℕ) Refused };

    fn read(reader: &mut Reader, width: u16, index: usize) -> Result<Self, LineFault>
        requires { 1 ≤ width }
        ensures same { text reader.new ≡ text reader.old }
        ensures value { placed result reader.new.place ≡ reading width (text reader.old) index reader.old.place };
}

// A fare line is its head, its conditions and its unless-marks.
impl Line for FareLine {
    ghost reading = { fare_line_at };

    fn read(reader: &mut Reader, width: u16, index: usize) -> Result<FareLine, LineFault> {
        let at = LineAt {
            section: Section::Fare,
            index,
        };
        let head = at.met(reader.number(0, width - 1))?;
        let conditions = at.met(read_list(reader, width))?;
        let unless = at.met(read_list(reader, width))?;
        Ok(FareLine {
            head,
            conditions,
            unless,
        })
    }
}

// Reads the kind that a term line opens with. Its byte is 1 or 2; whatever starts with another is refused as a number.
fn read_kind(reader: &mut Reader) -> Result<Kind, NumberFault>
    ensures same { text reader.new ≡ text reader.old }
    ensures value { placed result reader.new.place ≡ mapped kind_of (number_at 1 2 0 (text reader.old) reader.old.place) }
{
    let (kind, rest) = match reader.rest() {
        [1, rest @ ..] => (Kind::Gives, rest),
        [2, rest @ ..] => (Kind::Denies, rest),
        _ => return Err(reader.number(1, 2).unwrap_err()),
    };
    reader.leave(rest.len());
    Ok(kind)
}

// A term line is its kind, its head, which a denial has not, and its conditions.
impl Line for TermLine {
    ghost reading = { term_line_at };

    fn read(reader: &mut Reader, width: u16, index: usize) -> Result<TermLine, LineFault> {
        let at = LineAt {
            section: Section::Term,
            index,
        };
        let kind = at.met(read_kind(reader))?;
        let head = match kind {
            Kind::Gives => at.met(reader.number(0, width - 1))?,
            Kind::Denies => 0,
        };
        let conditions = at.met(read_list(reader, width))?;
        Ok(TermLine {
            kind,
            head,
            conditions,
        })
    }
}
