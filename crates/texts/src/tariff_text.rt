// What a tariff file opens with, and its lines, as text: 1 if 3 unless 2, 0 gives 2, 1 with 2 is denied.
use crate::listed::Joined;
use crate::many::Many;
use lines::fare::FareLine;
use lines::term::{Kind, TermLine};
use std::fmt;
use tariff_format::counts::Counts;

// What a file opens with: width 5, 2 fare lines, 2 term lines.
#[derive(Clone, Copy)]
pub struct Opening(pub Counts);

impl fmt::Display for Opening {
    fn fmt<W: fmt::Write>(&self, f: &mut fmt::Formatter<W>) -> fmt::Result {
        let width = self.0.width;
        let fares = Many(self.0.fares as usize, "fare line");
        let terms = Many(self.0.terms as usize, "term line");
        write!(f, "width {width}, {fares}, {terms}")
    }
}

// A word and the marks of a list behind it; nothing where the list is empty.
#[derive(Clone, Copy)]
struct Part<'a> {
    word: &'static str,
    marks: &'a [u16],
}

impl fmt::Display for Part<'_> {
    fn fmt<W: fmt::Write>(&self, f: &mut fmt::Formatter<W>) -> fmt::Result {
        if self.marks.is_empty() {
            return Ok(());
        }
        let word = self.word;
        let marks = Joined(self.marks, ", ");
        write!(f, " {word} {marks}")
    }
}

// A fare line: 1 if 3 unless 2.
#[derive(Clone, Copy)]
pub struct FareText<'a>(pub &'a FareLine);

impl fmt::Display for FareText<'_> {
    fn fmt<W: fmt::Write>(&self, f: &mut fmt::Formatter<W>) -> fmt::Result {
        let head = self.0.head;
        let conditions = Part {
            word: "if",
            marks: self.0.conditions.used(),
        };
        let unless = Part {
            word: "unless",
            marks: self.0.unless.used(),
        };
        write!(f, "{head}{conditions}{unless}")
    }
}

// A term line: 0 gives 2, or 1 with 2 is denied.
#[derive(Clone, Copy)]
pub struct TermText<'a>(pub &'a TermLine);

impl fmt::Display for TermText<'_> {
    fn fmt<W: fmt::Write>(&self, f: &mut fmt::Formatter<W>) -> fmt::Result {
        let marks = self.0.conditions.used();
        if marks.is_empty() {
            write!(f, "always")?;
        }
        let conditions = Joined(marks, " with ");
        let head = self.0.head;
        match self.0.kind {
            Kind::Gives => write!(f, "{conditions} gives {head}"),
            Kind::Denies => write!(f, "{conditions} is denied"),
        }
    }
}
