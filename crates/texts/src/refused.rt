// Refusals and faults.
use marks::refusal::Refusal;
use std::fmt;
use tariff_format::fault::{FileFault, LineAt, LineFault, Section};

// A refusal by its number and its sentence.
#[derive(Clone, Copy)]
pub struct RefusalText(pub Refusal);

impl fmt::Display for RefusalText {
    fn fmt<W: fmt::Write>(&self, f: &mut fmt::Formatter<W>) -> fmt::Result {
        let number = self.0.number();
        let why = self.0;
        write!(f, "refused with {number}: {why}")
    }
}

// A fault by its number, its byte, its line if it was met in one, and its sentence.
#[derive(Clone, Copy)]
pub struct FaultText(pub FileFault);

impl fmt::Display for FaultText {
    fn fmt<W: fmt::Write>(&self, f: &mut fmt::Formatter<W>) -> fmt::Result {
        let number = self.0.number();
        let byte = self.0.byte();
        write!(f, "refused with {number} at byte {byte}")?;
        if let Some(LineAt { section, index }) = self.0.line() {
            let part = section.number();
            let name = section_word(section);
            write!(f, ", section {part} ({name}), line {index}")?;
        }
        let why = refusal_of(self.0);
        write!(f, ": {why}")
    }
}

fn refusal_of(fault: FileFault) -> Refusal {
    match fault {
        FileFault::Number(number) | FileFault::Line(LineFault { number, .. }) => number.refusal,
    }
}

fn section_word(section: Section) -> &'static str {
    match section {
        Section::Fare => "fare",
        Section::Term => "term",
    }
}
