// What is printed: bytes, sets, lines, refusals and faults.
use lines::fare::FareLine;
use lines::term::{Kind, TermLine};
use marks::refusal::Refusal;
use marks::set::MarkSet;
use std::alloc::Global;
use std::fmt;
use tariff::fault::NumberFault;
use texts::listed::{Joined, Listed};

// The line for a case, or why it is none.
pub(crate) type Printed = anyhow::Result<String>;

// Bytes, two digits each; `-` for none.
#[derive(Clone, Copy)]
pub(crate) struct Hex<'a>(pub(crate) &'a [u8]);

impl fmt::Display for Hex<'_> {
    fn fmt<W: fmt::Write>(&self, f: &mut fmt::Formatter<W>) -> fmt::Result {
        if self.0.is_empty() {
            write!(f, "-")?;
        }
        for b in self.0 {
            write!(f, "{b:02x}")?;
        }
        Ok(())
    }
}

// The marks of a set; `.` for none.
#[derive(Clone, Copy)]
pub(crate) struct Marks<'a>(pub(crate) &'a MarkSet);

impl fmt::Display for Marks<'_> {
    fn fmt<W: fmt::Write>(&self, f: &mut fmt::Formatter<W>) -> fmt::Result {
        if self.0.count() == 0 {
            return write!(f, ".");
        }
        write!(f, "{}", Listed(self.0, ","))
    }
}

// What is printed as one word, or as part of one.
pub(crate) trait Spelled {
    fn spell<W: fmt::Write>(&self, f: &mut fmt::Formatter<W>) -> fmt::Result;
}

impl Spelled for FareLine {
    fn spell<W: fmt::Write>(&self, f: &mut fmt::Formatter<W>) -> fmt::Result {
        let head = self.head;
        let conditions = Joined(self.conditions.used(), ",");
        let unless = Joined(self.unless.used(), ",");
        write!(f, "{head}/{conditions}/{unless}")
    }
}

impl Spelled for TermLine {
    fn spell<W: fmt::Write>(&self, f: &mut fmt::Formatter<W>) -> fmt::Result {
        let head = self.head;
        let conditions = Joined(self.conditions.used(), ",");
        match self.kind {
            Kind::Gives => write!(f, "{head}/{conditions}"),
            Kind::Denies => write!(f, "!/{conditions}"),
        }
    }
}

// Lines or replies, with a sign between them; `-` for none.
#[derive(Clone, Copy)]
pub(crate) struct Row<'a, T>(pub(crate) &'a [T], pub(crate) &'static str);

impl<T: Spelled> fmt::Display for Row<'_, T> {
    fn fmt<W: fmt::Write>(&self, f: &mut fmt::Formatter<W>) -> fmt::Result {
        if self.0.is_empty() {
            write!(f, "-")?;
        }
        for (i, item) in self.0.iter().enumerate() {
            if i > 0 {
                write!(f, "{}", self.1)?;
            }
            item.spell(f)?;
        }
        Ok(())
    }
}

pub(crate) fn refused(heap: Global, refusal: Refusal) -> Printed {
    let number = refusal.number();
    Ok(format!(in heap; "refused {number}")?)
}

pub(crate) fn fault(heap: Global, fault: NumberFault) -> Printed {
    let number = fault.refusal.number();
    let byte = fault.byte;
    Ok(format!(in heap; "fault {number} {byte}")?)
}

// The answer of a call that writes into the bytes: where it ended, and all bytes.
pub(crate) fn written(heap: Global, end: Result<usize, Refusal>, bytes: &[u8]) -> Printed {
    let hex = Hex(bytes);
    match end {
        Ok(end) => Ok(format!(in heap; "ok {end} {hex}")?),
        Err(refusal) => {
            let number = refusal.number();
            Ok(format!(in heap; "refused {number} {hex}")?)
        }
    }
}

pub(crate) fn yes_or_no(yes: bool) -> &'static str {
    if yes { "yes" } else { "no" }
}
