// Facts strings: read into a set, and written anew.
use crate::listed::{Braced, Hex};
use crate::refused::{FaultText, RefusalText};
use marks::set::MarkSet;
use std::fmt;
use tariff::facts::{read_facts, write_facts};

// Room for any facts string: a count of two bytes, and 512 marks of at most two.
pub const MOST_BYTES: usize = 1026;

// A facts string for a width: its marks and its bytes written back, or why it is refused.
#[derive(Clone, Copy)]
pub struct FactsString<'a> {
    pub width: u16,
    pub bytes: &'a [u8],
}

impl fmt::Display for FactsString<'_> {
    fn fmt<W: fmt::Write>(&self, f: &mut fmt::Formatter<W>) -> fmt::Result {
        let width = self.width;
        let given = Hex(self.bytes);
        writeln!(f, "facts string {given} at width {width}")?;
        let mut facts = match MarkSet::empty(width) {
            Ok(set) => set,
            Err(refusal) => return write!(f, "  {}", RefusalText(refusal)),
        };
        match read_facts(self.bytes, &mut facts) {
            Err(fault) => write!(f, "  {}", FaultText(fault.into())),
            Ok(()) => {
                let marks = Braced(&facts);
                let count = facts.count();
                writeln!(f, "  marks {marks}, {count} in all")?;
                let back = WrittenBack {
                    facts: &facts,
                    bytes: self.bytes,
                };
                write!(f, "  {back}")
            }
        }
    }
}

// The facts string of a set, beside the one that it was read from.
#[derive(Clone, Copy)]
struct WrittenBack<'a> {
    facts: &'a MarkSet,
    bytes: &'a [u8],
}

impl fmt::Display for WrittenBack<'_> {
    fn fmt<W: fmt::Write>(&self, f: &mut fmt::Formatter<W>) -> fmt::Result {
        let mut out = [0; MOST_BYTES];
        match write_facts(self.facts, &mut out) {
            Err(refusal) => write!(f, "{}", RefusalText(refusal)),
            Ok(length) => {
                let written = &out[0..length];
                let shown = Hex(written);
                let same = if written == self.bytes {
                    "the same"
                } else {
                    "other"
                };
                write!(f, "written back {shown}: {same} bytes")
            }
        }
    }
}
