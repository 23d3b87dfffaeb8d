// Bytes, numbers and sets, one behind the other.
use marks::set::MarkSet;
use std::fmt;

// Bytes in hex: 02 00 03.
#[derive(Clone, Copy)]
pub struct Hex<'a>(pub &'a [u8]);

impl fmt::Display for Hex<'_> {
    fn fmt<W: fmt::Write>(&self, f: &mut fmt::Formatter<W>) -> fmt::Result {
        for (i, b) in self.0.iter().enumerate() {
            let gap = if i == 0 { "" } else { " " };
            write!(f, "{gap}{b:02X}")?;
        }
        Ok(())
    }
}

// The marks of a list, with a text between them.
#[derive(Clone, Copy)]
pub struct Joined<'a>(pub &'a [u16], pub &'static str);

impl fmt::Display for Joined<'_> {
    fn fmt<W: fmt::Write>(&self, f: &mut fmt::Formatter<W>) -> fmt::Result {
        for (i, m) in self.0.iter().enumerate() {
            let gap = if i == 0 { "" } else { self.1 };
            write!(f, "{gap}{m}")?;
        }
        Ok(())
    }
}

// The marks of a set, in ascending order, with a text between them.
#[derive(Clone, Copy)]
pub struct Listed<'a>(pub &'a MarkSet, pub &'static str);

impl fmt::Display for Listed<'_> {
    fn fmt<W: fmt::Write>(&self, f: &mut fmt::Formatter<W>) -> fmt::Result {
        let mut at = 0;
        let mut gap = "";
        while let Some(m) = self.0.next(at) {
            write!(f, "{gap}{m}")?;
            gap = self.1;
            at = m + 1;
        }
        Ok(())
    }
}

// A set by its marks: {0, 3}.
#[derive(Clone, Copy)]
pub struct Braced<'a>(pub &'a MarkSet);

impl fmt::Display for Braced<'_> {
    fn fmt<W: fmt::Write>(&self, f: &mut fmt::Formatter<W>) -> fmt::Result {
        let marks = Listed(self.0, ", ");
        write!(f, "{{{marks}}}")
    }
}
