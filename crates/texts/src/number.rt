// Single numbers: read, and written anew.
use crate::listed::Hex;
use crate::refused::{FaultText, RefusalText};
use std::fmt;
use tariff::cursor::Reader;
use tariff::writer::write_number;

// The number at the front of bytes: its value, its size and its bytes written anew, or why it is refused.
#[derive(Clone, Copy)]
pub struct NumberText<'a>(pub &'a [u8]);

impl fmt::Display for NumberText<'_> {
    fn fmt<W: fmt::Write>(&self, f: &mut fmt::Formatter<W>) -> fmt::Result {
        let given = Hex(self.0);
        writeln!(f, "number {given}")?;
        let mut reader = Reader::new(self.0);
        match reader.number(0, 65535) {
            Err(fault) => write!(f, "  {}", FaultText(fault.into())),
            Ok(value) => {
                let size = reader.place();
                writeln!(f, "  value {value}, size {size}")?;
                let written = Written(value);
                write!(f, "  {written}")
            }
        }
    }
}

// A number by its bytes.
#[derive(Clone, Copy)]
struct Written(u16);

impl fmt::Display for Written {
    fn fmt<W: fmt::Write>(&self, f: &mut fmt::Formatter<W>) -> fmt::Result {
        let mut out = [0; 3];
        match write_number(&mut out, 0, self.0) {
            Err(refusal) => write!(f, "{}", RefusalText(refusal)),
            Ok(end) => write!(f, "written {}", Hex(&out[0..end])),
        }
    }
}
