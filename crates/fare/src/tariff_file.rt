// Tariffs in memory, and where their bytes come from.
use crate::failure::{Failure, cannot};
use crate::sample;
use crate::words::hex_bytes;
use line_book::book::LineBook;
use lines::fare::FareLine;
use lines::term::TermLine;
use marks::refusal::Refusal;
use std::alloc::Global;
use std::fs;
use tariff_format::counts::Counts;
use tariff_reader::read::{check_tariff, read_tariff};

// A lawful tariff file: what it opens with, and its lines.
#[derive(Drop)]
pub(crate) struct Tariff {
    pub(crate) counts: Counts,
    pub(crate) fares: Vec<FareLine>,
    pub(crate) terms: Vec<TermLine>,
}

impl Tariff {
    pub(crate) fn read(heap: Global, bytes: &[u8]) -> Result<Tariff, Failure> {
        let counts = check_tariff(bytes)?;
        let mut fares = vec![in heap; FareLine::default(); counts.fares as usize]?;
        let mut terms = vec![in heap; TermLine::default(); counts.terms as usize]?;
        read_tariff(bytes, fares.as_mut_slice(), terms.as_mut_slice())?;
        Ok(Tariff {
            counts,
            fares,
            terms,
        })
    }

    pub(crate) fn load(rt: &HostRuntime, name: &str) -> Result<Tariff, Failure> {
        Tariff::read(rt.alloc(), &bytes_of(rt, name)?)
    }

    pub(crate) fn width(&self) -> u16 {
        self.counts.width
    }

    // The line book on the term lines.
    pub(crate) fn book(&self) -> Result<LineBook, Refusal> {
        let mut book = LineBook::new(self.width())?;
        book.fill(self.terms.as_slice())?;
        Ok(book)
    }
}

// The bytes of a file, of the built-in sample, or those written behind "hex:".
pub(crate) fn bytes_of(rt: &HostRuntime, name: &str) -> Result<Vec<u8>, Failure> {
    if name == "sample" {
        return Ok(Vec::from_slice(rt.alloc(), &sample::FILE)?);
    }
    match name.strip_prefix("hex:") {
        Some(digits) => hex_bytes(rt.alloc(), digits),
        None => fs::read(rt, name).map_err(|error| cannot("read", name, error)),
    }
}
