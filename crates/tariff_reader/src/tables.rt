// Tables of fixed size that a tariff file is read into.
ghost use Rattle.std.specs.Prelude.{◌≡◌, ◌≤◌, IfErr, OnErr, OnOk, take};
ghost use Rattle.tariff_format.specs.Answers.{FileIs, FileHasFault};
ghost use Rattle.tariff_format.specs.Encoding.{Tariff};
ghost use Rattle.tariff_reader.specs.Tables.{no_tariff, CanReadOver};

use crate::file::{check, load};
use lines::fare::{FareLine, MOST_FARES};
use lines::term::{MOST_TERMS, TermLine};
use std::marker::Model;
use tariff_format::counts::Counts;
use tariff_format::fault::FileFault;

/// A tariff in memory, with as many records as a file can count: the counts say how many of the first are in use.
#[derive(Drop)]
pub struct Tables {
    counts: Counts,
    fares: [FareLine; MOST_FARES],
    terms: [TermLine; MOST_TERMS],
}

// Clauses see the tariff in the first records.
impl Model for Tables {
    ghost Value = { Tariff };

    ghost view = { λ t. record { width = t.counts.width; fares = take t.counts.fares t.fares; terms = take t.counts.terms t.terms } };

    ghost invariant = { λ t. (t.counts.fares ≤ 1024) × (t.counts.terms ≤ 512) };
}

impl Default for Tables {
    ghost is_default = { λ t. t ≡ no_tariff };

    /// Tables that hold nothing.
    fn default() -> Tables {
        Tables {
            counts: Counts::default(),
            fares: [FareLine::default(); MOST_FARES],
            terms: [TermLine::default(); MOST_TERMS],
        }
    }
}

impl Tables {
    /// The width of the tariff, 0 where nothing was read.
    pub fn width(&self) -> u16
        ensures { result ≡ self.now.width }
    {
        self.counts.width
    }

    /// The fare lines.
    pub fn fares(&self) -> &[FareLine]
        ensures { result.now ≡ self.now.fares }
    {
        &self.fares[..self.counts.fares as usize]
    }

    /// The term lines.
    pub fn terms(&self) -> &[TermLine]
        ensures { result.now ≡ self.now.terms }
    {
        &self.terms[..self.counts.terms as usize]
    }

    // Makes all tests of the file where the tables have lines, which a fault must leave.
    fn test_first(&self, file: &[u8]) -> Result<(), FileFault>
        ensures ok { OnOk result (CanReadOver self.now file.now) }
        ensures fault { IfErr result (FileHasFault 1024 512 file.now) }
    {
        if self.fares().is_empty() && self.terms().is_empty() {
            return Ok(());
        }
        check(file, MOST_FARES, MOST_TERMS)?;
        Ok(())
    }

    // Reads the file over what the tables hold, in one walk.
    fn read_over(&mut self, file: &[u8]) -> Result<(), FileFault>
        requires { CanReadOver self.old file.now }
        ensures ok { OnOk result (FileIs 1024 512 file.now self.new) }
        ensures fault { IfErr result (FileHasFault 1024 512 file.now) }
        ensures err { OnErr result (self.new ≡ self.old) }
    {
        self.counts = load(file, &mut self.fares, &mut self.terms)?;
        Ok(())
    }

    /// Reads a tariff file in the place of what the tables hold: in one walk where they have no lines, and else after all
    /// tests. Refused: they hold what they held.
    pub fn load(&mut self, file: &[u8]) -> Result<(), FileFault>
        ensures ok { OnOk result (FileIs 1024 512 file.now self.new) }
        ensures fault { IfErr result (FileHasFault 1024 512 file.now) }
        ensures err { OnErr result (self.new ≡ self.old) }
    {
        self.test_first(file)?;
        self.read_over(file)
    }
}
