// Fare lines and term lines in a file.
ghost use Rattle.tariff_format.specs.Encoding.{fare_bytes, term_bytes};
ghost use Rattle.tariff_format.specs.Tariffs.{WholeFare, WholeTerm};

use crate::encode::Encode;
use lines::fare::FareLine;
use lines::term::{Kind, TermLine};

impl Encode for FareLine {
    ghost bytes = { fare_bytes };

    ghost whole = { WholeFare };

    fn size(&self) -> usize {
        (self.head, (&self.conditions, &self.unless)).size()
    }

    fn put(&self, out: &mut [u8], place: usize) -> usize {
        (self.head, (&self.conditions, &self.unless)).put(out, place)
    }
}

// A denial has no head.
impl Encode for TermLine {
    ghost bytes = { term_bytes };

    ghost whole = { WholeTerm };

    fn size(&self) -> usize {
        let kind = self.kind.number() as u16;
        match self.kind {
            Kind::Gives => (kind, (self.head, &self.conditions)).size(),
            Kind::Denies => (kind, &self.conditions).size(),
        }
    }

    fn put(&self, out: &mut [u8], place: usize) -> usize {
        let kind = self.kind.number() as u16;
        match self.kind {
            Kind::Gives => (kind, (self.head, &self.conditions)).put(out, place),
            Kind::Denies => (kind, &self.conditions).put(out, place),
        }
    }
}
