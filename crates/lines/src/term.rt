// Term lines.
ghost use Rattle.std.specs.Prelude.{◌≡◌, Decides};
ghost use Rattle.lines.specs.Equal.{SameTerm, terms_equal};
ghost use Rattle.lines.specs.Lawful.{LawfulTerm};
ghost use Rattle.lines.specs.Records.{the_kind};
ghost use Rattle.lines.specs.Views.{term_view};
ghost use Rattle.std.specs.Cmp.Rules.{comparing};
ghost use Rattle.std.proofs.Common.{rules};

use crate::check::Record;
use crate::line::Line;
use crate::list::MarkList;
use marks::set::MarkSet;

// How many term lines there may be at most.
pub const MOST_TERMS: usize = 512;

/// How many conditions they have at most, all together.
pub const TERM_CONDITIONS: usize = 4096;

// What a term line says of its conditions.
#[derive(Clone, Copy, Debug, Default, PartialEq)]
pub enum Kind {
    // where they all hold, the head holds
    #[default]
    Gives = 1,
    // they never hold all together
    Denies = 2,
}

impl Kind {
    pub fn number(self) -> u8
        ensures { result ≡ (the_kind self).number }
    {
        self as u8
    }
}

// At a denial the head is an unused place.
#[derive(Clone, Copy, Debug, Default)]
pub struct TermLine {
    pub kind: Kind,
    pub head: u16,
    pub conditions: MarkList,
}

// Equal term lines are of the same kind and have equal conditions; where they give, they have the same head.
impl PartialEq for TermLine {
    ghost eq = { terms_equal };

    ghost laws = { Prim.search (comparing, rules) };

    fn eq(&self, other: &TermLine) -> bool
        ensures value { result ≡ terms_equal self.now other.now }
        ensures same { Decides result (SameTerm self.now other.now) }
    {
        let heads = match (self.kind, other.kind) {
            (Kind::Gives, Kind::Gives) => self.head == other.head,
            (Kind::Denies, Kind::Denies) => true,
            (Kind::Gives, Kind::Denies) => false,
            (Kind::Denies, Kind::Gives) => false,
        };
        heads && self.conditions == other.conditions
    }
}

impl Record for TermLine {
    ghost lawful = { LawfulTerm };

    fn is_lawful(&self, width: u16) -> bool {
        match self.kind {
            Kind::Gives => self.head < width && self.conditions.is_lawful(width),
            Kind::Denies => self.conditions.is_lawful(width),
        }
    }
}

// Every term line is admitted; a denial has no head.
impl Line<()> for TermLine {
    ghost view = { λ _ l. term_view l };

    fn admitted(&self, gate: &()) -> bool {
        true
    }

    fn stands(&self, set: &MarkSet) -> bool {
        self.conditions.all_in(set)
    }

    fn condition(&self, place: usize) -> Option<u16> {
        self.conditions.used().get(place).copied()
    }

    fn brings(&self) -> Option<u16> {
        match self.kind {
            Kind::Gives => Some(self.head),
            Kind::Denies => None,
        }
    }
}
