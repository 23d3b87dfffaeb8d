// Bars.
ghost use Rattle.lines.specs.Lawful.{LawfulBar};
ghost use Rattle.lines.specs.Views.{bar_view};

use crate::check::Record;
use crate::line::Line;
use marks::set::MarkSet;

// How many bars there may be at most.
pub const MOST_BARS: usize = 32;

// Two marks that never hold together, the lower first.
#[derive(Clone, Copy, Debug, Default, PartialEq)]
pub struct Bar {
    pub low: u16,
    pub high: u16,
}

impl Record for Bar {
    ghost lawful = { LawfulBar };

    fn is_lawful(&self, width: u16) -> bool {
        self.low < self.high && self.high < width
    }
}

// Every bar is admitted; its conditions are its two marks, and it has no head.
impl Line<()> for Bar {
    ghost view = { λ _ b. bar_view b };

    fn admitted(&self, gate: &()) -> bool {
        true
    }

    fn stands(&self, set: &MarkSet) -> bool {
        set.contains(self.low) && set.contains(self.high)
    }

    fn condition(&self, place: usize) -> Option<u16> {
        [self.low, self.high].get(place).copied()
    }

    fn brings(&self) -> Option<u16> {
        None
    }
}
