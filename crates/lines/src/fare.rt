// Fare lines.
ghost use Rattle.lines.specs.Lawful.{LawfulFare};

use crate::check::Record;
use crate::list::MarkList;

// How many fare lines there may be at most.
pub const MOST_FARES: usize = 1024;

/// How many conditions they have at most, all together.
pub const FARE_CONDITIONS: usize = 8192;

// The head follows if all conditions hold, unless one of the unless-marks does.
#[derive(Clone, Copy, Debug, Default, PartialEq)]
pub struct FareLine {
    pub head: u16,
    pub conditions: MarkList,
    pub unless: MarkList,
}

impl Record for FareLine {
    ghost lawful = { LawfulFare };

    fn is_lawful(&self, width: u16) -> bool {
        self.head < width && self.conditions.is_lawful(width) && self.unless.is_lawful(width)
    }
}
