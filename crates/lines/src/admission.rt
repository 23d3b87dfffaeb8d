// Which fare lines count. This is the one place where they are admitted.
ghost use Rattle.lines.specs.Views.{fare_view};

use crate::fare::FareLine;
use crate::line::Line;
use marks::set::MarkSet;

// A fare line is admitted when none of its unless-marks is in `exceptions`, its head is not in `denied`, and none of its
// conditions is in `refuted`.
#[derive(Clone, Copy)]
pub struct Admission {
    pub exceptions: MarkSet,
    pub denied: MarkSet,
    pub refuted: MarkSet,
}

impl Line<Admission> for FareLine {
    ghost view = { fare_view };

    fn admitted(&self, gate: &Admission) -> bool {
        self.unless.none_in(&gate.exceptions)
            && !gate.denied.contains(self.head)
            && self.conditions.none_in(&gate.refuted)
    }

    fn stands(&self, set: &MarkSet) -> bool {
        self.conditions.all_in(set)
    }

    fn condition(&self, place: usize) -> Option<u16> {
        self.conditions.used().get(place).copied()
    }

    fn brings(&self) -> Option<u16> {
        Some(self.head)
    }
}
