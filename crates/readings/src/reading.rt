// Two sets that say of each mark how it stands.
ghost use Rattle.std.specs.Prelude.{◌≡◌};
ghost use Rattle.marks.specs.MarkSets.{marks_of};
ghost use Rattle.readings.specs.Says.{the_answer};

use crate::answer::Answer;
use marks::set::MarkSet;

// T and U, of one width.
#[derive(Clone, Copy)]
pub struct Reading {
    // T: what is certainly so
    pub lower: MarkSet,
    // U: what is not certainly not so
    pub upper: MarkSet,
    ghost even: { upper.width ≡ lower.width },
}

// The answer that T and U give of the mark, whatever their widths.
pub fn answer_of(lower: &MarkSet, upper: &MarkSet, m: u16) -> Answer
    ensures { (the_answer result).says (marks_of lower.now) (marks_of upper.now) m }
{
    match (lower.contains(m), upper.contains(m)) {
        (false, false) => Answer::Not,
        (true, true) => Answer::Holds,
        (false, true) => Answer::Open,
        (true, false) => Answer::Both,
    }
}

impl Reading {
    // The answer that it gives of the mark.
    pub fn answer(&self, m: u16) -> Answer
        ensures { (the_answer result).says (marks_of self.now.lower) (marks_of self.now.upper) m }
    {
        answer_of(&self.lower, &self.upper, m)
    }
}
