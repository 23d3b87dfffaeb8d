// A set into which lines are brought, and which of its marks are new.
ghost use Rattle.std.specs.Prelude.{◌≡◌, ◌≢◌, false, Some};
ghost use Rattle.marks.specs.MarkSets.{marks_of, IsSet};
ghost use Rattle.marks.specs.Refusals.{Refuses, Gives, Test};
ghost use Rattle.marks.specs.Sets.{◌⊆◌, ◌∖◌, no_marks};

use marks::refusal::Refusal;
use marks::set::MarkSet;

/// A set that lines are brought into.
#[derive(Clone, Copy)]
pub struct Growth {
    pub set: MarkSet,
    /// Marks of the set whose lines were not looked at since they came.
    pub fresh: MarkSet,
    /// A line without a head fired in its turn.
    pub stood: bool,
    ghost one_width: { fresh.width ≡ set.width },
    ghost inside: { marks_of fresh ⊆ marks_of set },
}

impl Growth {
    ghost use Rattle.lines.specs.Growths.{Added, Kept, Taken};

    /// The set as it is: no mark is fresh, and no line was brought in.
    pub fn of(set: MarkSet) -> Growth
        ensures set { result.set ≡ set }
        ensures fresh { marks_of result.fresh ≡ no_marks }
        ensures stood { result.stood ≡ false }
    {
        let mut fresh = set;
        let _ = fresh.subtract(&set);
        Growth {
            set,
            fresh,
            stood: false,
        }
    }

    // The set with all marks fresh that are not done. Refused where the widths differ.
    pub(crate) fn past(set: MarkSet, done: &MarkSet) -> Result<Growth, Refusal>
        ensures { Test (set.width ≢ done.now.width) (Refuses result 7) (Gives result (λ g. (g.set ≡ set) × (marks_of g.fresh ≡ marks_of set ∖ marks_of done.now) × (g.stood ≡ false))) }
    {
        let mut fresh = set;
        fresh.subtract(done)?;
        Ok(Growth {
            set,
            fresh,
            stood: false,
        })
    }

    // Adds the mark to both sets, if it is one of the width.
    pub(crate) fn add(&mut self, m: u16)
        ensures { Added m self.old self.new }
    {
        let _ = self.set.insert(m);
        let _ = self.fresh.insert(m);
    }

    // Of the fresh marks keeps those that the other set holds; all where the widths differ.
    pub(crate) fn keep_fresh(&mut self, other: &MarkSet)
        ensures { Kept (Some other.now) self.old self.new }
    {
        let _ = self.fresh.intersect_with(other);
    }

    // Takes the lowest fresh mark, where there is one, so that it is fresh no more.
    pub(crate) fn take(&mut self) -> Option<u16>
        ensures { Taken self.old self.new result }
    {
        let m = self.fresh.next(0)?;
        let _ = self.fresh.remove(m);
        Some(m)
    }
}
