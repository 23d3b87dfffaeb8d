// What settling finds.
ghost use Rattle.std.specs.Prelude.{◌≡◌};
ghost use Rattle.marks.specs.MarkSets.{marks_of, IsSet};
ghost use Rattle.marks.specs.Refusals.{Gives};
ghost use Rattle.marks.specs.Sets.{outside};
ghost use Rattle.settling.specs.Rounding.{Replaced};

use marks::refusal::Refusal;
use marks::set::MarkSet;
use readings::reading::Reading;

// The least reading, and how many rounds it took to find it.
#[derive(Clone, Copy)]
pub struct Settled {
    pub reading: Reading,
    pub rounds: u16,
}

// Puts the next set in the place of the last, and says whether they differ.
pub(crate) fn replace(last: &mut MarkSet, next: MarkSet) -> Result<bool, Refusal>
    requires { last.old.width ≡ next.width }
    ensures { Gives result (Replaced last.old next last.new) }
{
    let same = last.same_marks(&next)?;
    *last = next;
    Ok(!same)
}

// The marks of the width that the set does not hold.
pub(crate) fn complement(set: &MarkSet) -> Result<MarkSet, Refusal>
    ensures { Gives result (λ x. IsSet x set.now.width (outside set.now.width (marks_of set.now))) }
{
    let mut rest = MarkSet::full(set.width())?;
    rest.subtract(set)?;
    Ok(rest)
}
