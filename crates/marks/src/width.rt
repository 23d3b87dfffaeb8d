// The tests of widths.
ghost use Rattle.std.specs.Prelude.{◌≡◌, ◌≤◌, ◌≢◌};
ghost use Rattle.marks.specs.MarkSets.{BadWidth};
ghost use Rattle.marks.specs.Refusals.{Refuses, Gives, Test};

use crate::refusal::Refusal;
use crate::set::MarkSet;

// Refuses a width outside 1 to 512.
pub fn check_width(width: u16) -> Result<(), Refusal>
    ensures { Test (BadWidth width) (Refuses result 7) (Gives result (λ _. (1 ≤ width) × (width ≤ 512))) }
{
    if !(1..=512).contains(&width) {
        return Err(Refusal::Width);
    }
    Ok(())
}

// Refuses a set of another width.
pub fn check_set_width(set: &MarkSet, width: u16) -> Result<(), Refusal>
    ensures { Test (set.now.width ≢ width) (Refuses result 7) (Gives result (λ _. set.now.width ≡ width)) }
{
    if set.width() != width {
        return Err(Refusal::Width);
    }
    Ok(())
}
