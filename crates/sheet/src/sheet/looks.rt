// The calls that look at a sheet as a whole: counts, try and alike.
ghost use Rattle.std.specs.Prelude.{◌≡◌, ◌⊎◌, Decides, ◌≢◌};
ghost use Rattle.marks.specs.MarkSets.{marks_of};
ghost use Rattle.marks.specs.Refusals.{Refuses, Gives, Test};
ghost use Rattle.readings.specs.Readings.{Sound};
ghost use Rattle.settling.specs.Calls.{Unlike, LawfulFares};
ghost use Rattle.settling.specs.Growth.{rules_of};
ghost use Rattle.sheet.specs.Cases.{the_state};
ghost use Rattle.sheet.specs.Looks.{Counted, SameAnswers, Agree};

use super::{Sheet, State};
use crate::reply::Counts;
use books::book::TermBook;
use lines::fare::FareLine;
use marks::refusal::Refusal;
use marks::set::MarkSet;
use marks::width::check_set_width;
use readings::reading::Reading;
use settling::sound::is_sound;

// The shares of the marks under their answers' names.
fn counts_of(reading: &Reading) -> Result<Counts, Refusal>
    ensures { Gives result (λ c. Counted reading.now.lower.width c (marks_of reading.now.lower) (marks_of reading.now.upper)) }
{
    let shares = reading.lower.overlap(&reading.upper)?;
    Ok(Counts {
        holds: shares.both,
        not: shares.neither,
        open: shares.second,
        both: shares.first,
    })
}

// Two readings give the same answers exactly where both sets are the same.
fn same_answers(one: &Reading, other: &Reading) -> Result<bool, Refusal>
    requires { other.now.lower.width ≡ one.now.lower.width }
    ensures { Gives result (λ b. Decides b (SameAnswers (marks_of one.now.lower) (marks_of one.now.upper) (marks_of other.now.lower) (marks_of other.now.upper))) }
{
    let lower_same = one.lower.same_marks(&other.lower)?;
    let upper_same = one.upper.same_marks(&other.upper)?;
    Ok(lower_same && upper_same)
}

impl Sheet {
    // How many marks hold, are not, are open and are both.
    pub fn counts(&self) -> Result<Counts, Refusal>
        ensures { Test (the_state self.now.state).unsettled (Refuses result 12) (Gives result (λ c. (the_state self.now.state).settled (Counted self.now.facts.width c))) }
    {
        match &self.state {
            State::Unsettled => Err(Refusal::NotSettled),
            State::Settled(reading) => counts_of(reading),
        }
    }

    // Whether the set is a sound reading of the sheet's facts, with these lines and this book.
    pub fn try_set<B: TermBook>(
        &self,
        lines: &[FareLine],
        book: &B,
        set: &MarkSet,
    ) -> Result<bool, Refusal>
        ensures { Test (Unlike (B.TermBook.book book.now) self.now.facts ⊎ Unlike (B.TermBook.book book.now) set.now) (Refuses result 7) (Test (LawfulFares (B.TermBook.book book.now).width lines.now → ⊥) (Refuses result 8) (Gives result (λ b. Decides b (Sound (B.TermBook.book book.now) (rules_of lines.now) (marks_of self.now.facts) (marks_of set.now))))) }
    {
        is_sound(lines, book, &self.facts, set)
    }

    // Whether two settled sheets give the same answer at every mark.
    pub fn alike(&self, other: &Sheet) -> Result<bool, Refusal>
        ensures { Test (self.now.facts.width ≢ other.now.facts.width) (Refuses result 7) (Test ((the_state self.now.state).unsettled ⊎ (the_state other.now.state).unsettled) (Refuses result 12) (Gives result (λ b. Decides b (Agree self.now other.now)))) }
    {
        check_set_width(&other.facts, self.facts.width())?;
        match (&self.state, &other.state) {
            (State::Settled(one), State::Settled(two)) => same_answers(one, two),
            _ => Err(Refusal::NotSettled),
        }
    }
}
