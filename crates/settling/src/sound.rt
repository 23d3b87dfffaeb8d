// The test whether a set is a sound reading.
ghost use Rattle.std.specs.Prelude.{◌≡◌, ◌⊎◌, Decides};
ghost use Rattle.marks.specs.MarkSets.{marks_of};
ghost use Rattle.marks.specs.Refusals.{Refuses, Gives, Test};
ghost use Rattle.readings.specs.Readings.{Sound};
ghost use Rattle.settling.specs.Calls.{Unlike, LawfulFares};
ghost use Rattle.settling.specs.Growth.{rules_of};

use crate::trip::Trip;
use crate::verdict::clashes;
use books::book::TermBook;
use lines::fare::FareLine;
use lines::index::Index;
use marks::refusal::Refusal;
use marks::set::MarkSet;
use marks::width::check_set_width;

impl<B: TermBook> Trip<'_, B> {
    // The set must be its own full yield, and the book must not clash there.
    fn sound(&self, set: &MarkSet) -> Result<bool, Refusal>
        requires { set.now.width ≡ (B.TermBook.book self.now.book.now).width }
        ensures { Gives result (λ b. Decides b (Sound (B.TermBook.book self.now.book.now) (rules_of self.now.lines.now) (marks_of self.now.facts.now) (marks_of set.now))) }
    {
        if clashes(self.book, set)? {
            return Ok(false);
        }
        self.full_of(set)?.same_marks(set)
    }
}

// Whether the set is a sound reading of the facts with these fare lines and this book.
pub fn is_sound<B: TermBook>(
    lines: &[FareLine],
    book: &B,
    facts: &MarkSet,
    set: &MarkSet,
) -> Result<bool, Refusal>
    ensures { Test (Unlike (B.TermBook.book book.now) facts.now ⊎ Unlike (B.TermBook.book book.now) set.now) (Refuses result 7) (Test (LawfulFares (B.TermBook.book book.now).width lines.now → ⊥) (Refuses result 8) (Gives result (λ b. Decides b (Sound (B.TermBook.book book.now) (rules_of lines.now) (marks_of facts.now) (marks_of set.now))))) }
{
    check_set_width(set, book.width())?;
    let mut index = Index::new();
    Trip::of(lines, book, facts, &mut index)?.sound(set)
}
