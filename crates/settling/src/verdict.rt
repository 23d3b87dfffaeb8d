// The verdict of facts with fare lines and a book, by their least reading.
ghost use Rattle.std.specs.Prelude.{◌≡◌, Decides};
ghost use Rattle.marks.specs.MarkSets.{marks_of};
ghost use Rattle.marks.specs.Refusals.{Gives};
ghost use Rattle.readings.specs.Books.{Closed};
ghost use Rattle.readings.specs.Says.{the_verdict, IsBroken};
ghost use Rattle.readings.specs.Yields.{Guarded};
ghost use Rattle.settling.specs.Growth.{rules_of};

use crate::trip::Trip;
use books::book::TermBook;
use marks::refusal::Refusal;
use marks::set::MarkSet;
use readings::reading::Reading;
use readings::verdict::Verdict;

// Whether the book clashes at the set as it is given.
pub(crate) fn clashes<B: TermBook>(book: &B, set: &MarkSet) -> Result<bool, Refusal>
    requires { set.now.width ≡ (B.TermBook.book book.now).width }
    ensures { Gives result (λ b. b ≡ (B.TermBook.book book.now).clash (marks_of set.now)) }
{
    let mut closed = *set;
    book.close(&mut closed)
}

// Whether the book clashes at the empty set, or a mark of T is not in U.
fn broken<B: TermBook>(book: &B, reading: &Reading) -> Result<bool, Refusal>
    requires { reading.now.lower.width ≡ (B.TermBook.book book.now).width }
    ensures { Gives result (λ b. Decides b (IsBroken (B.TermBook.book book.now) (marks_of reading.now.lower) (marks_of reading.now.upper))) }
{
    let none = MarkSet::empty(book.width())?;
    if clashes(book, &none)? {
        return Ok(true);
    }
    Ok(!reading.lower.is_subset(&reading.upper)?)
}

impl<B: TermBook> Trip<'_, B> {
    // Whether the book clashes at the closed set: it may only where the set has all marks.
    pub(crate) fn clashes_closed(&self, set: &MarkSet) -> Result<bool, Refusal>
        requires width { set.now.width ≡ (B.TermBook.book self.now.book.now).width }
        requires closed { Closed (B.TermBook.book self.now.book.now) (marks_of set.now) }
        ensures { Gives result (λ b. b ≡ (B.TermBook.book self.now.book.now).clash (marks_of set.now)) }
    {
        if !self.is_whole(set)? {
            return Ok(false);
        }
        clashes(self.book, set)
    }

    // The verdict that the rules give on T and U: broken, else suspect where the two yields of T differ, else clear. The guarded
    // one is U.
    pub(crate) fn judge(&self, reading: &Reading) -> Result<Verdict, Refusal>
        requires lower { reading.now.lower.width ≡ (B.TermBook.book self.now.book.now).width }
        requires upper { reading.now.upper.width ≡ (B.TermBook.book self.now.book.now).width }
        requires guarded { Guarded (B.TermBook.book self.now.book.now) (rules_of self.now.lines.now) (marks_of self.now.facts.now) (marks_of reading.now.lower) (marks_of reading.now.upper) }
        ensures { Gives result (λ v. (the_verdict v).says (B.TermBook.book self.now.book.now) (rules_of self.now.lines.now) (marks_of self.now.facts.now) (marks_of reading.now.lower) (marks_of reading.now.upper)) }
    {
        if broken(self.book, reading)? {
            return Ok(Verdict::Broken);
        }
        let full = self.full_around(&reading.upper, &reading.lower)?;
        if full.same_marks(&reading.upper)? {
            Ok(Verdict::Clear)
        } else {
            Ok(Verdict::Suspect)
        }
    }
}
