// The full and the guarded yield of a set.
ghost use Rattle.std.specs.Prelude.{◌≡◌, ◌⊎◌};
ghost use Rattle.marks.specs.MarkSets.{marks_of};
ghost use Rattle.marks.specs.Refusals.{Refuses, Gives, Test};
ghost use Rattle.readings.specs.Books.{Clashes};
ghost use Rattle.readings.specs.Yields.{Admitted, Allowed};
ghost use Rattle.settling.specs.Calls.{Unlike, LawfulFares, FullYield, GuardedYield};
ghost use Rattle.settling.specs.Denials.{OnlyDenied};
ghost use Rattle.settling.specs.Growth.{rules_of};
ghost use Rattle.settling.specs.Kept.{WithinLeast};

use crate::trip::Trip;
use books::book::TermBook;
use lines::admission::Admission;
use lines::fare::FareLine;
use lines::index::Index;
use marks::refusal::Refusal;
use marks::set::MarkSet;
use marks::width::check_set_width;

impl<B: TermBook> Trip<'_, B> {
    // The full yield, grown from a set that lies within it: only exceptions are looked up in the given set.
    pub(crate) fn full_from(&self, start: &MarkSet, at: &MarkSet) -> Result<MarkSet, Refusal>
        requires start { start.now.width ≡ (B.TermBook.book self.now.book.now).width }
        requires within { WithinLeast (B.TermBook.book self.now.book.now) (marks_of start.now) (Admitted (rules_of self.now.lines.now) (marks_of self.now.facts.now) (marks_of at.now)) }
        ensures { Gives result (FullYield (B.TermBook.book self.now.book.now) self.now.lines.now self.now.facts.now at.now) }
    {
        let none = MarkSet::empty(self.book.width())?;
        let gate = Admission {
            exceptions: *at,
            denied: none,
            refuted: none,
        };
        self.grown(start, &gate)
    }

    // The full yield of any set: the empty set lies within it.
    pub(crate) fn full_of(&self, at: &MarkSet) -> Result<MarkSet, Refusal>
        ensures { Gives result (FullYield (B.TermBook.book self.now.book.now) self.now.lines.now self.now.facts.now at.now) }
    {
        let none = MarkSet::empty(self.book.width())?;
        self.full_from(&none, at)
    }

    // The full yield of a set, on from its guarded yield, which lies within it.
    pub(crate) fn full_around(&self, guarded: &MarkSet, at: &MarkSet) -> Result<MarkSet, Refusal>
        requires { GuardedYield (B.TermBook.book self.now.book.now) self.now.lines.now self.now.facts.now at.now guarded.now }
        ensures { Gives result (FullYield (B.TermBook.book self.now.book.now) self.now.lines.now self.now.facts.now at.now) }
    {
        self.full_from(guarded, at)
    }

    // The guarded yield of any set: besides, rules whose head the book denies at the given set do not count. It is what is kept there
    // where nothing is refuted.
    pub(crate) fn guarded_of(&self, at: &MarkSet) -> Result<MarkSet, Refusal>
        requires { at.now.width ≡ (B.TermBook.book self.now.book.now).width }
        ensures { Gives result (GuardedYield (B.TermBook.book self.now.book.now) self.now.lines.now self.now.facts.now at.now) }
    {
        let none = MarkSet::empty(self.book.width())?;
        let denied = self.denied_heads(at, &none)?;
        self.kept_without(at, &none, denied)
    }

    // The guarded yield of a set that lies within it unless the book clashes there, on from that set, with the heads that are known to
    // be denied there.
    pub(crate) fn guarded_from(&self, at: &MarkSet, known: &mut MarkSet) -> Result<MarkSet, Refusal>
        requires at { at.now.width ≡ (B.TermBook.book self.now.book.now).width }
        requires known { OnlyDenied (B.TermBook.book self.now.book.now) self.now.lines.now self.now.facts.now (marks_of at.now) known.old }
        requires within { (Clashes (B.TermBook.book self.now.book.now) (marks_of at.now) → ⊥) → WithinLeast (B.TermBook.book self.now.book.now) (marks_of at.now) (Allowed (B.TermBook.book self.now.book.now) (rules_of self.now.lines.now) (marks_of self.now.facts.now) (marks_of at.now)) }
        ensures known { Gives result (λ _. OnlyDenied (B.TermBook.book self.now.book.now) self.now.lines.now self.now.facts.now (marks_of at.now) known.new) }
        ensures guarded { Gives result (GuardedYield (B.TermBook.book self.now.book.now) self.now.lines.now self.now.facts.now at.now) }
    {
        let none = MarkSet::empty(self.book.width())?;
        self.kept_from(at, &none, known)
    }
}

// The full yield of a set for these facts, fare lines and book.
pub fn full_yield<B: TermBook>(
    lines: &[FareLine],
    book: &B,
    facts: &MarkSet,
    at: &MarkSet,
) -> Result<MarkSet, Refusal>
    ensures { Test (Unlike (B.TermBook.book book.now) facts.now ⊎ Unlike (B.TermBook.book book.now) at.now) (Refuses result 7) (Test (LawfulFares (B.TermBook.book book.now).width lines.now → ⊥) (Refuses result 8) (Gives result (FullYield (B.TermBook.book book.now) lines.now facts.now at.now))) }
{
    check_set_width(at, book.width())?;
    let mut index = Index::new();
    Trip::of(lines, book, facts, &mut index)?.full_of(at)
}

// The guarded yield of a set for these facts, fare lines and book.
pub fn guarded_yield<B: TermBook>(
    lines: &[FareLine],
    book: &B,
    facts: &MarkSet,
    at: &MarkSet,
) -> Result<MarkSet, Refusal>
    ensures { Test (Unlike (B.TermBook.book book.now) facts.now ⊎ Unlike (B.TermBook.book book.now) at.now) (Refuses result 7) (Test (LawfulFares (B.TermBook.book book.now).width lines.now → ⊥) (Refuses result 8) (Gives result (GuardedYield (B.TermBook.book book.now) lines.now facts.now at.now))) }
{
    check_set_width(at, book.width())?;
    let mut index = Index::new();
    Trip::of(lines, book, facts, &mut index)?.guarded_of(at)
}
