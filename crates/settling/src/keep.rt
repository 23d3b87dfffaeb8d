// What the rules keep at two sets: the guarded yield, and the second set of a round of the second method.
ghost use Rattle.std.specs.Prelude.{◌≡◌};
ghost use Rattle.marks.specs.MarkSets.{marks_of};
ghost use Rattle.marks.specs.Refusals.{Gives};
ghost use Rattle.readings.specs.Books.{Clashes};
ghost use Rattle.readings.specs.Methods.{NotRefuted};
ghost use Rattle.settling.specs.Denials.{DeniesHeads, OnlyDenied};
ghost use Rattle.settling.specs.Growth.{rules_of};
ghost use Rattle.settling.specs.Kept.{KeptAt, WithinLeast};

use crate::trip::Trip;
use books::book::TermBook;
use lines::admission::Admission;
use marks::refusal::Refusal;
use marks::set::MarkSet;

impl<B: TermBook> Trip<'_, B> {
    // What is kept at T and F, where `denied` are the heads that the book denies at T: what the rules give that no condition in F, no
    // exception in T and no denial holds back.
    pub(crate) fn kept_without(
        &self,
        lower: &MarkSet,
        refuted: &MarkSet,
        denied: MarkSet,
    ) -> Result<MarkSet, Refusal>
        requires { DeniesHeads (B.TermBook.book self.now.book.now) self.now.lines.now self.now.facts.now (marks_of lower.now) denied }
        ensures { Gives result (KeptAt (B.TermBook.book self.now.book.now) self.now.lines.now self.now.facts.now lower.now refuted.now) }
    {
        let none = MarkSet::empty(self.book.width())?;
        let gate = Admission {
            exceptions: *lower,
            denied,
            refuted: *refuted,
        };
        self.grown(&none, &gate)
    }

    // What is kept at T and F, where T lies within it unless the book clashes at T. It is what grows from T without the heads that are
    // known to be denied, as long as the book does not clash at that: it then denies none of the heads in it. Only where the book
    // clashes are the other heads tried.
    pub(crate) fn kept_from(
        &self,
        lower: &MarkSet,
        refuted: &MarkSet,
        known: &mut MarkSet,
    ) -> Result<MarkSet, Refusal>
        requires lower { lower.now.width ≡ (B.TermBook.book self.now.book.now).width }
        requires known { OnlyDenied (B.TermBook.book self.now.book.now) self.now.lines.now self.now.facts.now (marks_of lower.now) known.old }
        requires within { (Clashes (B.TermBook.book self.now.book.now) (marks_of lower.now) → ⊥) → WithinLeast (B.TermBook.book self.now.book.now) (marks_of lower.now) (NotRefuted (B.TermBook.book self.now.book.now) (rules_of self.now.lines.now) (marks_of self.now.facts.now) (marks_of refuted.now) (marks_of lower.now)) }
        ensures known { Gives result (λ _. OnlyDenied (B.TermBook.book self.now.book.now) self.now.lines.now self.now.facts.now (marks_of lower.now) known.new) }
        ensures kept { Gives result (KeptAt (B.TermBook.book self.now.book.now) self.now.lines.now self.now.facts.now lower.now refuted.now) }
    {
        let gate = Admission {
            exceptions: *lower,
            denied: *known,
            refuted: *refuted,
        };
        let untested = self.grown(lower, &gate)?;
        if !self.clashes_closed(&untested)? {
            return Ok(untested);
        }
        let denied = self.denied_under(lower, &untested, known)?;
        *known = denied;
        self.kept_without(lower, refuted, denied)
    }
}
