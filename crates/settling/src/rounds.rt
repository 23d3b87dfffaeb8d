// The rounds of a method, whichever it is.
ghost use Rattle.std.specs.Prelude.{◌≡◌};
ghost use Rattle.marks.specs.MarkSets.{marks_of, IsSet};
ghost use Rattle.marks.specs.Refusals.{Gives};
ghost use Rattle.readings.specs.declared.method.Method.{Method};
ghost use Rattle.settling.specs.Denials.{OnlyDenied};
ghost use Rattle.settling.specs.Rounding.{way_of, Reached, MadeOf, Rounded, Settles};

use crate::settled::{Settled, replace};
use crate::trip::Trip;
use books::book::TermBook;
use marks::refusal::Refusal;
use marks::set::MarkSet;
use readings::reading::Reading;

// How a method settles: it turns T and another set, which tells what U is, until a round changes neither.
pub(crate) trait Way {
    ghost method: { Method };

    // The other set at the start.
    fn start<B: TermBook>(trip: &Trip<B>) -> Result<MarkSet, Refusal>
        ensures { Gives result (λ x. IsSet x (B.TermBook.book trip.now.book.now).width (way_of method (B.TermBook.book trip.now.book.now) trip.now.lines.now trip.now.facts.now).start) };

    // What one round makes of the two sets, where rounds have led to them. `known` are heads that the book denies at T. They stay denied
    // as T grows, so they serve in the next round too; where heads are tried, those found denied take their place.
    fn next<B: TermBook>(
        trip: &Trip<B>,
        lower: &MarkSet,
        other: &MarkSet,
        known: &mut MarkSet,
    ) -> Result<(MarkSet, MarkSet), Refusal>
        requires lower { lower.now.width ≡ (B.TermBook.book trip.now.book.now).width }
        requires other { other.now.width ≡ (B.TermBook.book trip.now.book.now).width }
        requires reached { Reached (way_of method (B.TermBook.book trip.now.book.now) trip.now.lines.now trip.now.facts.now) lower.now other.now }
        requires known { OnlyDenied (B.TermBook.book trip.now.book.now) trip.now.lines.now trip.now.facts.now (marks_of lower.now) known.old }
        ensures known { Gives result (λ next. OnlyDenied (B.TermBook.book trip.now.book.now) trip.now.lines.now trip.now.facts.now (marks_of next.0) known.new) }
        ensures made { Gives result (MadeOf (way_of method (B.TermBook.book trip.now.book.now) trip.now.lines.now trip.now.facts.now) (B.TermBook.book trip.now.book.now).width lower.now other.now) };

    // What U is.
    fn upper<B: TermBook>(trip: &Trip<B>, other: &MarkSet) -> Result<MarkSet, Refusal>
        requires { other.now.width ≡ (B.TermBook.book trip.now.book.now).width }
        ensures { Gives result (λ x. IsSet x (B.TermBook.book trip.now.book.now).width ((way_of method (B.TermBook.book trip.now.book.now) trip.now.lines.now trip.now.facts.now).upper (marks_of other.now))) };
}

impl<B: TermBook> Trip<'_, B> {
    // One round. Says whether either set changed.
    fn round<W: Way>(
        &self,
        lower: &mut MarkSet,
        other: &mut MarkSet,
        known: &mut MarkSet,
    ) -> Result<bool, Refusal>
        requires lower { lower.old.width ≡ (B.TermBook.book self.now.book.now).width }
        requires other { other.old.width ≡ (B.TermBook.book self.now.book.now).width }
        requires reached { Reached (way_of W.Way.method (B.TermBook.book self.now.book.now) self.now.lines.now self.now.facts.now) lower.old other.old }
        requires known { OnlyDenied (B.TermBook.book self.now.book.now) self.now.lines.now self.now.facts.now (marks_of lower.old) known.old }
        ensures known { Gives result (λ _. OnlyDenied (B.TermBook.book self.now.book.now) self.now.lines.now self.now.facts.now (marks_of lower.new) known.new) }
        ensures rounded { Gives result (Rounded (way_of W.Way.method (B.TermBook.book self.now.book.now) self.now.lines.now self.now.facts.now) (B.TermBook.book self.now.book.now).width lower.old other.old lower.new other.new) }
    {
        let (next_lower, next_other) = W::next(self, lower, other, known)?;
        let lower_changed = replace(lower, next_lower)?;
        let other_changed = replace(other, next_other)?;
        Ok(lower_changed || other_changed)
    }

    // All rounds, from no mark in T to the first round that changes neither set.
    pub(crate) fn rounds<W: Way>(&self) -> Result<Settled, Refusal>
        ensures { Gives result (Settles (B.TermBook.book self.now.book.now) self.now.lines.now self.now.facts.now W.Way.method) }
    {
        let mut lower = MarkSet::empty(self.book.width())?;
        let mut other = W::start(self)?;
        let mut known = lower;
        let mut rounds = 1;
        while self.round::<W>(&mut lower, &mut other, &mut known)? {
            rounds += 1;
        }
        let upper = W::upper(self, &other)?;
        let reading = Reading { lower, upper };
        Ok(Settled { reading, rounds })
    }
}
