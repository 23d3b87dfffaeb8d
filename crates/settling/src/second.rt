// The second method: T, what is so, and F, what is not, from no marks; neither ever loses a mark.
ghost use Rattle.std.specs.Prelude.{◌≡◌};
ghost use Rattle.marks.specs.Refusals.{Refuses, Gives, Test};
ghost use Rattle.readings.specs.declared.method.Method.TheVariants.{Second};
ghost use Rattle.settling.specs.Calls.{Unlike, LawfulFares};
ghost use Rattle.settling.specs.Rounding.{GrownPast, Settles};

use crate::rounds::Way;
use crate::settled::{Settled, complement};
use crate::trip::Trip;
use books::book::TermBook;
use lines::admission::Admission;
use lines::fare::FareLine;
use lines::index::Index;
use marks::refusal::Refusal;
use marks::set::MarkSet;

impl<B: TermBook> Trip<'_, B> {
    // T grown by the rules whose exceptions are all in F.
    fn grown_past(&self, lower: &MarkSet, refuted: &MarkSet) -> Result<MarkSet, Refusal>
        requires lower { lower.now.width ≡ (B.TermBook.book self.now.book.now).width }
        requires refuted { refuted.now.width ≡ (B.TermBook.book self.now.book.now).width }
        ensures { Gives result (GrownPast (B.TermBook.book self.now.book.now) self.now.lines.now self.now.facts.now lower.now refuted.now) }
    {
        let none = MarkSet::empty(self.book.width())?;
        let gate = Admission {
            exceptions: complement(refuted)?,
            denied: none,
            refuted: none,
        };
        self.grown(lower, &gate)
    }
}

// The other set is F: U is what is outside it.
pub(crate) struct SecondWay;

impl Way for SecondWay {
    ghost method = { Second };

    fn start<B: TermBook>(trip: &Trip<B>) -> Result<MarkSet, Refusal> {
        MarkSet::empty(trip.book.width())
    }

    // T grows, and then all marks that are not kept, on from that T, join F.
    fn next<B: TermBook>(
        trip: &Trip<B>,
        lower: &MarkSet,
        refuted: &MarkSet,
        known: &mut MarkSet,
    ) -> Result<(MarkSet, MarkSet), Refusal> {
        let grown = trip.grown_past(lower, refuted)?;
        let kept = trip.kept_from(&grown, refuted, known)?;
        let mut joined = *refuted;
        joined.union_with(&complement(&kept)?)?;
        Ok((grown, joined))
    }

    fn upper<B: TermBook>(_trip: &Trip<B>, refuted: &MarkSet) -> Result<MarkSet, Refusal> {
        complement(refuted)
    }
}

// Settles the facts by the second method.
pub fn settle_second<B: TermBook>(
    lines: &[FareLine],
    book: &B,
    facts: &MarkSet,
) -> Result<Settled, Refusal>
    ensures { Test (Unlike (B.TermBook.book book.now) facts.now) (Refuses result 7) (Test (LawfulFares (B.TermBook.book book.now).width lines.now → ⊥) (Refuses result 8) (Gives result (Settles (B.TermBook.book book.now) lines.now facts.now Second))) }
{
    let mut index = Index::new();
    Trip::of(lines, book, facts, &mut index)?.rounds::<SecondWay>()
}
