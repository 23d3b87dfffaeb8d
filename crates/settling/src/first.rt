// The first method: T and U, each the yield of the other, from no mark and all marks.
ghost use Rattle.std.specs.Prelude.{◌≡◌};
ghost use Rattle.marks.specs.Refusals.{Refuses, Gives, Test};
ghost use Rattle.readings.specs.declared.method.Method.TheVariants.{First};
ghost use Rattle.settling.specs.Calls.{Unlike, LawfulFares};
ghost use Rattle.settling.specs.Rounding.{Settles};

use crate::rounds::Way;
use crate::settled::Settled;
use crate::trip::Trip;
use books::book::TermBook;
use lines::fare::FareLine;
use lines::index::Index;
use marks::refusal::Refusal;
use marks::set::MarkSet;

// The other set is U itself.
pub(crate) struct FirstWay;

impl Way for FirstWay {
    ghost method = { First };

    fn start<B: TermBook>(trip: &Trip<B>) -> Result<MarkSet, Refusal> {
        MarkSet::full(trip.book.width())
    }

    // T becomes the full yield of U, on from the last T, and then U the guarded yield of the new T, on from that.
    fn next<B: TermBook>(
        trip: &Trip<B>,
        lower: &MarkSet,
        upper: &MarkSet,
        known: &mut MarkSet,
    ) -> Result<(MarkSet, MarkSet), Refusal> {
        let next_lower = trip.full_from(lower, upper)?;
        let next_upper = trip.guarded_from(&next_lower, known)?;
        Ok((next_lower, next_upper))
    }

    fn upper<B: TermBook>(_trip: &Trip<B>, upper: &MarkSet) -> Result<MarkSet, Refusal> {
        Ok(*upper)
    }
}

// Settles the facts by the first method.
pub fn settle_first<B: TermBook>(
    lines: &[FareLine],
    book: &B,
    facts: &MarkSet,
) -> Result<Settled, Refusal>
    ensures { Test (Unlike (B.TermBook.book book.now) facts.now) (Refuses result 7) (Test (LawfulFares (B.TermBook.book book.now).width lines.now → ⊥) (Refuses result 8) (Gives result (Settles (B.TermBook.book book.now) lines.now facts.now First))) }
{
    let mut index = Index::new();
    Trip::of(lines, book, facts, &mut index)?.rounds::<FirstWay>()
}
