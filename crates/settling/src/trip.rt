// What a call settles.
ghost use Rattle.std.specs.Prelude.{◌≡◌, map};
ghost use Rattle.marks.specs.Refusals.{Refuses, Gives, Test};
ghost use Rattle.std.proofs.Props.{props};
ghost use Rattle.lines.specs.Indexes.{IsIndexOf};
ghost use Rattle.lines.specs.Passes.{conditions_of};
ghost use Rattle.lines.specs.Props.{Ascends-prop};
ghost use Rattle.lines.specs.Views.{fare_view};
ghost use Rattle.lines.specs.declared.admission.Admission.{Admission};
ghost use Rattle.settling.specs.Calls.{Unlike, LawfulFares, GoesWith};

use books::book::TermBook;
use lines::admission::Admission;
use lines::check::check_records;
use lines::fare::{FARE_CONDITIONS, FareLine, MOST_FARES};
use lines::index::Index;
use marks::refusal::Refusal;
use marks::set::MarkSet;
use marks::width::check_set_width;

// The fare lines, book and facts of one trip: one width, and lawful lines; and the index of the lines' conditions.
#[derive(Drop)]
pub(crate) struct Trip<'a, B: TermBook> {
    pub(crate) lines: &'a [FareLine],
    pub(crate) book: &'a B,
    pub(crate) facts: &'a MarkSet,
    pub(crate) index: &'a Index<FARE_CONDITIONS>,
    ghost goes: { GoesWith (B.TermBook.book book.now) lines.now facts.now } by { Prim.hlevel (props, Ascends-prop) },
    ghost indexed: { (gate : Admission) → IsIndexOf index.now (conditions_of (map (fare_view gate) lines.now)) } by { Prim.hlevel props },
}

impl<'a, B: TermBook> Trip<'a, B> {
    // Makes the index that of the lines. It is lent, since a value so large would be copied along. Refused where the widths
    // differ, and then where a line is not lawful or there are too many.
    pub(crate) fn of(
        lines: &'a [FareLine],
        book: &'a B,
        facts: &'a MarkSet,
        index: &'a mut Index<FARE_CONDITIONS>,
    ) -> Result<Trip<'a, B>, Refusal>
        ensures { Test (Unlike (B.TermBook.book book.now) facts.now) (Refuses result 7) (Test (LawfulFares (B.TermBook.book book.now).width lines.now → ⊥) (Refuses result 8) (Gives result (λ t. (t.lines.now ≡ lines.now) × (t.book.now ≡ book.now) × (t.facts.now ≡ facts.now)))) }
    {
        check_set_width(facts, book.width())?;
        check_records(lines, MOST_FARES, book.width())?;
        index.fill::<Admission, FareLine>(lines, *facts);
        Ok(Trip {
            lines,
            book,
            facts,
            index,
        })
    }
}
