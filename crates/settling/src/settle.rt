// Settling whole: by either method, with the verdict.
ghost use Rattle.marks.specs.Refusals.{Refuses, Gives, Test};
ghost use Rattle.settling.specs.Calls.{Unlike, LawfulFares};
ghost use Rattle.settling.specs.Judging.{Judges};
ghost use Rattle.settling.specs.Rounding.{Settles};

use crate::first::FirstWay;
use crate::second::SecondWay;
use crate::settled::Settled;
use crate::trip::Trip;
use books::book::TermBook;
use lines::fare::FareLine;
use lines::index::Index;
use marks::refusal::Refusal;
use marks::set::MarkSet;
use readings::method::Method;
use readings::verdict::Verdict;

// What was found, and what to think of it.
#[derive(Clone, Copy)]
pub struct Judged {
    pub settled: Settled,
    pub verdict: Verdict,
}

impl<B: TermBook> Trip<'_, B> {
    // All rounds of the method.
    fn rounds_by(&self, method: Method) -> Result<Settled, Refusal>
        ensures { Gives result (Settles (B.TermBook.book self.now.book.now) self.now.lines.now self.now.facts.now method) }
    {
        match method {
            Method::First => self.rounds::<FirstWay>(),
            Method::Second => self.rounds::<SecondWay>(),
        }
    }

    // All rounds of the method, and the verdict on what they found.
    fn judged_by(&self, method: Method) -> Result<Judged, Refusal>
        ensures { Gives result (Judges (B.TermBook.book self.now.book.now) self.now.lines.now self.now.facts.now method) }
    {
        let settled = self.rounds_by(method)?;
        let verdict = self.judge(&settled.reading)?;
        Ok(Judged { settled, verdict })
    }
}

// Settles the facts by the method, and judges what it found.
pub fn settle<B: TermBook>(
    lines: &[FareLine],
    book: &B,
    facts: &MarkSet,
    method: Method,
) -> Result<Judged, Refusal>
    ensures { Test (Unlike (B.TermBook.book book.now) facts.now) (Refuses result 7) (Test (LawfulFares (B.TermBook.book book.now).width lines.now → ⊥) (Refuses result 8) (Gives result (Judges (B.TermBook.book book.now) lines.now facts.now method))) }
{
    let mut index = Index::new();
    Trip::of(lines, book, facts, &mut index)?.judged_by(method)
}
