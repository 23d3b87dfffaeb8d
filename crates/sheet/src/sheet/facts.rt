// The facts of a sheet, settled.
ghost use Rattle.marks.specs.Refusals.{Refuses, Gives, Test};
ghost use Rattle.sheet.specs.Steps.{OtherWidth, Unlawful, Outcome};

use books::book::TermBook;
use lines::fare::FareLine;
use marks::refusal::Refusal;
use marks::set::MarkSet;
use readings::method::Method;
use settling::settle::{Judged, settle};

// Settles the facts.
pub(super) fn settle_facts<B: TermBook>(
    facts: &MarkSet,
    lines: &[FareLine],
    book: &B,
    method: Method,
) -> Result<Judged, Refusal>
    ensures { Test (OtherWidth (B.TermBook.book book.now) facts.now) (Refuses result 7) (Test (Unlawful (B.TermBook.book book.now).width lines.now) (Refuses result 8) (Gives result (Outcome (B.TermBook.book book.now) lines.now facts.now method))) }
{
    settle(lines, book, facts, method)
}
