// A list of calls, performed on a new sheet.
ghost use Rattle.std.specs.Prelude.{◌≤◌, length};
ghost use Rattle.runs.specs.Lists.{Performs, RunIn};
ghost use Rattle.sheet.specs.Steps.{NewSheet};

use books::book::TermBook;
use lines::fare::FareLine;
use marks::refusal::Refusal;
use sheet::call::Call;
use sheet::reply::Reply;
use sheet::sheet::Sheet;

// Performs the calls in turn on a sheet that is new, and writes each reply into the record of its index.
fn perform_each<B: TermBook>(
    mut sheet: Sheet,
    lines: &[FareLine],
    book: &B,
    calls: &[Call],
    replies: &mut [Result<Reply, Refusal>],
)
    requires new { NewSheet sheet.facts.width sheet }
    requires room { length calls.now ≤ length replies.old }
    ensures { RunIn (B.TermBook.book book.now) lines.now sheet.facts.width calls.now replies.old replies.new }
{
    for (i, call) in calls.iter().enumerate() {
        replies[i] = sheet.perform(*call, lines, book);
    }
}

// Makes a new sheet of the width and performs the calls on it, every settle with these lines and this book. The reply to the
// call at an index goes into the record at that index, a refusal too.
pub fn perform_all<B: TermBook>(
    width: u16,
    lines: &[FareLine],
    book: &B,
    calls: &[Call],
    replies: &mut [Result<Reply, Refusal>],
) -> Result<(), Refusal>
    ensures { Performs (B.TermBook.book book.now) lines.now width calls.now replies.old replies.new result }
{
    let sheet = Sheet::new(width)?;
    if replies.len() < calls.len() {
        return Err(Refusal::OutputShort);
    }
    perform_each(sheet, lines, book, calls, replies);
    Ok(())
}
