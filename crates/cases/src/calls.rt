// Calls on sheets, and their replies.
use crate::records::Written;
use crate::show::{Printed, Row, Spelled, refused, yes_or_no};
use crate::words;
use anyhow::anyhow;
use books::book::TermBook;
use lines::fare::FareLine;
use marks::refusal::Refusal;
use marks::set::MarkSet;
use runs::list::perform_all;
use sheet::call::Call;
use sheet::reply::{Counts, Reply, Settlement};
use sheet::sheet::Sheet;
use std::alloc::Global;
use std::fmt;

impl Written for Call {
    fn written(text: &str) -> anyhow::Result<Call> {
        match text.split_at_checked(1) {
            Some(("e", mark)) => Ok(Call::Enter(words::number(mark)?)),
            Some(("x", mark)) => Ok(Call::Strike(words::number(mark)?)),
            Some(("s", method)) => Ok(Call::Settle(words::method(method)?)),
            Some(("a", mark)) => Ok(Call::Ask(words::number(mark)?)),
            _ => Err(anyhow!("no such call")),
        }
    }
}

// What is done with a sheet.
#[derive(Clone, Copy)]
pub(crate) enum Step {
    Run(Call),
    Counts,
    Try(MarkSet),
    // holds it against the other sheet
    Alike,
}

impl Written for Step {
    fn written(text: &str) -> anyhow::Result<Step> {
        match text.split_at_checked(1) {
            Some(("c", "")) => Ok(Step::Counts),
            Some(("l", "")) => Ok(Step::Alike),
            Some(("t", set)) => Ok(Step::Try(words::set(set)?)),
            _ => Ok(Step::Run(<Call as Written>::written(text)?)),
        }
    }
}

// One of two sheets, or of two lists of fare lines.
#[derive(Clone, Copy)]
enum Which {
    First,
    Second,
}

// A call on one of two sheets, with one of two lists of fare lines.
#[derive(Clone, Copy)]
pub(crate) struct Act {
    sheet: Which,
    fares: Which,
    step: Step,
}

impl Written for Act {
    fn written(text: &str) -> anyhow::Result<Act> {
        let (sheet, rest) = match text.split_at_checked(1) {
            Some(("0", rest)) => (Which::First, rest),
            Some(("1", rest)) => (Which::Second, rest),
            _ => return Err(anyhow!("a call on two sheets begins with 0 or 1")),
        };
        let (fares, step) = match rest.split_at_checked(1) {
            Some(("b", step)) => (Which::Second, step),
            _ => (Which::First, rest),
        };
        let step = <Step as Written>::written(step)?;
        Ok(Act { sheet, fares, step })
    }
}

// Calls with `;` between them; `-` for none.
pub(crate) fn calls_of<T: Written>(heap: Global, text: &str) -> anyhow::Result<Vec<T>> {
    if text == "-" {
        return Ok(Vec::new(heap));
    }
    text.split(';')
        .map(|word| -> anyhow::Result<T> { T::written(word) })
        .try_collect(heap)
}

// What a call on a sheet tells.
#[derive(Clone, Copy)]
enum Told {
    Reply(Reply),
    Counts(Counts),
    Whether(bool),
}

impl Spelled for Result<Told, Refusal> {
    fn spell<W: fmt::Write>(&self, f: &mut fmt::Formatter<W>) -> fmt::Result {
        match *self {
            Err(refusal) => write!(f, "r{}", refusal.number()),
            Ok(Told::Reply(Reply::Done)) => write!(f, "done"),
            Ok(Told::Reply(Reply::Settled(Settlement { verdict, rounds }))) => {
                write!(f, "{verdict}/{rounds}")
            }
            Ok(Told::Reply(Reply::Told(answer))) => write!(f, "{answer}"),
            Ok(Told::Counts(counts)) => {
                let Counts {
                    holds,
                    not,
                    open,
                    both,
                } = counts;
                write!(f, "{holds}/{not}/{open}/{both}")
            }
            Ok(Told::Whether(yes)) => write!(f, "{}", yes_or_no(yes)),
        }
    }
}

// Performs the list of calls by the one call for it, and shows the reply to each.
pub(crate) fn perform_calls<B: TermBook>(
    heap: Global,
    width: u16,
    room: usize,
    calls: &[Call],
    fares: &[FareLine],
    book: &B,
) -> Printed {
    let mut replies = vec![in heap; Ok(Reply::Done); room]?;
    if let Err(refusal) = perform_all(width, fares, book, calls, replies.as_mut_slice()) {
        return refused(heap, refusal);
    }
    let told: Vec<Result<Told, Refusal>> = replies
        .iter()
        .take(calls.len())
        .map(|reply| reply.map(Told::Reply))
        .collect(heap)?;
    let replies = Row(told.as_slice(), ";");
    Ok(format!(in heap; "ok {replies}")?)
}

// Performs the calls one by one on two new sheets.
pub(crate) fn perform_acts<B: TermBook>(
    heap: Global,
    first: u16,
    second: u16,
    acts: &[Act],
    fares: &[FareLine],
    others: &[FareLine],
    book: &B,
) -> Printed {
    let mut first = match Sheet::new(first) {
        Ok(sheet) => sheet,
        Err(refusal) => return refused(heap, refusal),
    };
    let mut second = match Sheet::new(second) {
        Ok(sheet) => sheet,
        Err(refusal) => return refused(heap, refusal),
    };
    let told: Vec<Result<Told, Refusal>> = acts
        .iter()
        .map(|act| {
            let fares = match act.fares {
                Which::First => fares,
                Which::Second => others,
            };
            match act.sheet {
                Which::First => take(&mut first, &second, act.step, fares, book),
                Which::Second => take(&mut second, &first, act.step, fares, book),
            }
        })
        .collect(heap)?;
    let replies = Row(told.as_slice(), ";");
    Ok(format!(in heap; "ok {replies}")?)
}

// Takes one step on a sheet, beside the other one.
fn take<B: TermBook>(
    sheet: &mut Sheet,
    other: &Sheet,
    step: Step,
    fares: &[FareLine],
    book: &B,
) -> Result<Told, Refusal> {
    match step {
        Step::Run(call) => run(sheet, call, fares, book).map(Told::Reply),
        Step::Counts => sheet.counts().map(Told::Counts),
        Step::Try(set) => sheet.try_set(fares, book, &set).map(Told::Whether),
        Step::Alike => sheet.alike(other).map(Told::Whether),
    }
}

// Makes the call by its own method.
fn run<B: TermBook>(
    sheet: &mut Sheet,
    call: Call,
    fares: &[FareLine],
    book: &B,
) -> Result<Reply, Refusal> {
    match call {
        Call::Enter(mark) => sheet.enter(mark).map(|()| Reply::Done),
        Call::Strike(mark) => sheet.strike(mark).map(|()| Reply::Done),
        Call::Settle(method) => sheet.settle(fares, book, method).map(Reply::Settled),
        Call::Ask(mark) => sheet.ask(mark).map(Reply::Told),
    }
}
