// Trips under a tariff: sets closed under its terms, and facts settled.
use crate::failure::Failure;
use crate::script::ReplyText;
use crate::tariff_file::Tariff;
use books::book::TermBook;
use marks::refusal::Refusal;
use marks::set::MarkSet;
use readings::method::Method;
use readings::verdict::Verdict;
use sheet::reply::{Counts, Reply, Settlement};
use sheet::sheet::Sheet;
use std::fmt;
use texts::trip::{Closed, Facts};

fn close(tariff: &Tariff, marks: &[u16]) -> Result<Closed, Refusal> {
    let book = tariff.book()?;
    let given = MarkSet::of(tariff.width(), marks)?;
    let mut closure = given;
    let clash = book.close(&mut closure)?;
    Ok(Closed {
        given,
        closure,
        clash,
    })
}

pub(crate) fn show_closed(rt: &HostRuntime, tariff: &Tariff, marks: &[u16]) -> Result<(), Failure> {
    let closed = close(tariff, marks)?;
    println!(rt; "{closed}")?;
    Ok(())
}

// A settled sheet, and what settling it answered.
#[derive(Clone, Copy)]
struct Trip {
    sheet: Sheet,
    found: Settlement,
}

fn settle_trip(tariff: &Tariff, marks: &[u16], method: Method) -> Result<Trip, Refusal> {
    let book = tariff.book()?;
    let mut sheet = Sheet::new(tariff.width())?;
    for m in marks {
        sheet.enter(*m)?;
    }
    let found = sheet.settle(tariff.fares.as_slice(), &book, method)?;
    Ok(Trip { sheet, found })
}

// How many marks have each answer.
#[derive(Clone, Copy)]
struct CountsText(Counts);

impl fmt::Display for CountsText {
    fn fmt<W: fmt::Write>(&self, f: &mut fmt::Formatter<W>) -> fmt::Result {
        let Counts {
            holds,
            not,
            open,
            both,
        } = self.0;
        write!(f, "holds {holds}, not {not}, open {open}, both {both}")
    }
}

pub(crate) fn show_counts(rt: &HostRuntime, tariff: &Tariff, marks: &[u16]) -> Result<(), Failure> {
    let facts = MarkSet::of(tariff.width(), marks)?;
    let trip = settle_trip(tariff, marks, Method::First)?;
    let given = Facts(&facts);
    let counts = CountsText(trip.sheet.counts()?);
    println!(rt; "counts with {given}: {counts}")?;
    Ok(())
}

pub(crate) fn show_settled(
    rt: &HostRuntime,
    tariff: &Tariff,
    marks: &[u16],
    method: Method,
) -> Result<(), Failure> {
    let facts = MarkSet::of(tariff.width(), marks)?;
    let trip = settle_trip(tariff, marks, method)?;
    let given = Facts(&facts);
    let number = method.number();
    println!(rt; "{given}, by method {number}")?;
    show_answers(rt, tariff.width(), &trip.sheet)?;
    let counts = CountsText(trip.sheet.counts()?);
    println!(rt; "  counts: {counts}")?;
    let reply = ReplyText(Ok(Reply::Settled(trip.found)));
    let meaning = meaning(trip.found.verdict);
    println!(rt; "  {reply}: {meaning}")?;
    Ok(())
}

// A table of all marks and their answers.
fn show_answers(rt: &HostRuntime, width: u16, sheet: &Sheet) -> Result<(), Failure> {
    println!(rt; "  mark  answer")?;
    for m in 0..width {
        let answer = sheet.ask(m)?;
        println!(rt; "  {m:>4}  {answer}")?;
    }
    Ok(())
}

// What a verdict means. Only broken says whether there is a sound reading.
fn meaning(verdict: Verdict) -> &'static str {
    match verdict {
        Verdict::Clear => {
            "no mark is both, and the terms hold back no line that would add a mark; \
             this does not promise a sound reading"
        }
        Verdict::Suspect => {
            "the terms hold back a line that would add a mark; \
             this does not rule a sound reading out"
        }
        Verdict::Broken => "there is no sound reading",
    }
}
