// What a case does with its book, or with lines and facts alone.
use crate::calls::{Act, perform_acts, perform_calls};
use crate::records::records;
use crate::show::{Marks, Printed, refused, yes_or_no};
use crate::words;
use books::book::TermBook;
use lines::fare::FareLine;
use marks::set::MarkSet;
use readings::method::Method;
use readings::reading::Reading;
use settling::founded::{Model, well_founded};
use settling::settle::settle;
use settling::sound::is_sound;
use sheet::call::Call;
use std::alloc::Global;

#[derive(Drop)]
pub(crate) enum Job {
    // only makes it
    Make,
    Close(MarkSet),
    Settle {
        method: Method,
        fares: Vec<FareLine>,
        facts: MarkSet,
    },
    Sound {
        fares: Vec<FareLine>,
        facts: MarkSet,
        set: MarkSet,
    },
    // the call that performs a list of calls, with so many reply records
    List {
        width: u16,
        room: usize,
        calls: Vec<Call>,
        fares: Vec<FareLine>,
    },
    // calls one by one on two sheets of these widths, with either of two lists of fare lines
    Sheets {
        first: u16,
        second: u16,
        acts: Vec<Act>,
        fares: Vec<FareLine>,
        others: Vec<FareLine>,
    },
}

impl Job {
    pub(crate) fn run<B: TermBook>(&self, heap: Global, book: &B) -> Printed {
        match self {
            Job::Make => Ok(String::from_str(heap, "ok")?),
            Job::Close(set) => close_set(heap, *set, book),
            Job::Settle {
                method,
                fares,
                facts,
            } => settle_facts(heap, fares.as_slice(), book, facts, *method),
            Job::Sound { fares, facts, set } => try_set(heap, fares.as_slice(), book, facts, set),
            Job::List {
                width,
                room,
                calls,
                fares,
            } => perform_calls(
                heap,
                *width,
                *room,
                calls.as_slice(),
                fares.as_slice(),
                book,
            ),
            Job::Sheets {
                first,
                second,
                acts,
                fares,
                others,
            } => perform_acts(
                heap,
                *first,
                *second,
                acts.as_slice(),
                fares.as_slice(),
                others.as_slice(),
                book,
            ),
        }
    }
}

fn close_set<B: TermBook>(heap: Global, mut set: MarkSet, book: &B) -> Printed {
    match book.close(&mut set) {
        Err(refusal) => refused(heap, refusal),
        Ok(clash) => {
            let marks = Marks(&set);
            let clash = yes_or_no(clash);
            Ok(format!(in heap; "ok {marks} {clash}")?)
        }
    }
}

fn settle_facts<B: TermBook>(
    heap: Global,
    fares: &[FareLine],
    book: &B,
    facts: &MarkSet,
    method: Method,
) -> Printed {
    match settle(fares, book, facts, method) {
        Err(refusal) => refused(heap, refusal),
        Ok(judged) => {
            let verdict = judged.verdict;
            let rounds = judged.settled.rounds;
            let Reading { lower, upper } = judged.settled.reading;
            let lower = Marks(&lower);
            let upper = Marks(&upper);
            Ok(format!(in heap; "ok {verdict} {rounds} {lower} {upper}")?)
        }
    }
}

fn try_set<B: TermBook>(
    heap: Global,
    fares: &[FareLine],
    book: &B,
    facts: &MarkSet,
    set: &MarkSet,
) -> Printed {
    match is_sound(fares, book, facts, set) {
        Err(refusal) => refused(heap, refusal),
        Ok(sound) => Ok(String::from_str(heap, yes_or_no(sound))?),
    }
}

// The well-founded model, without a book.
pub(crate) fn founded(heap: Global, fares: &str, facts: &str) -> Printed {
    let fares = records::<FareLine>(heap, fares)?;
    match well_founded(fares.as_slice(), &words::set(facts)?) {
        Err(refusal) => refused(heap, refusal),
        Ok(Model { holds, fails }) => {
            let holds = Marks(&holds);
            let fails = Marks(&fails);
            Ok(format!(in heap; "ok {holds} {fails}")?)
        }
    }
}
