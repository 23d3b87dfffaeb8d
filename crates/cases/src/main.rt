// Puts cases, one to a line of the input, through the public calls of the module and prints a line for each.
#![tactic(auto)]

mod bytes;
mod calls;
mod case_book;
mod files;
mod jobs;
mod records;
mod show;
mod words;

use anyhow::anyhow;
use calls::{Act, calls_of};
use case_book::on_book;
use jobs::Job;
use lines::fare::FareLine;
use records::records;
use sheet::call::Call;
use show::Printed;
use std::alloc::Global;
use std::io::{BufRead, BufReader};

fn main(rt: HostRuntime) -> anyhow::Result<()> {
    run(&rt)
}

// An empty line is passed over. The first line that is no case ends the program.
fn run(rt: &HostRuntime) -> anyhow::Result<()> {
    let heap = rt.alloc();
    for (i, line) in BufReader::new(heap, rt.stdin())?.lines(heap).enumerate() {
        let line = line?;
        if line.is_empty() {
            continue;
        }
        let number = i.saturating_add(1);
        let text = printed(heap, line.as_str()).map_err(|why| anyhow!("line {number}: {why}"))?;
        rt.println(text)?;
    }
    Ok(())
}

fn printed(heap: Global, line: &str) -> Printed {
    let words: Vec<&str> = line.split(' ').collect(heap)?;
    on_words(heap, words.as_slice())
}

// The cases without a book; all others end with one.
fn on_words(heap: Global, words: &[&str]) -> Printed {
    match words {
        ["number", low, high, hex] => bytes::number(heap, low, high, hex),
        ["spell", room, place, value] => bytes::spell(heap, room, place, value),
        ["facts", width, hex] => bytes::facts(heap, width, hex),
        ["string", room, set] => bytes::string(heap, room, set),
        ["read", fares, terms, hex] => files::read(heap, fares, terms, hex),
        ["write", width, room, fares, terms] => files::write(heap, width, room, fares, terms),
        ["host", file, facts, out] => files::host(heap, file, facts, out),
        ["next", from, set] => bytes::next(heap, from, set),
        ["founded", fares, facts] => jobs::founded(heap, fares, facts),
        _ => with_book(heap, words),
    }
}

fn with_book(heap: Global, case: &[&str]) -> Printed {
    match case {
        ["make", book @ ..] => on_book(heap, book, &Job::Make),
        ["close", set, book @ ..] => on_book(heap, book, &Job::Close(words::set(set)?)),
        ["settle", method, fares, facts, book @ ..] => {
            let job = Job::Settle {
                method: words::method(method)?,
                fares: records::<FareLine>(heap, fares)?,
                facts: words::set(facts)?,
            };
            on_book(heap, book, &job)
        }
        ["sound", fares, facts, set, book @ ..] => {
            let job = Job::Sound {
                fares: records::<FareLine>(heap, fares)?,
                facts: words::set(facts)?,
                set: words::set(set)?,
            };
            on_book(heap, book, &job)
        }
        _ => with_calls(heap, case),
    }
}

fn with_calls(heap: Global, case: &[&str]) -> Printed {
    match case {
        ["list", width, room, calls, fares, book @ ..] => {
            let job = Job::List {
                width: words::number(width)?,
                room: words::amount(room)?,
                calls: calls_of::<Call>(heap, calls)?,
                fares: records::<FareLine>(heap, fares)?,
            };
            on_book(heap, book, &job)
        }
        ["sheets", first, second, acts, lines, book @ ..] => {
            let (fares, others) = lines.split_once('&').unwrap_or((lines, "-"));
            let job = Job::Sheets {
                first: words::number(first)?,
                second: words::number(second)?,
                acts: calls_of::<Act>(heap, acts)?,
                fares: records::<FareLine>(heap, fares)?,
                others: records::<FareLine>(heap, others)?,
            };
            on_book(heap, book, &job)
        }
        _ => Err(anyhow!("no such case")),
    }
}
