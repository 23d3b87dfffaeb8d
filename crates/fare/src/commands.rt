// The commands: each takes its words apart and hands them on.
use crate::failure::Failure;
use crate::run::{run_script, script_of};
use crate::sample::show_sample;
use crate::settle::{show_closed, show_settled};
use crate::show::{check_file, copy_file, rewrite_file, show_file};
use crate::tariff_file::Tariff;
use crate::words::{hex_bytes, marks_of, method, number};
use anyhow::anyhow;
use readings::method::Method;
use std::alloc::Global;
use texts::facts_string::FactsString;
use texts::number::NumberText;

const HELP: &str = "\
fare [sample]             the sample tariff, and a trip under it from beginning to end
fare show FILE            the lines of a tariff file
fare check FILE           whether a tariff file is lawful, and else its fault
fare settle FILE [--method 1|2] [MARK ..]
                          settles a trip with these facts: every mark's answer, and the verdict
fare run FILE [SCRIPT]    performs the calls of a script, or of the input, on a new sheet, one to a
                          line: enter 3, strike 3, settle 1, settle 2, ask 2
fare run FILE CALL \\; CALL ..
                          performs these calls
fare close FILE [MARK ..] closes a set of marks under the terms of a tariff
fare copy FILE [FILE]     reads a tariff file, and writes it anew
fare facts WIDTH HEX ..   reads facts strings, each for its width, and writes them anew
fare numbers HEX ..       reads the number at the front of each, and writes it anew
fare -                    performs the commands of the input, one to a line
fare --help               this text

A FILE is the name of a tariff file, or sample for the built-in one, or its bytes as hex:010000.
An example: fare settle sample 0 3";

pub(crate) fn perform(rt: &HostRuntime, words: &[&str]) -> Result<(), Failure> {
    match words {
        ["--help", ..] | [_, "--help"] => Ok(rt.println(HELP)?),
        [] | ["sample", ..] => show_sample(rt),
        ["facts"] | ["numbers"] => Err("bytes in hexadecimal must follow".into()),
        ["facts", strings @ ..] => facts_strings(rt, strings),
        ["numbers", strings @ ..] => number_strings(rt, strings),
        ["show", file] => show_file(rt, file),
        ["check", file] => check_file(rt, file),
        ["copy", file, to @ ..] => copy(rt, file, to),
        ["close", file, marks @ ..] => close(rt, file, marks),
        ["settle", file, "--method", number, marks @ ..] => {
            settle_by(rt, file, method(number)?, marks)
        }
        ["settle", file, marks @ ..] => settle_by(rt, file, Method::First, marks),
        ["run", file, calls @ ..] => run(rt, file, calls),
        [name, ..] => Err(no_such(name)),
    }
}

fn no_such(name: &str) -> Failure {
    anyhow!("there is no command {name} with these words: fare --help lists them").into()
}

fn copy(rt: &HostRuntime, file: &str, rest: &[&str]) -> Result<(), Failure> {
    match rest {
        [] => {
            rewrite_file(rt, file)?;
            Ok(())
        }
        [to] => copy_file(rt, file, to),
        _ => Err("a tariff is copied to one file".into()),
    }
}

fn close(rt: &HostRuntime, file: &str, marks: &[&str]) -> Result<(), Failure> {
    let marks = marks_of(rt.alloc(), marks)?;
    show_closed(rt, &Tariff::load(rt, file)?, &marks)
}

fn settle_by(rt: &HostRuntime, file: &str, method: Method, marks: &[&str]) -> Result<(), Failure> {
    let marks = marks_of(rt.alloc(), marks)?;
    show_settled(rt, &Tariff::load(rt, file)?, &marks, method)
}

fn run(rt: &HostRuntime, file: &str, rest: &[&str]) -> Result<(), Failure> {
    let script = match rest {
        [] => return Err("the calls, or the name of a script, must follow".into()),
        [name] => script_of(rt, name)?,
        calls => joined(rt.alloc(), calls)?,
    };
    run_script(rt, &Tariff::load(rt, file)?, script.as_str())
}

fn joined(heap: Global, words: &[&str]) -> Result<String, Failure> {
    let mut text = String::new(heap);
    for word in words {
        text.push_str(word)?;
        text.push_str(" ")?;
    }
    Ok(text)
}

// Takes the words two by two: a width and a facts string.
fn facts_strings(rt: &HostRuntime, words: &[&str]) -> Result<(), Failure> {
    let (pairs, rest) = words.as_chunks::<2>();
    for [width, digits] in pairs {
        let width = number(width)?;
        let bytes = hex_bytes(rt.alloc(), digits)?;
        let facts = FactsString {
            width,
            bytes: &bytes,
        };
        println!(rt; "{facts}")?;
    }
    let Some(width) = rest.first() else {
        return Ok(());
    };
    number(width)?;
    Err("a facts string must follow its width".into())
}

fn number_strings(rt: &HostRuntime, words: &[&str]) -> Result<(), Failure> {
    for digits in words {
        let bytes = hex_bytes(rt.alloc(), digits)?;
        let number = NumberText(&bytes);
        println!(rt; "{number}")?;
    }
    Ok(())
}
