// The program for fitters and tariff writers: it reads, checks and copies tariffs, and settles trips under them.
#![tactic(auto)]

mod commands;
mod failure;
mod run;
mod sample;
mod script;
mod settle;
mod show;
mod tariff_file;
mod words;

use commands::perform;
use failure::Failure;
use run::{input_script, run_script};
use std::env;
use std::process::ExitCode;
use tariff_file::Tariff;

fn main(rt: HostRuntime) -> ExitCode {
    match by_words(&rt) {
        Ok(()) => ExitCode::SUCCESS,
        Err(failure) => {
            let _ = eprintln!(rt; "fare: {failure}");
            ExitCode::FAILURE
        }
    }
}

fn by_words(rt: &HostRuntime) -> Result<(), Failure> {
    let args: Vec<String> = env::args(rt)?.skip(1).collect(rt.alloc())?;
    let words: Vec<&str> = args.iter().map(|word| word.as_str()).collect(rt.alloc())?;
    match words.as_slice() {
        ["-"] => perform_lines(rt),
        ["run", file] if *file != "--help" => run_input(rt, file),
        all => perform(rt, all),
    }
}

// Performs the calls of the input.
fn run_input(rt: &HostRuntime, file: &str) -> Result<(), Failure> {
    let tariff = Tariff::load(rt, file)?;
    let script = input_script(rt)?;
    run_script(rt, &tariff, script.as_str())
}

// Performs the commands of the input, one to a line. What one of them is refused is said in its place.
fn perform_lines(rt: &HostRuntime) -> Result<(), Failure> {
    for line in rt.lines(rt.alloc()) {
        let line = line?;
        let text = line.as_str().trim();
        if !text.is_empty() && !text.starts_with('#') {
            perform_line(rt, text)?;
        }
    }
    Ok(())
}

fn perform_line(rt: &HostRuntime, line: &str) -> Result<(), Failure> {
    println!(rt; "> {line}")?;
    let words: Vec<&str> = line.split_whitespace().collect(rt.alloc())?;
    if let Err(failure) = perform(rt, words.as_slice()) {
        println!(rt; "{failure}")?;
    }
    Ok(())
}
