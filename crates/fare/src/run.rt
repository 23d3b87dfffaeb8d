// Scripts of calls, performed on a new sheet under a tariff.
use crate::failure::{Failure, cannot};
use crate::script::{CallText, ReplyText, calls_of};
use crate::tariff_file::Tariff;
use marks::refusal::Refusal;
use runs::list::perform_all;
use sheet::call::Call;
use sheet::reply::Reply;
use std::{fs, io};

// Performs a script and prints each call with its reply.
pub(crate) fn run_script(rt: &HostRuntime, tariff: &Tariff, script: &str) -> Result<(), Failure> {
    let calls = calls_of(rt.alloc(), script)?;
    let mut replies = vec![in rt.alloc(); Ok(Reply::Done); calls.len()]?;
    let book = tariff.book()?;
    perform_all(
        tariff.width(),
        tariff.fares.as_slice(),
        &book,
        calls.as_slice(),
        replies.as_mut_slice(),
    )?;
    Ok(show_replies(rt, &calls, &replies)?)
}

fn show_replies(
    rt: &HostRuntime,
    calls: &[Call],
    replies: &[Result<Reply, Refusal>],
) -> io::Result<()> {
    for (call, reply) in calls.iter().zip(replies) {
        let asked = CallText(*call);
        let answered = ReplyText(*reply);
        println!(rt; "{asked}: {answered}")?;
    }
    Ok(())
}

// The text of a script's file.
pub(crate) fn script_of(rt: &HostRuntime, name: &str) -> Result<String, Failure> {
    fs::read_to_string(rt, name).map_err(|error| cannot("read", name, error))
}

// The whole input of the program, as a script.
pub(crate) fn input_script(rt: &HostRuntime) -> Result<String, Failure> {
    let mut script = String::new(rt.alloc());
    for line in rt.lines(rt.alloc()) {
        script.push_str(line?.as_str())?;
        script.push_str("\n")?;
    }
    Ok(script)
}
