// Scripts: calls on a sheet, one to a line, and their replies in words.
use crate::failure::Failure;
use anyhow::anyhow;
use marks::refusal::Refusal;
use readings::method::Method;
use sheet::call::Call;
use sheet::reply::Reply;
use std::alloc::Global;
use std::fmt;
use texts::many::Many;
use texts::refused::RefusalText;

// A call as it stands in a script: enter 3, settle 1.
#[derive(Clone, Copy)]
pub(crate) struct CallText(pub(crate) Call);

impl fmt::Display for CallText {
    fn fmt<W: fmt::Write>(&self, f: &mut fmt::Formatter<W>) -> fmt::Result {
        match self.0 {
            Call::Enter(m) => write!(f, "enter {m}"),
            Call::Strike(m) => write!(f, "strike {m}"),
            Call::Settle(method) => write!(f, "settle {}", method.number()),
            Call::Ask(m) => write!(f, "ask {m}"),
        }
    }
}

// What a call answered: done, clear after 3 rounds, holds, or its refusal.
#[derive(Clone, Copy)]
pub(crate) struct ReplyText(pub(crate) Result<Reply, Refusal>);

impl fmt::Display for ReplyText {
    fn fmt<W: fmt::Write>(&self, f: &mut fmt::Formatter<W>) -> fmt::Result {
        match self.0 {
            Ok(Reply::Done) => write!(f, "done"),
            Ok(Reply::Settled(settlement)) => {
                let verdict = settlement.verdict;
                let rounds = Many(settlement.rounds as usize, "round");
                write!(f, "{verdict} after {rounds}")
            }
            Ok(Reply::Told(answer)) => write!(f, "{answer}"),
            Err(refusal) => write!(f, "{}", RefusalText(refusal)),
        }
    }
}

// The calls of a script. They stand one to a line, or on one line with semicolons between them; a line that begins with # is
// passed over.
pub(crate) fn calls_of(heap: Global, script: &str) -> Result<Vec<Call>, Failure> {
    script
        .lines()
        .map(|line| line.trim())
        .filter(|line| !line.starts_with('#'))
        .flat_map(|line| line.split(';'))
        .map(|text| text.trim())
        .filter(|text| !text.is_empty())
        .map(|text| -> Result<Call, Failure> { call_of(text) })
        .try_collect(heap)
}

const CALLS: &str = "the calls are enter 3, strike 3, settle 1, settle 2, ask 3";

// There are many, so nothing as large as a failure is moved for one that is right.
fn call_of(text: &str) -> Result<Call, Failure> {
    let Some(call) = parsed(text) else {
        return Err(anyhow!("no such call: {text} ({CALLS})").into());
    };
    Ok(call)
}

fn parsed(text: &str) -> Option<Call> {
    let (name, rest) = text.split_once(' ')?;
    let number = rest.trim().parse::<u16>().ok()?;
    match name {
        "enter" => Some(Call::Enter(number)),
        "strike" => Some(Call::Strike(number)),
        "settle" => Some(Call::Settle(Method::try_from(number).ok()?)),
        "ask" => Some(Call::Ask(number)),
        _ => None,
    }
}
