// The host call.
ghost use Rattle.std.specs.Prelude.{◌≡◌};
ghost use Rattle.host.specs.Host.{HostAnswer};
ghost use Rattle.host.specs.Steps.{answer_number};

use crate::answers::write_answers;
use crate::refused::Refused;
use crate::settled::settle_facts;
use crate::tests::read_inputs;
use readings::verdict::Verdict;
use tariff_reader::tables::Tables;

// Settles the facts by the tariff file, writes the answers, and says the verdict. All tests come before the first byte.
fn settle_bytes(file: &[u8], facts: &[u8], out: &mut [u8]) -> Result<Verdict, Refused>
    ensures { HostAnswer file.now facts.now out.old out.new (answer_number result) }
{
    let mut tables = Tables::default();
    let set = read_inputs(file, facts, out.len(), &mut tables)?;
    let judged = settle_facts(&tables, &set);
    write_answers(out, &judged.settled.reading);
    Ok(judged.verdict)
}

// The number of the verdict, or 100 and the number of the refusal.
fn number_of(res: Result<Verdict, Refused>) -> u32
    ensures { result ≡ answer_number res }
{
    match res {
        Ok(verdict) => u32::from(verdict.number()),
        Err(refused) => 100 + u32::from(refused.number()),
    }
}

// The same as `settle_bytes`, answered by a number.
fn settle_trip(file: &[u8], facts: &[u8], out: &mut [u8]) -> u32
    ensures { HostAnswer file.now facts.now out.old out.new result }
{
    number_of(settle_bytes(file, facts, out))
}

// Settles a trip. Writes a byte for each mark of the tariff (not 0, holds 1, open 2, both 3) and answers 0 (clear), 1
// (suspect) or 2 (broken); the bytes behind them stay. Refused, it answers 100 plus the refusal and writes nothing.
// The crate host_c exports it to C.
pub fn fare_settle(file: &[u8], facts: &[u8], out: &mut [u8]) -> u32
    ensures { HostAnswer file.now facts.now out.old out.new result }
{
    settle_trip(file, facts, out)
}
