// The host call for C: a static library with the call of the library host under its own name.
#![tactic(auto)]

ghost use Rattle.host.specs.Host.{HostAnswer};

// Settles a trip. Writes a byte for each mark of the tariff (not 0, holds 1, open 2, both 3) and answers 0 (clear), 1
// (suspect) or 2 (broken); the bytes behind them stay. Refused, it answers 100 plus the refusal and writes nothing.
#[unsafe(no_mangle)]
pub extern "C" fn fare_settle(file: &[u8], facts: &[u8], out: &mut [u8]) -> u32
    ensures { HostAnswer file.now facts.now out.old out.new result }
{
    host::call::fare_settle(file, facts, out)
}
