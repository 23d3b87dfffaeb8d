// The tests of a host call: of the file, of the facts string and of the output, in this order.
ghost use Rattle.std.specs.Prelude.{◌≤◌};
ghost use Rattle.host.specs.Steps.{FactsFound, Tested};

use crate::refused::Refused;
use marks::set::MarkSet;
use tariff::facts::read_facts;
use tariff::fault::NumberFault;
use tariff_reader::tables::Tables;

// The set of the facts, of the width of a tariff.
fn facts_of(tables: &Tables, facts: &[u8]) -> Result<MarkSet, NumberFault>
    requires some { 1 ≤ tables.now.width }
    requires few { tables.now.width ≤ 512 }
    ensures { FactsFound tables.now.width facts.now result }
{
    let Ok(mut set) = MarkSet::empty(tables.width()) else {
        unreachable()
    };
    read_facts(facts, &mut set)?;
    Ok(set)
}

// Reads the file into the tables and gives the set of the facts, for an output with room for so many bytes.
pub(crate) fn read_inputs(
    file: &[u8],
    facts: &[u8],
    room: usize,
    tables: &mut Tables,
) -> Result<MarkSet, Refused>
    ensures { Tested file.now facts.now room tables.new result }
{
    tables.load(file)?;
    let set = match facts_of(tables, facts) {
        Ok(set) => set,
        Err(fault) => return Err(Refused::Facts(fault)),
    };
    if room < tables.width() as usize {
        return Err(Refused::Output);
    }
    Ok(set)
}
