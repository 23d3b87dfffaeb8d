// The sample tariff and its trip: the count was read, and then found at the end of its scale.
use crate::failure::Failure;
use crate::run::run_script;
use crate::settle::show_counts;
use crate::show::show_tariff;
use crate::tariff_file::Tariff;

// The bytes of examples/sample.tariff.
pub(crate) static FILE: [u8; 21] = [
    5, 2, 2, 1, 1, 3, 1, 2, 4, 1, 3, 1, 1, 1, 2, 1, 0, 2, 2, 1, 2,
];

const MARKS: &str = "\
mark 0: the pulse count is at 255, the end of its scale
mark 1: the measured distance stands
mark 2: the count is clipped
mark 3: the count was read
mark 4: the odometer is wanted
";

const TRIP: &str = "enter 3; settle 1; ask 1; enter 0; settle 1; ask 1; ask 4; enter 0; strike 9";

const GO_ON: &str = "\
fare settle sample 0 3 settles this trip; fare --help lists all commands.
For sample you may write the name of a tariff file.";

pub(crate) fn show_sample(rt: &HostRuntime) -> Result<(), Failure> {
    let tariff = Tariff::read(rt.alloc(), &FILE)?;
    rt.println("The sample tariff")?;
    rt.print(MARKS)?;
    show_tariff(rt, &tariff)?;
    rt.println("The airport cab's trip")?;
    run_script(rt, &tariff, TRIP)?;
    show_counts(rt, &tariff, &[0, 3])?;
    rt.println(GO_ON)?;
    Ok(())
}
