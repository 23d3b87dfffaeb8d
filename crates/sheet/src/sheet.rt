// A sheet: the facts of one trip, and what was found of them.
ghost use Rattle.std.specs.Prelude.{◌≡◌, true};
ghost use Rattle.sheet.specs.Widths.{one_width};

use marks::set::MarkSet;
use readings::reading::Reading;

mod calls;
mod facts;
mod looks;

// Whether the facts, as they now stand, have been settled, and with which reading.
#[derive(Clone, Copy)]
pub enum State {
    Unsettled,
    Settled(Reading),
}

// The sets of a sheet have one width, which is the sheet's.
#[derive(Clone, Copy)]
pub struct Sheet {
    facts: MarkSet,
    state: State,
    ghost even: { one_width facts state ≡ true },
}
