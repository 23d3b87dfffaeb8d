// The sheet: the record of one trip, its calls, and what each of them does.
#![tactic(auto)]

pub mod call;
pub mod reply;
pub mod sheet;
pub mod theorems;
