// What the programs print of the module: bytes, marks, tariffs, refusals and faults, and what is read and written anew.
#![tactic(auto)]

pub mod facts_string;
pub mod listed;
pub mod many;
pub mod number;
pub mod refused;
pub mod tariff_text;
pub mod trip;
