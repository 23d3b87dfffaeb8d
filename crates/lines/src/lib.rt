// The records of a tariff in the caller's memory: fare lines, term lines and bars. When they are lawful, when two of them are
// equal, and the one pass that brings in the lines whose conditions stand.
#![tactic(auto)]

pub mod admission;
pub mod agenda;
pub mod bar;
pub mod bring;
pub mod check;
pub mod fare;
pub mod growth;
pub mod index;
pub mod line;
pub mod list;
pub mod pass;
pub mod term;
pub mod theorems;
