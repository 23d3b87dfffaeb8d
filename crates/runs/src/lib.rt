// Whole runs of calls on one sheet.
#![tactic(auto)]

pub mod list;
pub mod theorems;
