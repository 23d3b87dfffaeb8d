// Reads tariff files: checks the bytes where they lie, and fills the caller's records, or tables of its own.
#![tactic(auto)]

mod file;
mod line;
mod list;
mod opening;
pub mod read;
mod section;
pub mod tables;
