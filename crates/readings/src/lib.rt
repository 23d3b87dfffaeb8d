// Readings: what they are, how two methods find the least one, and what is proved of them for every term book.
// The definitions stand in specs/. Nothing in this crate depends on how a reading is computed.
#![tactic(auto)]

pub mod answer;
pub mod method;
pub mod reading;
pub mod theorems;
pub mod verdict;
