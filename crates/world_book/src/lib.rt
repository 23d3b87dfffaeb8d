// The world book: a term book that knows the ways things can be.
#![tactic(auto)]

pub mod book;
pub mod theorems;
mod worlds;
