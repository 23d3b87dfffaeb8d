// Writes a tariff into the caller's bytes: its width, fare lines and term lines as a file.
#![tactic(auto)]

mod encode;
pub mod file;
mod lent;
mod line_bytes;
mod list;
mod parts;
mod tariff_bytes;
pub mod theorems;
