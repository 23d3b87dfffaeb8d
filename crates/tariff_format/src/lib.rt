// The tariff file: what it encodes, and what is said of bytes that are no such file.
#![tactic(auto)]

pub mod counts;
pub mod fault;
pub mod stands;
