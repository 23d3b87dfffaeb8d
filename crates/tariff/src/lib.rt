// Numbers and facts strings in the caller's bytes: read, tested and written.
#![tactic(auto)]

pub mod cursor;
pub mod facts;
pub mod fault;
pub mod reader;
pub mod rest;
pub mod stands;
pub mod writer;
