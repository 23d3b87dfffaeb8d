// The call of a meter's C program: a tariff file, a facts string and an output.
#![tactic(auto)]

mod answers;
pub mod call;
mod refused;
mod settled;
mod tests;
pub mod theorems;
