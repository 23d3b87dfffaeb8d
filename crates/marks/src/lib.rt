// Sets of marks, and the refusals of the whole module.
#![tactic(auto)]

pub mod overlap;
pub mod refusal;
pub mod set;
pub mod width;
