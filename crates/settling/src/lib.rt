// Settling: yields, both methods, the verdict and the test of sound readings, for any book; the well-founded model without one.
#![tactic(auto)]

mod deny;
pub mod first;
pub mod founded;
mod grow;
mod keep;
mod rounds;
pub mod second;
pub mod settle;
pub mod settled;
pub mod sound;
mod trip;
mod verdict;
pub mod yields;
