// The rows of the gate machine: the work of each on registers, latches and memory.
#![tactic(auto)]

mod compute;
mod latches;
mod row;

pub use latches::Latches;
pub use row::work;
