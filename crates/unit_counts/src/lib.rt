//! What is counted for a typed unit, and the cells that it takes.
#![tactic(auto)]

pub mod cells;
pub mod counts;
mod expressions;
mod names;
pub mod tally;
pub mod things;
