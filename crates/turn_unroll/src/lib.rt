// The turns of a guarded program as a formula.
#![tactic(auto)]

mod cells;
mod demands;
pub mod encoding;
mod goal;
pub mod grid;
mod guards;
mod labels;
mod offers;
mod rows;
pub mod run;
mod stack;
mod start;
mod turn;
pub mod unroll;
mod ways;
mod words;
