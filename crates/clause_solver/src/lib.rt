// A solver by conflict-driven clause learning.
#![tactic(auto)]

mod analyze;
pub mod answer;
mod decide;
mod jump;
mod line;
mod numbering;
mod propagate;
mod refute;
mod resolvent;
mod search;
mod solver;
mod status;
mod trail;

pub use solver::solve;
