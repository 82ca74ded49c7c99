// The scheduler of the standard as a machine, which makes one step for each choice.
#![tactic(auto)]

mod faults;
mod held;
mod levels;
mod lists;
pub mod machine;
mod perform;
mod points;
mod ready;
mod starts;
