// Schedules: reading them from a text, and running the scheduler on their choices.
#![tactic(auto)]

pub mod run;
pub mod schedule;
mod value;
