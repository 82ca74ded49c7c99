// The one run of a machine where no routine arrives and no input is taken.
#![tactic(auto)]

pub mod inputs;
pub mod run;
