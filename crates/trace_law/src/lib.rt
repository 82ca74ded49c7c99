// That the scheduler of the standard and the machine with one stack do the same.
#![tactic(auto)]

pub mod law;
