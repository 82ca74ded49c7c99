//! Tests of the crates of the scheduler, its replays and its reports: worked values, one module for each crate.
#![tactic(auto)]

#[cfg(test)]
mod one_stack_tests;
#[cfg(test)]
mod osek_machine_tests;
#[cfg(test)]
mod replay_tests;
#[cfg(test)]
mod report_tests;
#[cfg(test)]
mod step_ir_tests;
