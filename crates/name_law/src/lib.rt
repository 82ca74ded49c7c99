//! The names of the tasks and routines that OIL texts describe.
#![tactic(auto)]

pub mod law;
