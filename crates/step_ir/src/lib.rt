// The steps of an application: points and events, the scheduler of the standard and the machine with one stack.
#![tactic(auto)]

pub mod code;
pub mod event;
pub mod law;
