// The command `oschk` over a desk and a sink.
#![tactic(auto)]

mod check;
pub mod command;
mod fetch;
mod replays;
mod reply;
mod run;
mod show;
pub mod status;
