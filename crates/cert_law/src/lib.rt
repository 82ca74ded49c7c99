//! The certificates that runs write are those that the check accepts.
#![tactic(auto)]

pub mod law;
