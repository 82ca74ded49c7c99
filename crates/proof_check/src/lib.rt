// Checks the lines of a log, and reads and checks whole certificates.
#![tactic(auto)]

pub mod cert;
pub mod check;
pub mod checker;
mod left;
