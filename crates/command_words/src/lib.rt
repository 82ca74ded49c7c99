// The words of a command line: one simple command of `clap` per name, and what its words ask for.
#![tactic(auto)]

pub mod asked;
mod line;
mod matches;
mod number;
mod texts;
