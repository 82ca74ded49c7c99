// A run that is decided, and whose certificate is written on the way.
#![tactic(auto)]

pub mod certify;
mod names;
