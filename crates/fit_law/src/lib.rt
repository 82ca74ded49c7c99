//! The code that a typed unit is lowered to fits its application.
#![tactic(auto)]

pub mod law;
