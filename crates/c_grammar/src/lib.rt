//! The grammar of the C profile as data: as it is written, and factored so that the next token decides, with the laws that both are one.
#![tactic(auto)]

pub mod law;
pub mod symbol;
