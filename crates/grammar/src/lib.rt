//! Grammars as plain data, what can be said of a text, and the laws of reading it from left to right, each the contract of a function with an empty body.
#![tactic(auto)]

pub mod automaton_law;
pub mod law;
