//! Formats: how values are spelled in tokens and read from left to right, and the laws of exact ones, each the contract of a function with an empty body.
#![tactic(auto)]

pub mod law;
