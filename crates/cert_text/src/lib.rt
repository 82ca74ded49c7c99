//! The text of a certificate, written to a desk piece by piece.
#![tactic(auto)]

pub mod front;
pub mod label;
pub mod law;
pub mod rest;
mod spill;
mod streams;
mod tokens;
