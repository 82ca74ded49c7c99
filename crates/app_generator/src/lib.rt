//! The application that belongs to a number.
#![tactic(auto)]

mod bodies;
mod draws;
pub mod generate;
mod objects;
mod pieces;
