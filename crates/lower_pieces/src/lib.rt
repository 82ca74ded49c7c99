//! Typed units of C become points: their expressions over cells, what a thing reads and tests, and the points of statements.
#![tactic(auto)]

pub mod actions;
pub mod asking;
pub mod copies;
pub mod entries;
pub mod evaluation;
pub mod law;
pub mod pieces;
pub mod sizes;
pub mod steps;
pub mod translation;
pub mod tree;
