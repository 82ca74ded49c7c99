//! Checked units of C become codes: their cells, and the points of each entity with every call expanded at its place.
#![tactic(auto)]

mod copies;
mod entities;
pub mod lower;
mod starts;
mod trees;
