//! The points and cells of a typed unit: its statements over cells, and their points with each call expanded.
#![tactic(auto)]

pub mod entity;
pub mod expansion;
pub mod functions;
pub mod law;
pub mod statements;
pub mod tables;
