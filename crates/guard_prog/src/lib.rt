// Guarded programs: drafts, which of them are well shaped, and their runs.
#![tactic(auto)]

pub mod draft;
pub mod execution;
pub mod guarded;
pub mod law;
mod shape;
