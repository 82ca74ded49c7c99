//! The text of certificates: its tokens and grammar, and readers of its parts.
#![tactic(auto)]

mod clauses;
pub mod ending;
mod labels;
pub mod law;
mod one_token;
pub mod reading;
mod splitting;
mod tables;
