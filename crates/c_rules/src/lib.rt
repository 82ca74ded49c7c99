//! The names of a C text, what they mean, and the rules that the text has to meet.
#![tactic(auto)]

mod calls;
pub mod expressions;
pub mod first;
pub mod meaning;
pub mod names;
pub mod objects;
pub mod rules;
pub mod scope;
mod statements;
mod units;
