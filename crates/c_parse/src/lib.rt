//! Tokens of C to a unit, exactly by the grammar.
#![tactic(auto)]

pub use c_unit::{expression, statement, unit};

mod depth;
mod externals;
pub mod fault;
pub mod parse;
mod simples;
mod statements;
