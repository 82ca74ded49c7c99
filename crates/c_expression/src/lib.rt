//! Tokens of C to expressions, exactly by the grammar.
#![tactic(auto)]

pub use c_unit::expression;

pub mod calls;
pub mod expressions;
pub mod lexeme;
mod nodes;
pub mod operators;
pub mod stop;
