// C bytes to tokens, each with its place.
#![tactic(auto)]

mod blanks;
mod bytes;
mod cursor;
pub mod fault;
pub mod law;
pub mod lexing;
mod number;
mod piece;
pub mod token;
pub mod tokens;
mod words;
