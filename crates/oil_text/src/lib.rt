// The OIL reader: from the bytes of an OIL text to its tree, or to its first fault.
#![tactic(auto)]

pub use oil_tree::tree;

mod braced;
mod bytes;
pub mod fault;
pub mod law;
mod lexing;
mod pieces;
pub mod reader;
mod reading;
mod sections;
mod stop;
mod token;
