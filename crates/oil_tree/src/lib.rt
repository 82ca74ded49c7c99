// The tree of an OIL text, and its attributes as plain trees.
#![tactic(auto)]

pub mod tree;
