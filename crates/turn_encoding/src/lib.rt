// The formula of the turns of a guarded program, with the literals of its depths, labels and words: types alone.
#![tactic(auto)]

pub mod encoding;
pub mod grid;
