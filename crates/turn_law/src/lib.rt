// What a formula over the turns of a guarded program says, and the laws that lead there from one turn.
#![tactic(auto)]

pub mod law;
