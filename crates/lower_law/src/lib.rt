// From the typed unit to points: the law that its lowering is exact, and the terms of its operators.
#![tactic(auto)]

pub mod law;
pub mod operations;
