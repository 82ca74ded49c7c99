// Literals, clauses, formulas and lines, and the traits of what holds them.
#![tactic(auto)]

pub mod assignment;
pub mod clause;
pub mod formula;
pub mod keep;
pub mod line;
pub mod list_keep;
pub mod list_store;
pub mod lit;
pub mod lit_set;
pub mod store;
