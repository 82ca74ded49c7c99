// The typed unit of a C text, its view as plain trees, and what it is of a unit and an application: types, conversions, numbers for names.
#![tactic(auto)]

pub mod manner;
pub mod typed;
