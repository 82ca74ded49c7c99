//! The rules on a typed unit that is checked for an application, and units that break none of them.
#![tactic(auto)]

mod bodies;
mod chains;
pub mod check;
mod collect;
mod found;
pub mod law;
mod resources;
pub mod site;
mod sizes;
