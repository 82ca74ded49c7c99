// The guarded program of an application.
#![tactic(auto)]

mod after;
mod alternatives;
pub mod build;
mod change;
mod guards;
pub mod label;
mod labels;
pub mod law;
mod laying;
mod layout;
mod levels;
mod nexts;
mod points;
mod rule;
mod services;
mod sets;
mod start;
mod starts;
mod terms;
mod widths;
