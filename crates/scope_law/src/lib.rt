//! What is known of a typed unit that breaks no rule: its names, its services, its sizes and its variables.
#![tactic(auto)]

pub mod law;
