// The application: tasks, routines and resources with their levels and ceilings, as the tree of an OIL text describes it.
#![tactic(auto)]

pub use application::{app, levels};

pub mod build;
mod declared;
mod notes;
mod objects;
