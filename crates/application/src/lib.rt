// The application: tasks, routines and resources with their levels, run levels and ceilings, and when it is in order.
#![tactic(auto)]

pub mod app;
pub mod levels;
