//! From two texts to the application and its code, stage by stage, or to the first stage that refuses them.
#![tactic(auto)]

pub mod limits;
pub mod prepare;
pub mod read;
mod stages;
pub mod stop;
