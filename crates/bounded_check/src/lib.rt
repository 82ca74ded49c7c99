// What the runs of an application within a bound come to: an encoding of the one-stack machine, and a verdict on it.
#![tactic(auto)]

pub mod decide;
pub mod encode;
pub mod form;
pub mod lines;
