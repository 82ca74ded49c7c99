// The rules that an OIL text has to meet, and the first fault of its tree.
#![tactic(auto)]

pub mod attribute;
pub mod first;
pub mod group;
pub mod kind;
pub mod known;
pub mod names;
pub mod object;
pub mod role;
pub mod rules;
pub mod value;
