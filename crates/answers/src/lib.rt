// What the engines answer and the printer prints, as plain types.
#![tactic(auto)]

pub mod refusal;
pub mod verdict;
