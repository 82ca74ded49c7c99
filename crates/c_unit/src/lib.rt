// The unit of a C text: expressions, statements, and what stands at file level, as they are written.
#![tactic(auto)]

pub mod expression;
pub mod statement;
pub mod unit;
