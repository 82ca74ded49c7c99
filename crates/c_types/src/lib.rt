//! Units of C with what each name means, the type of each expression and each conversion.
#![tactic(auto)]

pub use typed_unit::typed;

mod calls;
pub mod convert;
mod expressions;
mod statements;
pub mod types;
mod units;
