// Circuits over literals, whose clauses leave exactly one value for each variable but the inputs.
#![tactic(auto)]

mod adder;
mod arithmetic;
mod bits;
pub mod bus;
mod bus_gates;
pub mod circuit;
mod compare;
pub mod expressions;
mod gates;
pub mod operators;
pub mod select;
mod shift;
mod signed;
