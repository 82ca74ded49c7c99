//! Tests of the crates of words, clauses and guarded programs: worked values, one module for each crate.
#![tactic(auto)]

#[cfg(test)]
mod cert_tests;
#[cfg(test)]
mod chk_base_tests;
#[cfg(test)]
mod clause_form_tests;
#[cfg(test)]
mod clause_solver_tests;
#[cfg(test)]
mod guard_prog_tests;
#[cfg(test)]
mod proof_check_tests;
#[cfg(test)]
mod turn_unroll_tests;
