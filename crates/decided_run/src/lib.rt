//! A run of an application is decided: by clauses and with a certificate in the task form, and else by the only run that its machine has.
#![tactic(auto)]

pub mod decide;
pub mod decision;
