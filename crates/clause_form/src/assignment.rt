// Assignments.
ghost use Rattle.std.specs.Prelude.{◌≡◌, ◌<◌, ◌≤◌, true, length, slice_get, OnErr, OnOk, [], ◌∷◌, ◌++◌};
ghost use Rattle.std.specs.Option.{option_copied};
ghost use Rattle.clause_form.specs.ClauseTruth.{is_clause_true, is_lit_true, values_of};
ghost use Rattle.clause_form.specs.Literals.{is_within, variable};

use crate::clause::Clause;
use crate::lit::Lit;
use std::alloc::{AllocError, Global};
use std::marker::Model;

/// A truth value for each variable: the first is that of variable 1.
#[derive(Drop)]
pub struct Assignment {
    items: Vec<bool>,
}

impl Model for Assignment {
    ghost use Rattle.std.specs.Prelude.{List, Bool};

    ghost Value = { List Bool };

    ghost view = { λ a. a.items.items };
}

impl Assignment {
    pub fn new(alloc: Global) -> Self
        ensures { result ≡ [] }
    {
        Assignment {
            items: Vec::new(alloc),
        }
    }

    pub fn push(&mut self, item: bool) -> Result<(), AllocError>
        ensures ok { OnOk result (self.new ≡ self.old ++ item ∷ []) }
        ensures err { OnErr result (self.new ≡ self.old) }
    {
        self.items.push(item)?;
        Ok(())
    }

    pub fn len(&self) -> usize
        ensures { result ≡ length self.now }
    {
        self.items.len()
    }

    pub fn get(&self, at: usize) -> Option<&bool>
        ensures { option_copied result ≡ slice_get self.now at }
    {
        self.items.get(at)
    }
}

// The value that a literal has.
#[tactic(auto, unfolding(crate::specs::ClauseTruth::is_lit_true))]
fn holds(lit: Lit, values: &Assignment) -> bool
    requires known { 0 < variable lit }
    requires within { variable lit ≤ length values.now }
    ensures { result ≡ is_lit_true (values_of values.now) lit }
{
    let value = values.items[(lit.variable() - 1) as usize];
    if lit.is_positive() { value } else { !value }
}

/// Whether the values make the clause true.
pub fn is_true(clause: &Clause, values: &Assignment) -> bool
    requires { is_within (length values.now) clause.now ≡ true }
    ensures { result ≡ is_clause_true (values_of values.now) clause.now }
{
    for lit in clause.lits() {
        if holds(*lit, values) {
            return true;
        }
    }
    false
}
