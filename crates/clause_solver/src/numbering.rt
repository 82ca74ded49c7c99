// The clauses by their numbers, which hints name: first those of the formula, then the lines.
//
// It keeps the references under which a store has them, in the order of the numbers, from 1 on.
ghost use Rattle.std.specs.Prelude.{◌≡◌, ◌<◌, ◌≤◌, ◌∷◌, ◌++◌, [], length, OnOk, Some};
ghost use Rattle.clause_form.specs.DerivedLine.{clause_at};
ghost use Rattle.clause_solver.specs.Numbering.{HasEach, clauses_of};

use clause_form::clause::{Clause, Clauses};
use clause_form::lit::Lit;
use clause_form::store::{ClauseRef, ClauseStore};
use std::alloc::{AllocError, Global};
use std::marker::Model;

#[derive(Drop)]
pub struct Numbering {
    refs: Vec<ClauseRef>,
}

impl Model for Numbering {
    ghost use Rattle.std.specs.Prelude.{List};
    ghost use Rattle.clause_form.specs.declared.store.ClauseRef.{ClauseRef};

    ghost Value = { List ClauseRef };

    ghost view = { λ n. n.refs.items };
}

impl Numbering {
    pub fn new(alloc: Global) -> Numbering
        ensures { result ≡ [] }
    {
        Numbering {
            refs: Vec::new(alloc),
        }
    }

    pub fn len(&self) -> usize
        ensures { result ≡ length self.now }
    {
        self.refs.len()
    }

    // The clause with this number.
    pub fn clause<'a, C: ClauseStore>(&self, store: &'a C, number: u64) -> &'a [Lit]
        requires each { HasEach (C.stored store.now) self.now }
        requires above { 0 < number }
        requires within { number ≤ length self.now }
        ensures { clause_at (clauses_of (C.stored store.now) self.now) number ≡ Some result.now }
    {
        store.lits(self.refs[(number - 1) as usize])
    }

    // Puts a clause into the store, under the next number.
    pub fn append<C: ClauseStore>(
        &mut self,
        store: &mut C,
        clause: &Clause,
    ) -> Result<(), AllocError>
        requires { HasEach (C.stored store.old) self.old }
        ensures each { OnOk result (HasEach (C.stored store.new) self.new) }
        ensures clauses { OnOk result (clauses_of (C.stored store.new) self.new ≡ clauses_of (C.stored store.old) self.old ++ clause.now ∷ []) }
    {
        let at = store.push(clause.lits())?;
        self.refs.push(at)?;
        Ok(())
    }

    // Puts each clause into the store.
    pub fn append_all<C: ClauseStore>(
        &mut self,
        store: &mut C,
        clauses: &Clauses,
    ) -> Result<(), AllocError>
        requires store { C.stored store.old ≡ [] }
        requires numbering { self.old ≡ [] }
        ensures each { OnOk result (HasEach (C.stored store.new) self.new) }
        ensures clauses { OnOk result (clauses_of (C.stored store.new) self.new ≡ clauses.now) }
    {
        for at in 0..clauses.len() {
            let Some(clause) = clauses.get(at) else {
                unreachable!();
            };
            self.append(store, clause)?;
        }
        Ok(())
    }
}
