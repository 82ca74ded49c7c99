// Sets of literals that are quick to ask and to clear.
ghost use Rattle.std.specs.Prelude.{◌≡◌, ◌≤◌, vec_len, OnErr, OnOk, [], ◌∷◌};
ghost use Rattle.clause_form.specs.LitSet.{IsMarked, IsUnmarked, IsGrown};
ghost use Rattle.clause_form.specs.Literals.{has};

use crate::lit::Lit;
use std::alloc::{AllocError, Global};
use std::marker::Model;

/// A table of literals by their codes, beside the list of what was added, which clauses see with the newest first.
/// To ask takes the same time in every set, and to clear takes a step for each literal that was added.
#[derive(Drop)]
pub struct LitSet {
    table: Vec<bool>,
    lits: Vec<Lit>,
}

impl Model for LitSet {
    ghost use Rattle.std.specs.Prelude.{List, reverse};
    ghost use Rattle.clause_form.specs.declared.lit.Lit.{Lit};
    ghost use Rattle.clause_form.specs.LitSet.{IsTable};

    ghost Value = { List Lit };

    ghost view = { λ s. reverse s.lits.items };

    ghost invariant = { λ s. IsTable s.table.items (reverse s.lits.items) };
}

impl LitSet {
    pub fn new(alloc: Global) -> LitSet
        ensures { result ≡ [] }
    {
        LitSet {
            table: Vec::new(alloc),
            lits: Vec::new(alloc),
        }
    }

    pub fn has(&self, lit: Lit) -> bool
        ensures { result ≡ has self.now lit }
    {
        self.table.get(lit.0 as usize).copied().unwrap_or(false)
    }

    pub fn add(&mut self, lit: Lit) -> Result<(), AllocError>
        ensures ok { OnOk result (self.new ≡ lit ∷ self.old) }
        ensures err { OnErr result (self.new ≡ self.old) }
    {
        self.lits.reserve(1)?;
        mark(&mut self.table, lit)?;
        self.lits.push_reserved(lit);
        Ok(())
    }

    pub fn clear(&mut self)
        ensures { self.new ≡ [] }
    {
        while let Some(lit) = self.lits.pop() {
            unmark(&mut self.table, lit);
        }
    }
}

// Sets a literal's place, which is made where there is none.
fn mark(table: &mut Vec<bool>, lit: Lit) -> Result<(), AllocError>
    ensures ok { OnOk result (IsMarked table.old.items lit table.new.items) }
    ensures err { OnErr result (table.new.items ≡ table.old.items) }
{
    let at = lit.0 as usize;
    if table.len() <= at {
        grow(table, at)?;
    }
    table[at] = true;
    Ok(())
}

// Makes a place with this number.
fn grow(table: &mut Vec<bool>, at: usize) -> Result<(), AllocError>
    requires { vec_len table.old ≤ at }
    ensures ok { OnOk result (IsGrown table.old.items at table.new.items) }
    ensures err { OnErr result (table.new.items ≡ table.old.items) }
{
    let Some(len) = at.checked_add(1) else {
        return Err(AllocError);
    };
    table.resize(len, false)
}

// Clears a literal's place.
fn unmark(table: &mut Vec<bool>, lit: Lit)
    ensures { IsUnmarked table.old.items lit table.new.items }
{
    let at = lit.0 as usize;
    if at < table.len() {
        table[at] = false;
    }
}
