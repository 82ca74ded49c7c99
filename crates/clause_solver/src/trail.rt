// The trail: the literals that are set, in the order in which they were set.
//
// It keeps why each of them was set, and beside them the level of each by its code, so that
// one look tells whether a literal is true, and since which level. The level of a literal is the
// number of decisions that stood when it was set, a decision itself counted.
ghost use Rattle.std.specs.Prelude.{◌≡◌, ◌<◌, ◌≤◌, ◌^◌, length, false, None, vec_len, IfNone, IfSome, OnErr, OnOk, Some, [], ◌∷◌};
ghost use Rattle.clause_form.specs.Literals.{has};
ghost use Rattle.clause_solver.specs.LevelTable.{IsPut, IsWidened};
ghost use Rattle.clause_solver.specs.Trail.{decisions, is_newest, level_of, lits_of, up_to};

use clause_form::lit::Lit;
use std::alloc::{AllocError, Global};
use std::marker::Model;

// A literal that is set, with the number of the clause that left it alone; a decision has none.
#[derive(Clone, Copy)]
pub struct Entry {
    pub lit: Lit,
    pub reason: Option<u64>,
}

#[derive(Drop)]
pub struct Trail {
    entries: Vec<Entry>,
    levels: Vec<Option<u64>>,
    level: u64,
}

impl Model for Trail {
    ghost use Rattle.std.specs.Prelude.{List, reverse};
    ghost use Rattle.clause_solver.specs.declared.trail.Entry.{Entry};
    ghost use Rattle.clause_solver.specs.LevelTable.{IsIndexed};

    ghost Value = { List Entry };

    ghost view = { λ t. reverse t.entries.items };

    ghost invariant = { λ t. IsIndexed (reverse t.entries.items) t.levels.items t.level };
}

impl Trail {
    pub fn new(alloc: Global) -> Trail
        ensures { result ≡ [] }
    {
        Trail {
            entries: Vec::new(alloc),
            levels: Vec::new(alloc),
            level: 0,
        }
    }

    // The current level.
    pub fn level(&self) -> u64
        ensures { result ≡ decisions self.now }
    {
        self.level
    }

    // The level at which a literal was set.
    pub fn level_at(&self, lit: Lit) -> Option<u64>
        ensures { result ≡ level_of self.now lit }
    {
        self.levels.get(lit.0 as usize).copied().unwrap_or(None)
    }

    // Whether a literal is true.
    pub fn has(&self, lit: Lit) -> bool
        ensures { result ≡ has (lits_of self.now) lit }
    {
        self.level_at(lit).is_some()
    }

    // Whether a literal was set at the current level.
    pub fn is_newest(&self, lit: Lit) -> bool
        ensures answer { result ≡ is_newest self.now lit }
        ensures few { length self.now < 2 ^ 63 }
    {
        match self.level_at(lit) {
            Some(level) => level == self.level,
            None => false,
        }
    }

    // Sets a literal.
    pub fn push(&mut self, entry: Entry) -> Result<(), AllocError>
        requires { has (lits_of self.old) entry.lit ≡ false }
        ensures ok { OnOk result (self.new ≡ entry ∷ self.old) }
        ensures err { OnErr result (self.new ≡ self.old) }
    {
        let level = if entry.reason.is_none() {
            self.level + 1
        } else {
            self.level
        };
        self.entries.reserve(1)?;
        put(&mut self.levels, entry.lit, level)?;
        self.entries.push_reserved(entry);
        self.level = level;
        Ok(())
    }

    // Takes out the literal that was set last.
    pub fn pop(&mut self) -> Option<Entry>
        ensures none { IfNone result (self.old ≡ []) }
        ensures same { IfNone result (self.new ≡ []) }
        ensures some { IfSome result (λ entry. self.old ≡ entry ∷ self.new) }
    {
        let entry = self.entries.pop()?;
        take_out(&mut self.levels, entry.lit);
        if entry.reason.is_none() {
            self.level -= 1;
        }
        Some(entry)
    }

    // Takes out what was set above this level.
    pub fn back_to(&mut self, level: u64)
        ensures { self.new ≡ up_to level self.old }
    {
        while self.level() > level {
            let _ = self.pop();
        }
    }
}

// Puts the level of a literal into its place, where there may be none yet.
fn put(levels: &mut Vec<Option<u64>>, lit: Lit, level: u64) -> Result<(), AllocError>
    ensures ok { OnOk result (IsPut levels.old.items lit (Some level) levels.new.items) }
    ensures err { OnErr result (levels.new.items ≡ levels.old.items) }
{
    let at = lit.0 as usize;
    if levels.len() <= at {
        widen(levels, at)?;
    }
    levels[at] = Some(level);
    Ok(())
}

// Makes a place with this number.
fn widen(levels: &mut Vec<Option<u64>>, at: usize) -> Result<(), AllocError>
    requires { vec_len levels.old ≤ at }
    ensures ok { OnOk result (IsWidened levels.old.items at levels.new.items) }
    ensures err { OnErr result (levels.new.items ≡ levels.old.items) }
{
    let Some(len) = at.checked_add(1) else {
        return Err(AllocError);
    };
    levels.resize(len, None)
}

// Leaves the place of a literal without a level.
fn take_out(levels: &mut Vec<Option<u64>>, lit: Lit)
    ensures { IsPut levels.old.items lit None levels.new.items }
{
    let at = lit.0 as usize;
    if at < levels.len() {
        levels[at] = None;
    }
}
