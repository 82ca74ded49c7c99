// Stores of clauses.
ghost use Rattle.std.specs.Prelude.{◌≡◌, ◌<◌, List, Some, length, IfOk, IfSome, IsSome, OnErr, OnOk, [], ◌∷◌, ◌++◌, slice_get};
ghost use Rattle.std.specs.Option.{option_copied};
ghost use Rattle.clause_form.specs.ClauseStore.{Stored, lits_at, AreBefore, swapped, without, IsCompacted, HasAt};

use crate::lit::Lit;
use std::alloc::{AllocError, Global};
use std::marker::Model;

/// A reference into a store of clauses.
#[derive(Clone, Copy, Debug, PartialEq, Eq)]
pub struct ClauseRef(pub u64);

/// Pairs of an old reference and the new one.
#[derive(Drop)]
pub struct Moves {
    items: Vec<(ClauseRef, ClauseRef)>,
}

impl Model for Moves {
    ghost use Rattle.std.specs.Prelude.{List};
    ghost use Rattle.clause_form.specs.declared.store.ClauseRef.{ClauseRef};

    ghost Value = { List (ClauseRef × ClauseRef) };

    ghost view = { λ a. a.items.items };
}

impl Moves {
    pub fn new(alloc: Global) -> Self
        ensures { result ≡ [] }
    {
        Moves {
            items: Vec::new(alloc),
        }
    }

    pub fn push(&mut self, item: (ClauseRef, ClauseRef)) -> Result<(), AllocError>
        ensures ok { OnOk result (self.new ≡ self.old ++ item ∷ []) }
        ensures err { OnErr result (self.new ≡ self.old) }
    {
        self.items.push(item)?;
        Ok(())
    }

    pub fn len(&self) -> usize
        ensures { result ≡ length self.now }
    {
        self.items.len()
    }

    pub fn get(&self, at: usize) -> Option<&(ClauseRef, ClauseRef)>
        ensures { option_copied result ≡ slice_get self.now at }
    {
        self.items.get(at)
    }
}

/// A store of clauses under references, which a `compact` changes.
pub trait ClauseStore {
    // the clauses in order of their references
    ghost stored: { Self → List Stored };

    /// Adds a clause under a new greatest reference.
    fn push(&mut self, lits: &[Lit]) -> Result<ClauseRef, AllocError>
        ensures greatest { IfOk result (λ at. AreBefore (stored self.old) at.0) }
        ensures ok { IfOk result (λ at. stored self.new ≡ stored self.old ++ record { at = at; lits = lits.now } ∷ []) }
        ensures err { OnErr result (stored self.new ≡ stored self.old) };

    /// Lends the literals of a clause.
    fn lits(&self, at: ClauseRef) -> &[Lit]
        requires { HasAt (stored self.now) at.0 }
        ensures { lits_at (stored self.now) at.0 ≡ Some result.now };

    /// Exchanges two literals of a clause.
    fn swap(&mut self, at: ClauseRef, i: usize, j: usize)
        requires at { HasAt (stored self.old) at.0 }
        requires i { IfSome (lits_at (stored self.old) at.0) (λ lits. i < length lits) }
        requires j { IfSome (lits_at (stored self.old) at.0) (λ lits. j < length lits) }
        ensures { stored self.new ≡ swapped (stored self.old) at.0 i j };

    /// Takes a clause out.
    fn remove(&mut self, at: ClauseRef)
        requires { HasAt (stored self.old) at.0 }
        ensures { stored self.new ≡ without (stored self.old) at.0 };

    /// Gives the clauses new references, and puts the old ones with the new ones in place of what the moves held.
    fn compact(&mut self, moves: &mut Moves) -> Result<(), AllocError>
        ensures ok { OnOk result (IsCompacted (stored self.old) (stored self.new) moves.new) }
        ensures store_kept { OnErr result (stored self.new ≡ stored self.old) }
        ensures moves_kept { OnErr result (moves.new ≡ moves.old) };
}
