// A store over a plain list.
ghost use Rattle.std.specs.Prelude.{◌≡◌, ◌<◌, ◌++◌, ◌∷◌, [], None, Some, IfOk, IfSome, OnErr, OnOk, length, slice_get, slice_set, swap, true, is_some, vec_len};
ghost use Rattle.clause_form.specs.ListStore.{joined, moves_from, packed};

use crate::lit::{Lit, Lits};
use crate::store::{ClauseRef, ClauseStore, Moves};
use std::alloc::{AllocError, Global};
use std::marker::Model;

/// A plain list of clauses. A clause's reference is its place, and a clause that is removed leaves a gap until `compact`.
#[derive(Drop)]
pub struct ListStore {
    alloc: Global,
    entries: Vec<Option<Lits>>,
}

impl Model for ListStore {
    ghost use Rattle.std.specs.Prelude.{List};
    ghost use Rattle.clause_form.specs.ClauseStore.{Stored};
    ghost use Rattle.clause_form.specs.ListStore.{present};

    ghost Value = { List Stored };

    ghost view = { λ s. present 0 s.entries.items };
}

impl ListStore {
    pub fn new(alloc: Global) -> ListStore
        ensures { result ≡ [] }
    {
        ListStore {
            alloc,
            entries: Vec::new(alloc),
        }
    }
}

impl ClauseStore for ListStore {
    ghost stored = { λ s. s };

    fn push(&mut self, lits: &[Lit]) -> Result<ClauseRef, AllocError> {
        let at = ClauseRef(self.entries.len() as u64);
        self.entries
            .push(Some(Lits::from_slice(self.alloc, lits)?))?;
        Ok(at)
    }

    fn lits(&self, at: ClauseRef) -> &[Lit] {
        lits_in(self.entries.as_slice(), at.0 as usize)
    }

    fn swap(&mut self, at: ClauseRef, i: usize, j: usize) {
        swap_in(&mut self.entries, at.0 as usize, i, j);
    }

    fn remove(&mut self, at: ClauseRef) {
        remove_in(&mut self.entries, at.0 as usize);
    }

    fn compact(&mut self, moves: &mut Moves) -> Result<(), AllocError> {
        let found = all_moves(self.alloc, self.entries.as_slice())?;
        pack(&mut self.entries);
        *moves = found;
        Ok(())
    }
}

// The clause at a place.
fn lits_in(entries: &[Option<Lits>], at: usize) -> &[Lit]
    requires within { at < length entries.now }
    requires some { is_some (joined (slice_get entries.now at)) ≡ true }
    ensures { joined (slice_get entries.now at) ≡ Some result.now }
{
    match &entries[at] {
        Some(lits) => lits.as_slice(),
        None => unreachable!(),
    }
}

// Leaves a gap.
fn remove_in(entries: &mut Vec<Option<Lits>>, at: usize)
    requires { at < vec_len entries.old }
    ensures { entries.new.items ≡ slice_set entries.old.items at None }
{
    entries[at] = None;
}

// Exchanges two literals of the clause at a place.
fn swap_in(entries: &mut Vec<Option<Lits>>, at: usize, i: usize, j: usize)
    requires at { at < vec_len entries.old }
    requires i { IfSome (joined (slice_get entries.old.items at)) (λ c. i < length c) }
    requires j { IfSome (joined (slice_get entries.old.items at)) (λ c. j < length c) }
    ensures { IfSome (joined (slice_get entries.old.items at)) (λ c. entries.new.items ≡ slice_set entries.old.items at (Some (swap c i j))) }
{
    let entry = entries[at].take();
    if let Some(mut lits) = entry {
        lits.swap(i, j);
        entries[at] = Some(lits);
    }
}

// The places of the clauses with the numbers of the clauses.
fn all_moves(alloc: Global, entries: &[Option<Lits>]) -> Result<Moves, AllocError>
    ensures { IfOk result (λ moves. moves ≡ moves_from 0 0 entries.now) }
{
    let mut moves = Moves::new(alloc);
    let mut number: u64 = 0;
    for at in 0..entries.len() {
        if entries[at].is_some() {
            moves.push((ClauseRef(at as u64), ClauseRef(number)))?;
            number += 1;
        }
    }
    Ok(moves)
}

// Takes the gaps out.
fn pack(entries: &mut Vec<Option<Lits>>)
    ensures { entries.new.items ≡ packed entries.old.items }
{
    entries.retain(|entry| entry.is_some());
}
