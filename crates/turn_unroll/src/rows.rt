// Rows of literals.
ghost use Rattle.std.specs.Prelude.{◌≡◌, ◌<◌, IfOk, length, replicate};
ghost use Rattle.clause_form.specs.Literals.{AreOf, IsOf};
ghost use Rattle.turn_law.specs.Building.{HasTruth};
ghost use Rattle.turn_law.specs.Symbol.{no, nth};
ghost use Rattle.turn_unroll.specs.Rows.{GivesLit, GivesRow, IsFreePlace, IsFreeRow, before, row_chosen};

use bit_circuit::circuit::Circuit;
use clause_form::lit::{Lit, Lits};
use std::alloc::{AllocError, Global};

/// The literal that is false.
pub(crate) const NO: Lit = Lit(3);

// The literal at a place of a row, false outside it.
pub(crate) fn place(row: &Lits, i: usize) -> Lit
    ensures { result ≡ nth row.now i }
{
    match row.get(i) {
        Some(lit) => *lit,
        None => NO,
    }
}

// The literal before a place of a row, false before the first.
pub(crate) fn place_before(row: &Lits, i: usize) -> Lit
    ensures { result ≡ before row.now i }
{
    if i == 0 { NO } else { place(row, i - 1) }
}

// A new variable, or the literal that is false.
fn free_place(circuit: &mut Circuit, is_free: bool) -> Result<Lit, AllocError>
    requires { HasTruth circuit.old }
    ensures { IfOk result (λ l. IsFreePlace circuit.old circuit.new is_free l) }
{
    if is_free { circuit.input() } else { Ok(NO) }
}

// A row with new variables at the places that are marked.
pub(crate) fn free_row(
    alloc: Global,
    circuit: &mut Circuit,
    places: &[bool],
) -> Result<Lits, AllocError>
    requires { HasTruth circuit.old }
    ensures { IfOk result (λ row. IsFreeRow circuit.old circuit.new places.now row) }
{
    let mut row = Lits::new(alloc);
    for i in 0..places.len() {
        row.push(free_place(circuit, places[i])?)?;
    }
    Ok(row)
}

// A row of literals that are false.
pub(crate) fn dark_row(alloc: Global, len: usize) -> Result<Vec<Lit>, AllocError>
    ensures { IfOk result (λ row. row.items ≡ replicate len no) }
{
    Vec::from_elem(alloc, NO, len)
}

// The same of a list that can be set.
pub(crate) fn place_in(row: &[Lit], i: usize) -> Lit
    ensures { result ≡ nth row.now i }
{
    match row.get(i) {
        Some(lit) => *lit,
        None => NO,
    }
}

// The choice at one place.
fn choose_place(
    circuit: &mut Circuit,
    choice: Lit,
    kept: &Lits,
    new: &[Lit],
    i: usize,
) -> Result<Lit, AllocError>
    requires truth { HasTruth circuit.old }
    requires choice { IsOf circuit.old.variables choice }
    requires kept { AreOf circuit.old.variables kept.now }
    requires new { AreOf circuit.old.variables new.now }
    ensures { IfOk result (λ l. GivesLit circuit.old circuit.new l (λ v. row_chosen v choice kept.now new.now i)) }
{
    circuit.choose(choice, place_in(new, i), place(kept, i))
}

// At each place the second literal where the choice is true, and else the first.
pub(crate) fn choose_row(
    alloc: Global,
    circuit: &mut Circuit,
    choice: Lit,
    kept: &Lits,
    new: &[Lit],
) -> Result<Lits, AllocError>
    requires truth { HasTruth circuit.old }
    requires choice { IsOf circuit.old.variables choice }
    requires kept { AreOf circuit.old.variables kept.now }
    requires new { AreOf circuit.old.variables new.now }
    ensures { IfOk result (λ row. GivesRow circuit.old circuit.new row (length new.now) (λ v i. row_chosen v choice kept.now new.now i)) }
{
    let mut row = Lits::new(alloc);
    for i in 0..new.len() {
        row.push(choose_place(circuit, choice, kept, new, i)?)?;
    }
    Ok(row)
}

// An equal row.
pub(crate) fn copy_row(alloc: Global, row: &Lits) -> Result<Lits, AllocError>
    ensures { IfOk result (λ copy. copy ≡ row.now) }
{
    let mut copy = Lits::new(alloc);
    for i in 0..row.len() {
        copy.push(place(row, i))?;
    }
    Ok(copy)
}
