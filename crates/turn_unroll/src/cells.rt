// The cells after a turn.
ghost use Rattle.std.specs.Prelude.{◌≡◌, ℕ, ◌&&◌, ◌*◌, ◌+◌, ◌%◌, ◌<◌, ◌≤◌, true, if◌then◌else◌, IfOk, OnOk, Some, length, slice_get};
ghost use Rattle.chk_base.specs.Term.{term_of};
ghost use Rattle.chk_base.specs.Widths.{limit_of};
ghost use Rattle.chk_base.specs.WordValue.{IsWithin};
ghost use Rattle.clause_form.specs.ClauseTruth.{Values, is_lit_true};
ghost use Rattle.clause_form.specs.Literals.{AreOf, IsOf};
ghost use Rattle.guard_prog.specs.Drafts.{plain_sets};
ghost use Rattle.guard_prog.specs.GuardedRun.{value_set};
ghost use Rattle.bit_circuit.specs.BusValue.{MakesBus, MakesEach, choice, number};
ghost use Rattle.bit_circuit.specs.Selection.{AreCells, AreInside};
ghost use Rattle.turn_law.specs.Building.{HasTruth};
ghost use Rattle.turn_law.specs.Sight.{set_of};
ghost use Rattle.turn_unroll.specs.Cells.{AreFit, AreSetsWithin, IsFit, SetsCells, cell_after_ways, cell_in, put_in, set_by, sets_in, term_in, width_in};
ghost use Rattle.turn_unroll.specs.Ways.{AreTaken, choice_of, choices_of};

use crate::rows::{NO, place};
use crate::ways::Way;
use bit_circuit::bus::{Bus, Buses};
use bit_circuit::circuit::Circuit;
use chk_base::expr::UnOp;
use chk_base::sets::Set;
use chk_base::word::{Width, Widths};
use clause_form::lit::{Lit, Lits};
use std::alloc::{AllocError, Global};

// The bus of a row of 32 literals, lowest first.
pub(crate) fn bus_of(row: &Lits) -> Bus
    requires { length row.now ≡ 32 }
    ensures { result.lits ≡ row.now }
{
    let mut lits = [NO; 32];
    for i in 0..32 {
        lits[i] = place(row, i);
    }
    Bus { lits }
}

// The lowest bit alone.
fn lowest(bus: Bus) -> Bus
    ensures number { (v : Values) → v 1 ≡ true → number v result.lits ≡ number v bus.lits % 2 }
    ensures inside { (n : ℕ) → 1 ≤ n → AreOf n bus.lits → AreOf n result.lits }
{
    let mut lits = [NO; 32];
    lits[0] = bus.lits[0];
    Bus { lits }
}

// The number modulo 2 to the width.
fn masked(circuit: &mut Circuit, bus: Bus, width: Width) -> Result<Bus, AllocError>
    requires truth { HasTruth circuit.old }
    requires bus { AreOf circuit.old.variables bus.lits }
    ensures { IfOk result (λ r. MakesBus circuit.old circuit.new r.lits (λ v. number v bus.lits % limit_of width) 65536) }
{
    match width {
        Width::W1 => Ok(lowest(bus)),
        Width::W8 => circuit.unary(UnOp::Low8, bus),
        Width::W16 => circuit.unary(UnOp::Low16, bus),
        Width::W32 => Ok(bus),
    }
}

// The second list where the literal is true, in the place of the first.
fn choose_into(circuit: &mut Circuit, c: Lit, lits: &mut [Lit], b: &[Lit]) -> Result<(), AllocError>
    requires same_length { length lits.old ≡ length b.now }
    requires c { IsOf circuit.old.variables c }
    requires lits { AreOf circuit.old.variables lits.old }
    requires b { AreOf circuit.old.variables b.now }
    ensures { IfOk result (λ _. MakesEach circuit.old circuit.new (choice c) lits.old lits.new b.now (length b.now) (1 * length b.now)) }
{
    for i in 0..b.len() {
        lits[i] = circuit.choose(c, b[i], lits[i])?;
    }
    Ok(())
}

// The first bus where the literal is true, and else the second.
fn choose_bus(circuit: &mut Circuit, c: Lit, a: Bus, b: Bus) -> Result<Bus, AllocError>
    requires c { IsOf circuit.old.variables c }
    requires a { AreOf circuit.old.variables a.lits }
    requires b { AreOf circuit.old.variables b.lits }
    ensures { IfOk result (λ r. MakesBus circuit.old circuit.new r.lits (λ v. if is_lit_true v c then number v a.lits else number v b.lits) 32) }
{
    let mut result = b;
    choose_into(circuit, c, &mut result.lits, &a.lits)?;
    Ok(result)
}

// Sets a cell to a number modulo 2 to the width where the literal is true.
fn put_cell(
    circuit: &mut Circuit,
    next: &mut [Bus],
    taken: Lit,
    cell: u16,
    value: Bus,
    width: Width,
) -> Result<(), AllocError>
    requires truth { HasTruth circuit.old }
    requires next { AreInside circuit.old.variables next.old }
    requires taken { IsOf circuit.old.variables taken }
    requires value { AreOf circuit.old.variables value.lits }
    requires cell { cell < length next.old }
    ensures { OnOk result (SetsCells circuit.old circuit.new next.old next.new (λ v. put_in v taken cell (number v value.lits % limit_of width) next.old)) }
{
    let rest = masked(circuit, value, width)?;
    next[cell as usize] = choose_bus(circuit, taken, rest, next[cell as usize])?;
    Ok(())
}

fn width_of(widths: &Widths, cell: u16) -> Width
    ensures { result ≡ width_in widths.now cell }
{
    match widths.get(cell as usize) {
        Some(width) => *width,
        None => Width::W32,
    }
}

// Sets a cell to the value of its expression.
fn put_set(
    circuit: &mut Circuit,
    next: &mut [Bus],
    widths: &Widths,
    cells: &Buses,
    taken: Lit,
    set: &Set,
) -> Result<(), AllocError>
    requires truth { HasTruth circuit.old }
    requires next { AreInside circuit.old.variables next.old }
    requires cells { AreCells circuit.old widths.now cells.now }
    requires taken { IsOf circuit.old.variables taken }
    requires cell { set.now.cell < length next.old }
    requires names { IsWithin (length cells.now) (term_of set.now.value) }
    ensures { OnOk result (SetsCells circuit.old circuit.new next.old next.new (λ v. put_in v taken set.now.cell (term_in v widths.now cells.now (term_of set.now.value) % limit_of (width_in widths.now set.now.cell)) next.old)) }
{
    let value = circuit.expr(&set.value, widths, cells)?;
    put_cell(
        circuit,
        next,
        taken,
        set.cell,
        value,
        width_of(widths, set.cell),
    )
}

// Sets the cells; each value is taken over the old cells.
fn put_sets(
    circuit: &mut Circuit,
    next: &mut [Bus],
    widths: &Widths,
    cells: &Buses,
    taken: Lit,
    sets: &[Set],
) -> Result<(), AllocError>
    requires truth { HasTruth circuit.old }
    requires next { AreInside circuit.old.variables next.old }
    requires count { length next.old ≡ length cells.now }
    requires cells { AreCells circuit.old widths.now cells.now }
    requires taken { IsOf circuit.old.variables taken }
    requires sets { AreSetsWithin (length cells.now) (plain_sets sets.now) }
    ensures { OnOk result (SetsCells circuit.old circuit.new next.old next.new (λ v q. sets_in v taken (value_set (width_in widths.now) (cell_in v cells.now) (plain_sets sets.now) q) (cell_in v next.old q))) }
{
    for i in (0..sets.len()).rev() {
        put_set(circuit, next, widths, cells, taken, &sets[i])?;
    }
    Ok(())
}

// Sets the cells, the first to the turn's word.
fn put_input(
    circuit: &mut Circuit,
    next: &mut [Bus],
    widths: &Widths,
    cells: &Buses,
    word: Bus,
    taken: Lit,
    sets: &[Set],
    input: Width,
) -> Result<(), AllocError>
    requires truth { HasTruth circuit.old }
    requires next { AreInside circuit.old.variables next.old }
    requires count { length next.old ≡ length cells.now }
    requires cells { AreCells circuit.old widths.now cells.now }
    requires taken { IsOf circuit.old.variables taken }
    requires word { AreOf circuit.old.variables word.lits }
    requires sets { AreSetsWithin (length cells.now) (plain_sets sets.now) }
    ensures { OnOk result (SetsCells circuit.old circuit.new next.old next.new (λ v q. sets_in v taken (set_of (width_in widths.now) (cell_in v cells.now) (number v word.lits) (Some input) (plain_sets sets.now) q) (cell_in v next.old q))) }
{
    if let Some((first, others)) = sets.split_first() {
        put_sets(circuit, next, widths, cells, taken, others)?;
        put_cell(circuit, next, taken, first.cell, word, input)?;
    }
    Ok(())
}

// Sets the cells that an alternative sets where it is taken.
fn put_alternative(
    circuit: &mut Circuit,
    next: &mut [Bus],
    widths: &Widths,
    cells: &Buses,
    word: Bus,
    way: Way,
) -> Result<(), AllocError>
    requires truth { HasTruth circuit.old }
    requires next { AreInside circuit.old.variables next.old }
    requires count { length next.old ≡ length cells.now }
    requires cells { AreCells circuit.old widths.now cells.now }
    requires word { AreOf circuit.old.variables word.lits }
    requires taken { IsOf circuit.old.variables way.taken }
    requires sets { AreSetsWithin (length cells.now) (choice_of way).sets }
    ensures { OnOk result (SetsCells circuit.old circuit.new next.old next.new (λ v q. sets_in v way.entry.taken (set_by v widths.now cells.now (number v word.lits) (choice_of way.entry) q) (cell_in v next.old q))) }
{
    if way.taken == NO {
        return Ok(());
    }
    let sets = way.alternative.sets.items();
    match way.alternative.input {
        None => put_sets(circuit, next, widths, cells, way.taken, sets),
        Some(input) => put_input(circuit, next, widths, cells, word, way.taken, sets, input),
    }
}

// Sets the cells that each alternative sets where it is taken.
fn put_all(
    circuit: &mut Circuit,
    next: &mut [Bus],
    widths: &Widths,
    cells: &Buses,
    word: Bus,
    ways: &[Way],
    points: usize,
) -> Result<(), AllocError>
    requires truth { HasTruth circuit.old }
    requires next { AreInside circuit.old.variables next.old }
    requires count { length next.old ≡ length cells.now }
    requires cells { AreCells circuit.old widths.now cells.now }
    requires word { AreOf circuit.old.variables word.lits }
    requires ways { AreTaken circuit.old.variables ways.now }
    requires fits { AreFit points widths.now (choices_of ways.now) }
    ensures { OnOk result (SetsCells circuit.old circuit.new next.old next.new (λ v q. cell_after_ways v widths.now cells.now (number v word.lits) ways.now q (cell_in v next.old q))) }
{
    let _ = points;
    for i in 0..ways.len() {
        put_alternative(circuit, next, widths, cells, word, ways[i])?;
    }
    Ok(())
}

fn buses_of(alloc: Global, items: &[Bus]) -> Result<Buses, AllocError>
    ensures { IfOk result (λ buses. buses ≡ items.now) }
{
    let mut buses = Buses::new(alloc);
    for i in 0..items.len() {
        buses.push(items[i])?;
    }
    Ok(buses)
}

// The cells after a turn.
pub(crate) fn next_cells(
    alloc: Global,
    circuit: &mut Circuit,
    widths: &Widths,
    cells: &Buses,
    word: &Lits,
    ways: &[Way],
    points: usize,
) -> Result<Buses, AllocError>
    requires truth { HasTruth circuit.old }
    requires cells { AreCells circuit.old widths.now cells.now }
    requires word { AreOf circuit.old.variables word.now }
    requires bits { length word.now ≡ 32 }
    requires ways { AreTaken circuit.old.variables ways.now }
    requires fits { AreFit points widths.now (choices_of ways.now) }
    ensures { IfOk result (λ next. SetsCells circuit.old circuit.new cells.now next (λ v q. cell_after_ways v widths.now cells.now (number v word.now) ways.now q (cell_in v cells.now q))) }
{
    let mut next = Vec::from_slice(alloc, cells.items())?;
    put_all(
        circuit,
        &mut next,
        widths,
        cells,
        bus_of(word),
        ways,
        points,
    )?;
    buses_of(alloc, &next)
}
