// The stack after a turn.
ghost use Rattle.std.specs.Prelude.{◌≡◌, ◌&&◌, ◌||◌, ◌+◌, ◌<◌, [], if◌then◌else◌, IfOk, OnOk, length, get_or};
ghost use Rattle.std.specs.Option.{option_copied};
ghost use Rattle.clause_form.specs.ClauseTruth.{is_lit_true};
ghost use Rattle.clause_form.specs.Literals.{AreOf, IsOf};
ghost use Rattle.turn_law.specs.Building.{HasTruth};
ghost use Rattle.turn_law.specs.Description.{AreRowsWithin};
ghost use Rattle.turn_law.specs.Symbol.{nth, row_true};
ghost use Rattle.turn_unroll.specs.Demands.{Demands};
ghost use Rattle.turn_unroll.specs.Rows.{GivesLit, GivesRow, GivesSlots, before, depth_made, found_below, row_chosen};
ghost use Rattle.turn_unroll.specs.Stack.{MovesBy, SlotsBy, TopsBy, has_room};
ghost use Rattle.turn_unroll.specs.Ways.{AreBelow, AreTaken, choices_of};
ghost use Rattle.turn_unroll.specs.declared.ways.Side.TheVariants as side;

use crate::demands::demand_apart;
use crate::rows::{NO, choose_row, place, place_before, place_in};
use crate::ways::{Side, Test, Way, any_of, named_row};
use bit_circuit::circuit::Circuit;
use clause_form::lit::{Lists, Lit, Lits};
use std::alloc::{AllocError, Global};

/// What a turn does to the stack: whether it pushes a point, takes the top away, or fails.
#[derive(Clone, Copy)]
pub(crate) struct Moves {
    pub(crate) push: Lit,
    pub(crate) pop: Lit,
    pub(crate) fail: Lit,
}

pub(crate) fn moves_of(circuit: &mut Circuit, ways: &[Way]) -> Result<Moves, AllocError>
    requires truth { HasTruth circuit.old }
    requires ways { AreTaken circuit.old.variables ways.now }
    ensures { IfOk result (λ moves. MovesBy circuit.old circuit.new ways.now moves) }
{
    let push = any_of(circuit, ways, Test::Pushes)?;
    let pop = any_of(circuit, ways, Test::Pops)?;
    let fail = any_of(circuit, ways, Test::Fails)?;
    Ok(Moves { push, pop, fail })
}

// Demands that there is room for a push, and that the bottom stays.
pub(crate) fn demand_room(
    circuit: &mut Circuit,
    demands: &mut Lits,
    depth: &Lits,
    most: usize,
    ways: &[Way],
    push: Lit,
) -> Result<(), AllocError>
    requires truth { HasTruth circuit.old }
    requires depth { AreOf circuit.old.variables depth.now }
    requires ways { AreTaken circuit.old.variables ways.now }
    requires push { IsOf circuit.old.variables push }
    requires demands { AreOf circuit.old.variables demands.old }
    ensures { OnOk result (Demands circuit.old circuit.new demands.old demands.new (λ v. has_room v depth.now most ways.now push)) }
{
    let end = any_of(circuit, ways, Test::Ends)?;
    demand_apart(circuit, demands, push, place(depth, most))?;
    demand_apart(circuit, demands, end, place(depth, 0))
}

// The literal of one depth after a turn, from those of one less, of the same and of one more before it.
fn depth_step(
    circuit: &mut Circuit,
    push: Lit,
    pop: Lit,
    less: Lit,
    same: Lit,
    more: Lit,
) -> Result<Lit, AllocError>
    requires push { IsOf circuit.old.variables push }
    requires pop { IsOf circuit.old.variables pop }
    requires less { IsOf circuit.old.variables less }
    requires same { IsOf circuit.old.variables same }
    requires more { IsOf circuit.old.variables more }
    ensures { IfOk result (λ l. GivesLit circuit.old circuit.new l (λ v. if is_lit_true v push then is_lit_true v less else (if is_lit_true v pop then is_lit_true v more else is_lit_true v same))) }
{
    let kept = circuit.choose(pop, more, same)?;
    circuit.choose(push, less, kept)
}

// The literals of the depth after a turn: one more after a push, one less after a pop.
pub(crate) fn next_depth(
    alloc: Global,
    circuit: &mut Circuit,
    push: Lit,
    pop: Lit,
    depth: &Lits,
) -> Result<Lits, AllocError>
    requires truth { HasTruth circuit.old }
    requires push { IsOf circuit.old.variables push }
    requires pop { IsOf circuit.old.variables pop }
    requires depth { AreOf circuit.old.variables depth.now }
    ensures { IfOk result (λ row. GivesRow circuit.old circuit.new row (length depth.now) (λ v d. depth_made v push pop depth.now d)) }
{
    let mut row = Lits::new(alloc);
    for d in 0..depth.len() {
        let less = place_before(depth, d);
        let same = place(depth, d);
        let more = place(depth, d + 1);
        row.push(depth_step(circuit, push, pop, less, same, more)?)?;
    }
    Ok(row)
}

// The literal of a point at a depth, false where there is no such row.
fn slot_place(slots: &Lists, d: usize, i: usize) -> Lit
    ensures { result ≡ nth (get_or slots.now d []) i }
{
    match slots.get(d) {
        Some(row) => place(row, i),
        None => NO,
    }
}

// Where the turn pops: the literal of each depth from 1 on.
fn popping(
    alloc: Global,
    circuit: &mut Circuit,
    pop: Lit,
    depth: &Lits,
    most: usize,
) -> Result<Vec<Lit>, AllocError>
    requires truth { HasTruth circuit.old }
    requires pop { IsOf circuit.old.variables pop }
    requires depth { AreOf circuit.old.variables depth.now }
    ensures { IfOk result (λ row. GivesRow circuit.old circuit.new row.items most (λ v d. is_lit_true v pop && row_true v depth.now (d + 1))) }
{
    let mut row = Vec::new(alloc);
    for d in 0..most {
        row.push(circuit.and(pop, place(depth, d + 1))?)?;
    }
    Ok(row)
}

// Whether the turn pops and this point is the one below the top.
fn popped_at(
    circuit: &mut Circuit,
    from: &[Lit],
    slots: &Lists,
    i: usize,
) -> Result<Lit, AllocError>
    requires truth { HasTruth circuit.old }
    requires from { AreOf circuit.old.variables from.now }
    requires slots { AreRowsWithin circuit.old.variables slots.now }
    ensures { IfOk result (λ l. GivesLit circuit.old circuit.new l (λ v. found_below v from.now slots.now i (length from.now))) }
{
    let mut some = NO;
    for d in 0..from.len() {
        let here = circuit.and(place_in(from, d), slot_place(slots, d, i))?;
        some = circuit.or(some, here)?;
    }
    Ok(some)
}

// At each place that the first literal is true, or that the point is the one below the top.
fn or_popped(
    alloc: Global,
    circuit: &mut Circuit,
    lead: &[Lit],
    from: &[Lit],
    slots: &Lists,
) -> Result<Lits, AllocError>
    requires truth { HasTruth circuit.old }
    requires lead { AreOf circuit.old.variables lead.now }
    requires from { AreOf circuit.old.variables from.now }
    requires slots { AreRowsWithin circuit.old.variables slots.now }
    ensures { IfOk result (λ row. GivesRow circuit.old circuit.new row (length lead.now) (λ v i. row_true v lead.now i || found_below v from.now slots.now i (length from.now))) }
{
    let mut row = Lits::new(alloc);
    for i in 0..lead.len() {
        let popped = popped_at(circuit, from, slots, i)?;
        row.push(circuit.or(place_in(lead, i), popped)?)?;
    }
    Ok(row)
}

// The literals of the top after a turn: the point that it leads to, or that below the top.
pub(crate) fn next_at(
    alloc: Global,
    circuit: &mut Circuit,
    ways: &[Way],
    pop: Lit,
    points: usize,
    depth: &Lits,
    slots: &Lists,
) -> Result<Lits, AllocError>
    requires truth { HasTruth circuit.old }
    requires ways { AreTaken circuit.old.variables ways.now }
    requires fits { AreBelow side.Top points (choices_of ways.now) }
    requires pop { IsOf circuit.old.variables pop }
    requires depth { AreOf circuit.old.variables depth.now }
    requires slots { AreRowsWithin circuit.old.variables slots.now }
    ensures { IfOk result (λ row. TopsBy circuit.old circuit.new ways.now pop depth.now slots.now points row) }
{
    let lead = named_row(alloc, circuit, Side::Top, ways, points)?;
    let from = popping(alloc, circuit, pop, depth, slots.len())?;
    or_popped(alloc, circuit, &lead, &from, slots)
}

// The points at one depth after a turn.
fn slot_after(
    alloc: Global,
    circuit: &mut Circuit,
    chosen: Lit,
    slots: &Lists,
    leave: &[Lit],
    d: usize,
) -> Result<Lits, AllocError>
    requires truth { HasTruth circuit.old }
    requires chosen { IsOf circuit.old.variables chosen }
    requires slots { AreRowsWithin circuit.old.variables slots.now }
    requires leave { AreOf circuit.old.variables leave.now }
    requires d { d < length slots.now }
    ensures { IfOk result (λ row. GivesRow circuit.old circuit.new row (length leave.now) (λ v i. row_chosen v chosen (get_or slots.now d []) leave.now i)) }
{
    match slots.get(d) {
        Some(kept) => choose_row(alloc, circuit, chosen, kept, leave),
        None => unreachable!(),
    }
}

// The points at each depth after a turn, with those that a push leaves.
fn put_left(
    alloc: Global,
    circuit: &mut Circuit,
    push: Lit,
    depth: &Lits,
    slots: &Lists,
    leave: &[Lit],
) -> Result<Lists, AllocError>
    requires truth { HasTruth circuit.old }
    requires push { IsOf circuit.old.variables push }
    requires depth { AreOf circuit.old.variables depth.now }
    requires slots { AreRowsWithin circuit.old.variables slots.now }
    requires leave { AreOf circuit.old.variables leave.now }
    ensures { IfOk result (λ rows. GivesSlots circuit.old circuit.new push depth.now leave.now slots.now rows (length slots.now)) }
{
    let mut rows = Lists::new(alloc);
    for d in 0..slots.len() {
        let chosen = circuit.and(push, place(depth, d))?;
        rows.push(slot_after(alloc, circuit, chosen, slots, leave, d)?)?;
    }
    Ok(rows)
}

// The points at each depth after a turn: a push leaves one at the depth that was.
pub(crate) fn next_slots(
    alloc: Global,
    circuit: &mut Circuit,
    ways: &[Way],
    push: Lit,
    points: usize,
    depth: &Lits,
    slots: &Lists,
) -> Result<Lists, AllocError>
    requires truth { HasTruth circuit.old }
    requires ways { AreTaken circuit.old.variables ways.now }
    requires fits { AreBelow side.Below points (choices_of ways.now) }
    requires push { IsOf circuit.old.variables push }
    requires depth { AreOf circuit.old.variables depth.now }
    requires slots { AreRowsWithin circuit.old.variables slots.now }
    ensures { IfOk result (λ rows. SlotsBy circuit.old circuit.new ways.now push depth.now slots.now points rows) }
{
    let leave = named_row(alloc, circuit, Side::Below, ways, points)?;
    put_left(alloc, circuit, push, depth, slots, &leave)
}
