// The symbolic state at the start.
ghost use Rattle.std.specs.Prelude.{◌≡◌, ◌<◌, ◌==◌, IfOk, length, get_or};
ghost use Rattle.guard_prog.specs.WellShaped.{IsWellShaped};
ghost use Rattle.bit_circuit.specs.BusValue.{number};
ghost use Rattle.clause_form.specs.ClauseTruth.{Values};
ghost use Rattle.turn_unroll.specs.Starts.{AreConstants, AreRowsAt, IsConstantBus, IsKnown, IsRowAt, IsStartOf};

use crate::rows::NO;
use crate::turn::State;
use bit_circuit::bus::{Bus, Buses};
use clause_form::lit::{Lists, Lit, Lits};
use guard_prog::draft::Draft;
use std::alloc::{AllocError, Global};

// The literal of a truth value.
fn known(value: bool) -> Lit
    ensures { IsKnown value result }
{
    if value { Lit(2) } else { NO }
}

// A row of which the literal at one place alone is true.
fn row_at(alloc: Global, len: usize, at: usize) -> Result<Lits, AllocError>
    ensures { IfOk result (λ row. IsRowAt len at row) }
{
    let mut row = Lits::new(alloc);
    for i in 0..len {
        row.push(known(i == at))?;
    }
    Ok(row)
}

// The point at a depth, and the number of points where there is none; the stack has the bottom first.
fn point_at(first: &[u16], d: usize, points: usize) -> usize
    ensures { result ≡ get_or first.now d points }
{
    match first.get(d) {
        Some(point) => *point as usize,
        None => points,
    }
}

// The points at each depth.
fn start_slots(
    alloc: Global,
    first: &[u16],
    points: usize,
    most: usize,
) -> Result<Lists, AllocError>
    ensures { IfOk result (λ rows. AreRowsAt first.now points most rows) }
{
    let mut rows = Lists::new(alloc);
    for d in 0..most {
        rows.push(row_at(alloc, points, point_at(first, d, points))?)?;
    }
    Ok(rows)
}

// The bus of a number.
fn constant(number: u32) -> Bus
    ensures { IsConstantBus number result.lits }
{
    let mut lits = [NO; 32];
    let mut rest = number;
    for i in 0..32 {
        lits[i] = known(rest % 2 == 1);
        rest /= 2;
    }
    Bus { lits }
}

fn start_cells(alloc: Global, starts: &[u32]) -> Result<Buses, AllocError>
    ensures { IfOk result (λ cells. AreConstants starts.now cells) }
{
    let mut cells = Buses::new(alloc);
    for q in 0..starts.len() {
        cells.push(constant(starts[q]))?;
    }
    Ok(cells)
}

// The symbolic state that shows the start under every assignment.
pub(crate) fn start(alloc: Global, draft: &Draft) -> Result<State, AllocError>
    requires { IsWellShaped draft.now }
    ensures { IfOk result (λ state. IsStartOf draft.now state) }
{
    let first = draft.first.items();
    let points = draft.points.len();
    let most = draft.depth as usize;
    let above = first.len() - 1;
    Ok(State {
        at: row_at(alloc, points, point_at(first, above, points))?,
        depth: row_at(alloc, most + 1, above)?,
        slots: start_slots(alloc, first, points, most)?,
        cells: start_cells(alloc, draft.starts.items())?,
    })
}
