// All turns of a guarded program.
ghost use Rattle.std.specs.Prelude.{◌≡◌, ◌+◌, ◌≤◌, ◌^◌, IfOk, length};
ghost use Rattle.guard_prog.specs.Drafts.{program_of};
ghost use Rattle.guard_prog.specs.WellShaped.{IsWellShaped};
ghost use Rattle.turn_law.specs.Description.{Describes};
ghost use Rattle.turn_law.specs.Unrolled.{offers_from};
ghost use Rattle.turn_encoding.specs.Encodings.{encoding_of, HasShape};
ghost use Rattle.turn_encoding.specs.Grids.{HasColumns, HasFewer};
ghost use Rattle.turn_unroll.specs.Offers.{greatest_of};
ghost use Rattle.turn_unroll.specs.Unrolls.{IsUnrolled};
ghost use Rattle.turn_unroll.specs.Ways.{offers_of};

use crate::encoding::Encoding;
use crate::goal::{failure_with, goal_of, last_with};
use crate::grid::Grid;
use crate::offers::{Offered, all_offers, greatest_label};
use crate::rows::copy_row;
use crate::start::start;
use crate::turn::{State, Turned, turn};
use bit_circuit::circuit::Circuit;
use clause_form::clause::Clause;
use clause_form::lit::Lits;
use guard_prog::draft::Draft;
use guard_prog::guarded::Guarded;
use std::alloc::{AllocError, Global};

/// The turns so far.
#[derive(Drop)]
struct Unrolled {
    circuit: Circuit,
    state: State,
    failures: Lits,
    last: u64,
    depths: Grid,
    alternatives: Grid,
    inputs: Grid,
}

// Before the first turn.
fn begun(alloc: Global, draft: &Draft, count: u32) -> Result<Unrolled, AllocError>
    requires { IsWellShaped draft.now }
    ensures { IfOk result (λ u. IsUnrolled draft.now count 0 u) }
{
    let _ = count;
    let circuit = Circuit::new(alloc)?;
    let state = start(alloc, draft)?;
    let mut depths = Grid::new(alloc);
    depths.push(copy_row(alloc, &state.depth)?)?;
    Ok(Unrolled {
        circuit,
        state,
        failures: Lits::new(alloc),
        last: 1,
        depths,
        alternatives: Grid::new(alloc),
        inputs: Grid::new(alloc),
    })
}

// One more turn.
fn advanced(
    alloc: Global,
    unrolled: Unrolled,
    draft: &Draft,
    offers: &[Offered],
    count: u32,
    turns: u16,
) -> Result<Unrolled, AllocError>
    requires shaped { IsWellShaped draft.now }
    requires offers { offers_of offers.now ≡ offers_from 0 draft.now.points }
    requires count { count ≡ greatest_of (offers_of offers.now) }
    requires unrolled { IsUnrolled draft.now count turns unrolled }
    ensures { IfOk result (λ u. IsUnrolled draft.now count (turns + 1) u) }
{
    let _ = turns;
    let Unrolled {
        mut circuit,
        state: before,
        mut failures,
        last,
        mut depths,
        mut alternatives,
        mut inputs,
    } = unrolled;
    let turned = turn(alloc, &mut circuit, draft, offers, count, &before)?;
    let Turned {
        labels,
        word,
        failure,
        state,
    } = turned;
    failures.push(failure_with(last, failure))?;
    depths.push(copy_row(alloc, &state.depth)?)?;
    alternatives.push(labels)?;
    inputs.push(word)?;
    Ok(Unrolled {
        circuit,
        state,
        failures,
        last: last_with(last, failure),
        depths,
        alternatives,
        inputs,
    })
}

// The encoding of the turns.
fn encoded(unrolled: Unrolled, goal: Clause, turns: u16) -> Encoding
    requires labels { HasFewer (2 ^ 32) unrolled.alternatives }
    requires bits { HasColumns 32 unrolled.inputs }
    ensures encoding { encoding_of result ≡ record { formula = unrolled.circuit; goal = goal; depths = unrolled.depths; alternatives = unrolled.alternatives; inputs = unrolled.inputs } }
    ensures turns { result.turns ≡ turns }
{
    let Unrolled {
        circuit,
        state: _,
        failures: _,
        last: _,
        depths,
        alternatives,
        inputs,
    } = unrolled;
    Encoding {
        formula: circuit.into_formula(),
        goal,
        depths,
        alternatives,
        inputs,
        turns,
    }
}

/// The formula of the runs of at most so many turns, from 1 to 512: its assignments are exactly these runs, one for each.
/// An error is want of memory.
pub fn unroll(alloc: Global, program: &Guarded, turns: u16) -> Result<Encoding, AllocError>
    requires least { 1 ≤ turns }
    requires most { turns ≤ 512 }
    ensures describes { IfOk result (λ e. Describes (encoding_of e) (program_of program.now) turns) }
    ensures shape { IfOk result (λ e. HasShape (encoding_of e) program.now.depth (greatest_of (offers_from 0 program.now.points)) turns) }
    ensures turns { IfOk result (λ e. e.turns ≡ turns) }
{
    let draft = program.draft();
    let offers = all_offers(alloc, draft)?;
    let count = greatest_label(&offers);
    let mut unrolled = begun(alloc, draft, count)?;
    for t in 0..turns {
        unrolled = advanced(alloc, unrolled, draft, &offers, count, t)?;
    }
    let goal = goal_of(alloc, &unrolled.failures)?;
    Ok(encoded(unrolled, goal, turns))
}
