// One turn.
ghost use Rattle.std.specs.Prelude.{◌≡◌, ◌<◌, IfOk, length};
ghost use Rattle.clause_form.specs.Literals.{AreOf, IsOf};
ghost use Rattle.guard_prog.specs.WellShaped.{IsWellShaped};
ghost use Rattle.turn_law.specs.Building.{HasTruth};
ghost use Rattle.turn_law.specs.Unrolled.{offers_from};
ghost use Rattle.turn_unroll.specs.Cells.{AreFit};
ghost use Rattle.turn_unroll.specs.Offers.{greatest_of};
ghost use Rattle.turn_unroll.specs.Places.{labels_below};
ghost use Rattle.turn_unroll.specs.Turns.{ChoosesBy, DemandsTurn, IsState, StatesBy, TurnsBy};
ghost use Rattle.turn_unroll.specs.Ways.{AreBelow, AreTaken, choices_of, offers_of};
ghost use Rattle.turn_unroll.specs.declared.ways.Side.TheVariants as side;

use crate::cells::next_cells;
use crate::demands::require_all;
use crate::guards::{label_places, ways_open, word_places};
use crate::labels::{demand_offered, see, with_other};
use crate::offers::Offered;
use crate::rows::free_row;
use crate::stack::{Moves, demand_room, moves_of, next_at, next_depth, next_slots};
use crate::ways::{Way, ways_taken};
use crate::words::demand_word;
use bit_circuit::bus::Buses;
use bit_circuit::circuit::Circuit;
use clause_form::lit::{Lists, Lit, Lits};
use guard_prog::draft::Draft;
use std::alloc::{AllocError, Global};

/// The literals of a symbolic state.
#[derive(Drop)]
pub(crate) struct State {
    pub(crate) at: Lits,
    pub(crate) depth: Lits,
    pub(crate) slots: Lists,
    pub(crate) cells: Buses,
}

/// The literals of a turn, and the state after it.
#[derive(Drop)]
pub(crate) struct Turned {
    pub(crate) labels: Lits,
    pub(crate) word: Lits,
    pub(crate) failure: Lit,
    pub(crate) state: State,
}

// The literals of the labels from label 0 on and of the word.
#[derive(Drop)]
struct Chosen {
    labels: Lits,
    word: Lits,
}

// The free literals of a turn, with the demand that one label is true.
fn choose(
    alloc: Global,
    circuit: &mut Circuit,
    demands: &mut Lits,
    opened: &[Way],
    count: u32,
) -> Result<Chosen, AllocError>
    requires truth { HasTruth circuit.old }
    requires labels { labels_below count (choices_of opened.now) }
    requires demands { AreOf circuit.old.variables demands.old }
    ensures { IfOk result (λ chosen. ChoosesBy circuit.old circuit.new demands.old demands.new opened.now count chosen) }
{
    let label_places = label_places(alloc, opened, count as usize)?;
    let word_places = word_places(alloc, opened)?;
    let labels = free_row(alloc, circuit, &label_places)?;
    let word = free_row(alloc, circuit, &word_places)?;
    let seen = see(circuit, demands, &labels)?;
    Ok(Chosen {
        labels: with_other(alloc, seen.negated(), &labels)?,
        word,
    })
}

// The literals of the state after a turn.
fn next_state(
    alloc: Global,
    circuit: &mut Circuit,
    draft: &Draft,
    before: &State,
    ways: &[Way],
    word: &Lits,
    moves: Moves,
) -> Result<State, AllocError>
    requires state { IsState draft.now circuit.old before.now }
    requires ways { AreTaken circuit.old.variables ways.now }
    requires fits { AreFit (length draft.now.points) draft.now.widths (choices_of ways.now) }
    requires word { AreOf circuit.old.variables word.now }
    requires bits { length word.now ≡ 32 }
    requires push { IsOf circuit.old.variables moves.push }
    requires pop { IsOf circuit.old.variables moves.pop }
    ensures { IfOk result (λ after. StatesBy draft.now circuit.old circuit.new before.now ways.now word.now moves after) }
{
    let points = draft.points.len();
    let cells = next_cells(
        alloc,
        circuit,
        &draft.widths,
        &before.cells,
        word,
        ways,
        points,
    )?;
    let at = next_at(
        alloc,
        circuit,
        ways,
        moves.pop,
        points,
        &before.depth,
        &before.slots,
    )?;
    let slots = next_slots(
        alloc,
        circuit,
        ways,
        moves.push,
        points,
        &before.depth,
        &before.slots,
    )?;
    let depth = next_depth(alloc, circuit, moves.push, moves.pop, &before.depth)?;
    Ok(State {
        at,
        depth,
        slots,
        cells,
    })
}

// What a turn demands of its labels, of its word and of the stack.
fn demand_turn(
    alloc: Global,
    circuit: &mut Circuit,
    demands: &mut Lits,
    depth: &Lits,
    most: usize,
    opened: &[Way],
    ways: &[Way],
    chosen: &Chosen,
) -> Result<Moves, AllocError>
    requires truth { HasTruth circuit.old }
    requires labels { AreOf circuit.old.variables chosen.now.labels }
    requires some { 0 < length chosen.now.labels }
    requires word { AreOf circuit.old.variables chosen.now.word }
    requires opened { AreTaken circuit.old.variables opened.now }
    requires ways { AreTaken circuit.old.variables ways.now }
    requires fits { AreBelow side.Label (length chosen.now.labels) (choices_of opened.now) }
    requires depth { AreOf circuit.old.variables depth.now }
    requires demands { AreOf circuit.old.variables demands.old }
    ensures { IfOk result (λ moves. DemandsTurn circuit.old circuit.new demands.old demands.new depth.now most opened.now ways.now chosen.now moves) }
{
    demand_offered(alloc, circuit, demands, opened, &chosen.labels)?;
    demand_word(circuit, demands, &chosen.word, ways)?;
    let moves = moves_of(circuit, ways)?;
    demand_room(circuit, demands, depth, most, ways, moves.push)?;
    Ok(moves)
}

// One more turn.
pub(crate) fn turn(
    alloc: Global,
    circuit: &mut Circuit,
    draft: &Draft,
    offers: &[Offered],
    count: u32,
    before: &State,
) -> Result<Turned, AllocError>
    requires shaped { IsWellShaped draft.now }
    requires offers { offers_of offers.now ≡ offers_from 0 draft.now.points }
    requires count { count ≡ greatest_of (offers_of offers.now) }
    requires state { IsState draft.now circuit.old before.now }
    ensures { IfOk result (λ t. TurnsBy draft.now circuit.old circuit.new before.now count t) }
{
    let points = draft.points.len();
    let mut demands = Lits::new(alloc);
    let opened = ways_open(
        alloc,
        circuit,
        offers,
        &before.at,
        &draft.widths,
        &before.cells,
        points,
    )?;
    let chosen = choose(alloc, circuit, &mut demands, &opened, count)?;
    let ways = ways_taken(alloc, circuit, &opened, &chosen.labels)?;
    let most = draft.depth as usize;
    let moves = demand_turn(
        alloc,
        circuit,
        &mut demands,
        &before.depth,
        most,
        &opened,
        &ways,
        &chosen,
    )?;
    let state = next_state(alloc, circuit, draft, before, &ways, &chosen.word, moves)?;
    require_all(circuit, &demands)?;
    let Chosen { labels, word } = chosen;
    Ok(Turned {
        labels,
        word,
        failure: moves.fail,
        state,
    })
}
