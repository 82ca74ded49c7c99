// Encodings of guarded programs.
ghost use Rattle.std.specs.Prelude.{◌^◌};
ghost use Rattle.turn_encoding.specs.Grids.{HasColumns, HasFewer};

use crate::grid::Grid;
use clause_form::clause::Clause;
use clause_form::formula::Formula;

/// The formula of the turns of a guarded program. Row T of `depths` speaks of the stack after T turns, and its column D is the literal of D
/// points above the bottom. Row T - 1 of `alternatives` and of `inputs` is turn T; the columns are the labels from 0 to the greatest
/// label of the program, of which label 0 is the padding, and the 32 bits of the turn's word, lowest first. `goal` has the failure
/// literal of every turn, which is true where that turn fails. It isn't among the clauses of `formula`.
#[derive(Drop)]
pub struct Encoding {
    pub formula: Formula,
    pub goal: Clause,
    pub depths: Grid,
    pub alternatives: Grid,
    pub inputs: Grid,
    pub turns: u16,
    pub ghost labels: { HasFewer (2 ^ 32) alternatives },
    pub ghost bits: { HasColumns 32 inputs },
}
