// What a turn demands of its word.
ghost use Rattle.std.specs.Prelude.{◌≡◌, ◌-◌, ◌≤◌, ◌<◌, ◌^◌, ◌&&◌, OnOk};
ghost use Rattle.clause_form.specs.ClauseTruth.{is_lit_true};
ghost use Rattle.clause_form.specs.Literals.{AreOf, IsOf};
ghost use Rattle.turn_law.specs.Building.{HasTruth};
ghost use Rattle.turn_unroll.specs.Demands.{Demands, all_imply};
ghost use Rattle.turn_unroll.specs.Ways.{AreTaken, any_way, wider};
ghost use Rattle.turn_unroll.specs.Words.{is_word_taken};

use crate::demands::demand_implied;
use crate::rows::place;
use crate::ways::{Test, Way, any_of};
use bit_circuit::circuit::Circuit;
use clause_form::lit::{Lit, Lits};
use std::alloc::AllocError;

// Demands that a literal is true where one of these bits is.
fn demand_bits(
    circuit: &mut Circuit,
    demands: &mut Lits,
    word: &Lits,
    from: usize,
    to: usize,
    wide: Lit,
) -> Result<(), AllocError>
    requires truth { HasTruth circuit.old }
    requires word { AreOf circuit.old.variables word.now }
    requires wide { IsOf circuit.old.variables wide }
    requires demands { AreOf circuit.old.variables demands.old }
    requires order { from ≤ to }
    ensures { OnOk result (Demands circuit.old circuit.new demands.old demands.new (λ v. all_imply v word.now (is_lit_true v wide) from (to - from))) }
{
    for i in from..to {
        demand_implied(circuit, demands, place(word, i), wide)?;
    }
    Ok(())
}

// Demands that an alternative is taken whose input has more than so many bits, where one of the bits from there on is true.
fn demand_width(
    circuit: &mut Circuit,
    demands: &mut Lits,
    word: &Lits,
    ways: &[Way],
    from: usize,
    to: usize,
) -> Result<(), AllocError>
    requires truth { HasTruth circuit.old }
    requires word { AreOf circuit.old.variables word.now }
    requires ways { AreTaken circuit.old.variables ways.now }
    requires demands { AreOf circuit.old.variables demands.old }
    requires order { from ≤ to }
    requires few { from < 2 ^ 32 }
    ensures { OnOk result (Demands circuit.old circuit.new demands.old demands.new (λ v. all_imply v word.now (any_way v (wider from) ways.now) from (to - from))) }
{
    let wide = any_of(circuit, ways, Test::Wider(from as u32))?;
    demand_bits(circuit, demands, word, from, to, wide)
}

// Demands that each bit that is true belongs to the input of an alternative that is taken.
pub(crate) fn demand_word(
    circuit: &mut Circuit,
    demands: &mut Lits,
    word: &Lits,
    ways: &[Way],
) -> Result<(), AllocError>
    requires truth { HasTruth circuit.old }
    requires word { AreOf circuit.old.variables word.now }
    requires ways { AreTaken circuit.old.variables ways.now }
    requires demands { AreOf circuit.old.variables demands.old }
    ensures { OnOk result (Demands circuit.old circuit.new demands.old demands.new (λ v. is_word_taken v word.now ways.now)) }
{
    demand_width(circuit, demands, word, ways, 0, 1)?;
    demand_width(circuit, demands, word, ways, 1, 8)?;
    demand_width(circuit, demands, word, ways, 8, 16)?;
    demand_width(circuit, demands, word, ways, 16, 32)
}
