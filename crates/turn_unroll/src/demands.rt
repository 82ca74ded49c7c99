// Literals that a turn demands.
ghost use Rattle.std.specs.Prelude.{◌≡◌, IfOk, OnOk};
ghost use Rattle.clause_form.specs.Literals.{AreOf, IsOf};
ghost use Rattle.bit_circuit.specs.Extension.{with_clauses};
ghost use Rattle.turn_law.specs.Building.{HasTruth, units};
ghost use Rattle.turn_unroll.specs.Demands.{Demands, IsDemanded, apart, implied};

use crate::rows::place;
use bit_circuit::circuit::Circuit;
use clause_form::lit::{Lit, Lits};
use std::alloc::AllocError;

// One more literal that is demanded; the one that is true is demanded anyway.
fn demand(demands: &mut Lits, lit: Lit) -> Result<(), AllocError>
    ensures { OnOk result (IsDemanded demands.old demands.new lit) }
{
    if lit == Lit(2) {
        Ok(())
    } else {
        demands.push(lit)
    }
}

// Demands that a literal implies another.
pub(crate) fn demand_implied(
    circuit: &mut Circuit,
    demands: &mut Lits,
    a: Lit,
    b: Lit,
) -> Result<(), AllocError>
    requires truth { HasTruth circuit.old }
    requires a { IsOf circuit.old.variables a }
    requires b { IsOf circuit.old.variables b }
    requires demands { AreOf circuit.old.variables demands.old }
    ensures { OnOk result (Demands circuit.old circuit.new demands.old demands.new (implied a b)) }
{
    let implied = circuit.or(a.negated(), b)?;
    demand(demands, implied)
}

// Demands that not both literals are true.
pub(crate) fn demand_apart(
    circuit: &mut Circuit,
    demands: &mut Lits,
    a: Lit,
    b: Lit,
) -> Result<(), AllocError>
    requires truth { HasTruth circuit.old }
    requires a { IsOf circuit.old.variables a }
    requires b { IsOf circuit.old.variables b }
    requires demands { AreOf circuit.old.variables demands.old }
    ensures { OnOk result (Demands circuit.old circuit.new demands.old demands.new (apart a b)) }
{
    let clash = circuit.and(a, b)?;
    demand(demands, clash.negated())
}

// Adds the demands to the clauses.
pub(crate) fn require_all(circuit: &mut Circuit, demands: &Lits) -> Result<(), AllocError>
    requires { AreOf circuit.old.variables demands.now }
    ensures { OnOk result (circuit.new ≡ with_clauses circuit.old (units demands.now)) }
{
    for i in 0..demands.len() {
        circuit.require(place(demands, i))?;
    }
    Ok(())
}
