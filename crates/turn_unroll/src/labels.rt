// The labels of a turn: free literals, of which at most one is true.
ghost use Rattle.std.specs.Prelude.{◌≡◌, ◌∷◌, ◌-◌, ◌<◌, IfOk, OnOk, length};
ghost use Rattle.clause_form.specs.Literals.{AreOf, IsOf};
ghost use Rattle.turn_law.specs.Building.{HasTruth};
ghost use Rattle.turn_law.specs.Symbol.{nth};
ghost use Rattle.turn_unroll.specs.Demands.{Demands, SeesLabels, each_implied};
ghost use Rattle.turn_unroll.specs.Labels.{all_offered};
ghost use Rattle.turn_unroll.specs.Ways.{AreBelow, AreTaken, choices_of};
ghost use Rattle.turn_unroll.specs.declared.ways.Side.TheVariants as side;

use crate::demands::{demand_apart, demand_implied};
use crate::rows::{NO, place, place_in};
use crate::ways::{Side, Way, named_row};
use bit_circuit::circuit::Circuit;
use clause_form::lit::{Lit, Lits};
use std::alloc::{AllocError, Global};

// Whether one of the labels is true; it demands that no two are.
pub(crate) fn see(
    circuit: &mut Circuit,
    demands: &mut Lits,
    labels: &Lits,
) -> Result<Lit, AllocError>
    requires truth { HasTruth circuit.old }
    requires labels { AreOf circuit.old.variables labels.now }
    requires demands { AreOf circuit.old.variables demands.old }
    ensures { IfOk result (λ seen. SeesLabels circuit.old circuit.new demands.old demands.new labels.now seen) }
{
    let mut seen = NO;
    for i in 0..labels.len() {
        let label = place(labels, i);
        demand_apart(circuit, demands, seen, label)?;
        seen = circuit.or(seen, label)?;
    }
    Ok(seen)
}

// The literal of a label: that of label 0, or the one before its place.
fn label_place(other: Lit, labels: &Lits, i: usize) -> Lit
    ensures { result ≡ nth (other ∷ labels.now) i }
{
    if i == 0 { other } else { place(labels, i - 1) }
}

// The literals of all labels: first that of label 0, which is true where no other is.
pub(crate) fn with_other(alloc: Global, other: Lit, labels: &Lits) -> Result<Lits, AllocError>
    ensures { IfOk result (λ row. row ≡ other ∷ labels.now) }
{
    let mut row = Lits::new(alloc);
    row.push(other)?;
    for i in 0..labels.len() {
        row.push(label_place(other, labels, i + 1))?;
    }
    Ok(row)
}

// Demands that each literal from place 1 on implies the one at its place.
fn demand_each(
    circuit: &mut Circuit,
    demands: &mut Lits,
    labels: &Lits,
    offered: &[Lit],
) -> Result<(), AllocError>
    requires truth { HasTruth circuit.old }
    requires labels { AreOf circuit.old.variables labels.now }
    requires offered { AreOf circuit.old.variables offered.now }
    requires some { 0 < length offered.now }
    requires demands { AreOf circuit.old.variables demands.old }
    ensures { OnOk result (Demands circuit.old circuit.new demands.old demands.new (λ v. each_implied v labels.now offered.now 1 (length offered.now - 1))) }
{
    for i in 1..offered.len() {
        demand_implied(circuit, demands, place(labels, i), place_in(offered, i))?;
    }
    Ok(())
}

// Demands that an alternative is open that has the label that is true, if it isn't label 0.
pub(crate) fn demand_offered(
    alloc: Global,
    circuit: &mut Circuit,
    demands: &mut Lits,
    opened: &[Way],
    labels: &Lits,
) -> Result<(), AllocError>
    requires truth { HasTruth circuit.old }
    requires labels { AreOf circuit.old.variables labels.now }
    requires some { 0 < length labels.now }
    requires opened { AreTaken circuit.old.variables opened.now }
    requires fits { AreBelow side.Label (length labels.now) (choices_of opened.now) }
    requires demands { AreOf circuit.old.variables demands.old }
    ensures { OnOk result (Demands circuit.old circuit.new demands.old demands.new (λ v. all_offered v labels.now opened.now 1 (length labels.now - 1))) }
{
    let offered = named_row(alloc, circuit, Side::Label, opened, labels.len())?;
    demand_each(circuit, demands, labels, &offered)
}
