// The alternatives that a turn may take, and what one of them does.
ghost use Rattle.std.specs.Prelude.{◌≡◌, ◌||◌, ◌<◌, IfOk, OnOk, length};
ghost use Rattle.clause_form.specs.Literals.{AreOf, IsOf};
ghost use Rattle.clause_form.specs.ClauseTruth.{is_lit_true};
ghost use Rattle.guard_prog.specs.Drafts.{plain_of};
ghost use Rattle.turn_law.specs.Building.{HasTruth};
ghost use Rattle.turn_unroll.specs.Rows.{GivesLit};
ghost use Rattle.turn_unroll.specs.Ways.{AreBelow, AreTaken, GathersRow, GivesNamed, GrowsRow, IsBelow, TakesWays, any_way, choice_of, choices_of, does, holds_of, target_of};

use crate::offers::{Offered, input_bits};
use crate::rows::{NO, dark_row, place};
use bit_circuit::circuit::Circuit;
use clause_form::lit::{Lit, Lits};
use guard_prog::draft::{Alternative, Control};
use std::alloc::{AllocError, Global};

/// An alternative with the literal that it is taken.
#[derive(Clone, Copy)]
pub(crate) struct Way<'a> {
    pub(crate) taken: Lit,
    pub(crate) alternative: &'a Alternative,
}

/// A property of an alternative; the last is that it takes an input of more bits.
#[derive(Clone, Copy)]
pub(crate) enum Test {
    Pushes,
    Pops,
    Ends,
    Fails,
    Wider(u32),
}

/// A number that an alternative names: the point that is the top after it, the point that it leaves below, or its label.
#[derive(Clone, Copy)]
pub(crate) enum Side {
    Top,
    Below,
    Label,
}

// Each alternative with the literal that its point is the top and its label the turn's.
pub(crate) fn ways_taken<'a>(
    alloc: Global,
    circuit: &mut Circuit,
    opened: &[Way<'a>],
    labels: &Lits,
) -> Result<Vec<Way<'a>>, AllocError>
    requires truth { HasTruth circuit.old }
    requires labels { AreOf circuit.old.variables labels.now }
    requires opened { AreTaken circuit.old.variables opened.now }
    ensures { IfOk result (λ ways. TakesWays circuit.old circuit.new labels.now opened.now ways.items) }
{
    let mut ways = Vec::new(alloc);
    for i in 0..opened.len() {
        let way = opened[i];
        let taken = circuit.and(way.taken, place(labels, way.alternative.label as usize))?;
        ways.push(Way {
            taken,
            alternative: way.alternative,
        })?;
    }
    Ok(ways)
}

fn holds(test: Test, alternative: &Alternative) -> bool
    ensures { result ≡ holds_of test (plain_of alternative.now) }
{
    match test {
        Test::Pushes => matches!(alternative.control, Control::Push { .. }),
        Test::Pops => matches!(alternative.control, Control::Pop),
        Test::Ends => matches!(alternative.control, Control::Pop | Control::PopPush(_)),
        Test::Fails => matches!(alternative.control, Control::Fail),
        Test::Wider(bits) => bits < input_bits(alternative.input),
    }
}

fn target(side: Side, alternative: &Alternative) -> Option<u32>
    ensures { result ≡ target_of side (plain_of alternative.now) }
{
    match (side, alternative.control) {
        (Side::Label, _) => Some(alternative.label),
        (Side::Top, Control::Goto(q)) => Some(q as u32),
        (Side::Top, Control::Push { start, .. }) => Some(start as u32),
        (Side::Top, Control::PopPush(q)) => Some(q as u32),
        (Side::Below, Control::Push { below, .. }) => Some(below as u32),
        _ => None,
    }
}

// The first literal, or that the alternative is taken and has the property.
fn or_where(circuit: &mut Circuit, some: Lit, way: Way, test: Test) -> Result<Lit, AllocError>
    requires some { IsOf circuit.old.variables some }
    requires taken { IsOf circuit.old.variables way.taken }
    ensures { IfOk result (λ r. GivesLit circuit.old circuit.new r (λ v. is_lit_true v some || does v (holds_of test) way.entry)) }
{
    if holds(test, way.alternative) {
        circuit.or(some, way.taken)
    } else {
        Ok(some)
    }
}

// Whether one that is taken has the property.
pub(crate) fn any_of(circuit: &mut Circuit, ways: &[Way], test: Test) -> Result<Lit, AllocError>
    requires truth { HasTruth circuit.old }
    requires ways { AreTaken circuit.old.variables ways.now }
    ensures { IfOk result (λ r. GivesLit circuit.old circuit.new r (λ v. any_way v (holds_of test) ways.now)) }
{
    let mut some = NO;
    for i in 0..ways.len() {
        some = or_where(circuit, some, ways[i], test)?;
    }
    Ok(some)
}

// Puts an alternative to the number that it names.
fn put_way(circuit: &mut Circuit, row: &mut [Lit], side: Side, way: Way) -> Result<(), AllocError>
    requires row { AreOf circuit.old.variables row.old }
    requires taken { IsOf circuit.old.variables way.taken }
    requires fits { IsBelow (target_of side (choice_of way)) (length row.old) }
    ensures { OnOk result (GrowsRow circuit.old circuit.new side way.entry row.old row.new) }
{
    if let Some(q) = target(side, way.alternative) {
        row[q as usize] = circuit.or(row[q as usize], way.taken)?;
    }
    Ok(())
}

// Puts each alternative to the number that it names.
fn put_ways(
    circuit: &mut Circuit,
    row: &mut [Lit],
    side: Side,
    ways: &[Way],
) -> Result<(), AllocError>
    requires row { AreOf circuit.old.variables row.old }
    requires taken { AreTaken circuit.old.variables ways.now }
    requires fits { AreBelow side (length row.old) (choices_of ways.now) }
    ensures { OnOk result (GathersRow circuit.old circuit.new side ways.now row.old row.new) }
{
    for i in 0..ways.len() {
        put_way(circuit, row, side, ways[i])?;
    }
    Ok(())
}

// A row of literals of the numbers below a count, each of which is true where an alternative is taken that names it.
pub(crate) fn named_row(
    alloc: Global,
    circuit: &mut Circuit,
    side: Side,
    ways: &[Way],
    count: usize,
) -> Result<Vec<Lit>, AllocError>
    requires truth { HasTruth circuit.old }
    requires taken { AreTaken circuit.old.variables ways.now }
    requires fits { AreBelow side count (choices_of ways.now) }
    ensures { IfOk result (λ row. GivesNamed circuit.old circuit.new side ways.now count row.items) }
{
    let mut row = dark_row(alloc, count)?;
    put_ways(circuit, &mut row, side, ways)?;
    Ok(row)
}
