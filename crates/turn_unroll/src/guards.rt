// The alternatives of a turn that are open: their point is the top, and their guard isn't 0.
ghost use Rattle.std.specs.Prelude.{◌≡◌, ◌&&◌, ◌-◌, ◌<◌, ◌≤◌, ◌==◌, true, if◌then◌else◌, IfOk, length, max, slice_set};
ghost use Rattle.chk_base.specs.Operators.{truth};
ghost use Rattle.chk_base.specs.Term.{term_of};
ghost use Rattle.chk_base.specs.WordValue.{IsWithin};
ghost use Rattle.clause_form.specs.ClauseTruth.{is_lit_true};
ghost use Rattle.clause_form.specs.Literals.{AreOf, IsOf};
ghost use Rattle.bit_circuit.specs.BusValue.{number};
ghost use Rattle.bit_circuit.specs.Selection.{AreCells};
ghost use Rattle.turn_law.specs.Building.{HasTruth};
ghost use Rattle.turn_unroll.specs.Cells.{AreFit, is_open_in, term_in};
ghost use Rattle.turn_unroll.specs.Places.{AreMarked, IsMarkedWord, bits_below, labels_below};
ghost use Rattle.turn_unroll.specs.Rows.{GivesLit};
ghost use Rattle.turn_unroll.specs.Ways.{OpensWays, choice_of, choices_of, input_bits, offered_choices, offers_of};

use crate::offers::{Offered, input_bits};
use crate::rows::{NO, place};
use crate::ways::Way;
use bit_circuit::bus::{Bus, Buses};
use bit_circuit::circuit::Circuit;
use chk_base::expr::{Expr, UnOp};
use chk_base::word::Widths;
use clause_form::lit::{Lit, Lits};
use std::alloc::{AllocError, Global};

// Whether the number of a bus isn't 0.
fn is_nonzero(circuit: &mut Circuit, bus: Bus) -> Result<Lit, AllocError>
    requires { AreOf circuit.old.variables bus.lits }
    ensures { IfOk result (λ l. GivesLit circuit.old circuit.new l (λ v. truth (number v bus.lits))) }
{
    let truth = circuit.unary(UnOp::Bool, bus)?;
    Ok(truth.lits[0])
}

// Whether the first literal is true and the guard isn't 0.
fn open_where(
    circuit: &mut Circuit,
    at: Lit,
    guard: &Expr,
    widths: &Widths,
    cells: &Buses,
) -> Result<Lit, AllocError>
    requires truth { HasTruth circuit.old }
    requires at { IsOf circuit.old.variables at }
    requires cells { AreCells circuit.old widths.now cells.now }
    requires names { IsWithin (length cells.now) (term_of guard.now) }
    ensures { IfOk result (λ l. GivesLit circuit.old circuit.new l (λ v. is_lit_true v at && truth (term_in v widths.now cells.now (term_of guard.now)))) }
{
    if at == NO {
        return Ok(NO);
    }
    let value = circuit.expr(guard, widths, cells)?;
    let truth = is_nonzero(circuit, value)?;
    circuit.and(at, truth)
}

// Each alternative with the literal that it is open.
pub(crate) fn ways_open<'a>(
    alloc: Global,
    circuit: &mut Circuit,
    offers: &[Offered<'a>],
    at: &Lits,
    widths: &Widths,
    cells: &Buses,
    points: usize,
) -> Result<Vec<Way<'a>>, AllocError>
    requires truth { HasTruth circuit.old }
    requires at { AreOf circuit.old.variables at.now }
    requires cells { AreCells circuit.old widths.now cells.now }
    requires fits { AreFit points widths.now (offered_choices (offers_of offers.now)) }
    ensures { IfOk result (λ ways. OpensWays circuit.old circuit.new at.now (is_open_in widths.now cells.now) (offers_of offers.now) ways.items) }
{
    let _ = points;
    let mut ways = Vec::new(alloc);
    for i in 0..offers.len() {
        let offered = offers[i];
        let here = place(at, offered.point);
        let taken = open_where(circuit, here, &offered.alternative.guard, widths, cells)?;
        ways.push(Way {
            taken,
            alternative: offered.alternative,
        })?;
    }
    Ok(ways)
}

// Marks the label of an alternative that may be open.
fn mark(places: &mut [bool], way: Way)
    requires label { 0 < (choice_of way).label }
    requires within { (choice_of way).label ≤ length places.old }
    ensures { places.new ≡ (if way.entry.taken.0 == 3 then places.old else slice_set places.old ((choice_of way.entry).label - 1) true) }
{
    if way.taken != NO {
        places[way.alternative.label as usize - 1] = true;
    }
}

// Marks the labels of the alternatives that may be open; label i + 1 stands at place i.
pub(crate) fn label_places(
    alloc: Global,
    opened: &[Way],
    count: usize,
) -> Result<Vec<bool>, AllocError>
    requires { labels_below count (choices_of opened.now) }
    ensures { IfOk result (λ places. AreMarked count opened.now places.items) }
{
    let mut places = Vec::from_elem(alloc, false, count)?;
    for i in 0..opened.len() {
        mark(&mut places, opened[i]);
    }
    Ok(places)
}

// The greater number of bits, where the alternative may be open.
fn bits_with(most: u32, way: Way) -> u32
    ensures { result ≡ (if way.entry.taken.0 == 3 then most else max most (input_bits (choice_of way.entry).input)) }
{
    let bits = input_bits(way.alternative.input);
    if way.taken == NO || bits < most {
        most
    } else {
        bits
    }
}

// The greatest number of bits of an input that an alternative takes that may be open.
fn most_bits(opened: &[Way]) -> u32
    ensures most { bits_below opened.now result }
    ensures few { result ≤ 32 }
{
    let mut most = 0;
    for i in 0..opened.len() {
        most = bits_with(most, opened[i]);
    }
    most
}

// Marks the lowest bits of a word, as many as such an input has.
pub(crate) fn word_places(alloc: Global, opened: &[Way]) -> Result<Vec<bool>, AllocError>
    ensures { IfOk result (λ places. IsMarkedWord opened.now places.items) }
{
    let bits = most_bits(opened);
    let mut places = Vec::new(alloc);
    for i in 0..32 {
        places.push(i < bits)?;
    }
    Ok(places)
}
