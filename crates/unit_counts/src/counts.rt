// The counts of a typed unit.
ghost use Rattle.std.specs.Prelude.{◌≡◌, IfOk, map, option_map};
ghost use Rattle.std.specs.Option.{option_copied};
ghost use Rattle.typed_unit.specs.Views.{entity_of, unit_of};
ghost use Rattle.lower_law.specs.Counts.{saturated, call_depth, global_bits, sum_of, point_total, bit_total, weight_total};
ghost use Rattle.lower_law.specs.Translated.{elements, entity_body, is_entity};
ghost use Rattle.unit_counts.specs.Tallies.{function_size, entity_tally, entity_tallies, tallies_to};

use crate::expressions::plus;
use crate::tally::{
    Tallies, Tally, completed, entity_size, function_sizes, nothing, tallies, tally_of,
};
use application::app::Entity;
use sqlite_items::Items;
use std::alloc::{AllocError, Global};
use typed_unit::typed::{GlobalVar, TypedEntity, TypedUnit};

/// The counts of a typed unit, each as far as a number of 64 bits goes: the points, the bits of all cells and the weight of an application
/// of so many entities, and what is counted for each entity.
#[derive(Drop)]
pub struct Counts {
    pub points: u64,
    pub bits: u64,
    pub weight: u64,
    pub entities: Tallies,
}

// Sums over entities.
#[derive(Clone, Copy)]
struct Totals {
    points: u64,
    weight: u64,
    bits: u64,
}

fn is_entity(number: usize, entity: Option<Entity>) -> bool
    ensures { result ≡ is_entity number entity }
{
    match entity {
        None => false,
        Some(e) => e.0 as usize == number,
    }
}

// The first body of the entity with this number.
#[tactic(auto, using(crate::proofs::UnitParts::body_more))]
fn body_among(bodies: &[TypedEntity], number: usize) -> Option<&TypedEntity>
    ensures { option_map entity_of (option_copied result) ≡ entity_body number (map entity_of bodies.now) }
{
    for body in bodies {
        if is_entity(number, body.entity) {
            return Some(body);
        }
    }
    None
}

/// The first body of the entity with this number. It takes no memory.
pub fn body_of(unit: &TypedUnit, number: usize) -> Option<&TypedEntity>
    ensures { option_map entity_of (option_copied result) ≡ entity_body number (unit_of unit.now).entities }
{
    body_among(unit.entities.as_slice(), number)
}

// How many cells a variable has.
pub(crate) fn elements(len: Option<u8>) -> u8
    ensures { result ≡ elements len }
{
    match len {
        None => 1,
        Some(len) => len,
    }
}

// The bits of variables.
#[tactic(auto, using(crate::proofs::UnitParts::global_more))]
fn globals_bits(globals: &[GlobalVar]) -> u64
    ensures { result ≡ saturated (sum_of global_bits globals.now) }
{
    let mut sum = 0;
    for g in globals {
        sum = plus(
            sum,
            (elements(g.len) as u64).saturating_mul(g.ctype.width.bits() as u64),
        );
    }
    sum
}

// The counts of the entity with this number, where those of the functions are known.
#[tactic(auto, using(crate::proofs::UnitParts::entity_counted, crate::proofs::UnitParts::entity_missing))]
fn entity_tally(
    alloc: Global,
    calls: &[Tally],
    unit: &TypedUnit,
    number: usize,
) -> Result<Tally, AllocError>
    requires { calls.now ≡ tallies_to (map function_size unit.now.functions) call_depth }
    ensures { IfOk result (λ tally. tally ≡ entity_tally (unit_of unit.now) number) }
{
    match body_of(unit, number) {
        None => Ok(nothing()),
        Some(body) => {
            let size = entity_size(alloc, body)?;
            Ok(completed(tally_of(calls, &size)))
        }
    }
}

// The counts of all entities.
fn entity_tallies(
    alloc: Global,
    calls: &[Tally],
    unit: &TypedUnit,
    entities: usize,
) -> Result<Tallies, AllocError>
    requires { calls.now ≡ tallies_to (map function_size unit.now.functions) call_depth }
    ensures { IfOk result (λ tallies. tallies ≡ entity_tallies (unit_of unit.now) entities) }
{
    let mut tallies = Items::new(alloc);
    for number in 0..entities {
        let tally = entity_tally(alloc, calls, unit, number)?;
        tallies.push(tally)?;
    }
    Ok(tallies)
}

// The sums of the points, of the weights and of the bits.
#[tactic(auto, using(crate::proofs::TallyParts::sum_next))]
fn total(tallies: &[Tally]) -> Totals
    ensures points { result.points ≡ saturated (sum_of (λ t. t.points) tallies.now) }
    ensures weight { result.weight ≡ saturated (sum_of (λ t. t.weight) tallies.now) }
    ensures bits { result.bits ≡ saturated (sum_of (λ t. t.bits) tallies.now) }
{
    let mut points = 0;
    let mut weight = 0;
    let mut bits = 0;
    for t in tallies {
        points = plus(points, t.points);
        weight = plus(weight, t.weight);
        bits = plus(bits, t.bits);
    }
    Totals {
        points,
        weight,
        bits,
    }
}

/// What is counted for a unit in an application of so many entities. Its time is that of the text's size and of the functions' number, for
/// each of the levels to which calls nest.
#[tactic(auto, using(crate::proofs::UnitParts::points_sum, crate::proofs::UnitParts::weight_sum, crate::proofs::UnitParts::bits_sum))]
pub fn counts_of(alloc: Global, unit: &TypedUnit, entities: usize) -> Result<Counts, AllocError>
    ensures points { IfOk result (λ c. c.points ≡ saturated (point_total (unit_of unit.now) entities)) }
    ensures bits { IfOk result (λ c. c.bits ≡ saturated (bit_total (unit_of unit.now) entities)) }
    ensures weight { IfOk result (λ c. c.weight ≡ saturated (weight_total (unit_of unit.now) entities)) }
    ensures entities { IfOk result (λ c. c.entities ≡ entity_tallies (unit_of unit.now) entities) }
{
    let sizes = function_sizes(alloc, unit.functions.as_slice())?;
    let calls = tallies(alloc, sizes.as_slice())?;
    let entities = entity_tallies(alloc, calls.as_slice(), unit, entities)?;
    let sum = total(entities.as_slice());
    Ok(Counts {
        points: sum.points,
        bits: plus(globals_bits(unit.globals.as_slice()), sum.bits),
        weight: sum.weight,
        entities,
    })
}
