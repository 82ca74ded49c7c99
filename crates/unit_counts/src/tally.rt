// The counts of bodies with all their calls expanded, found level by level from those of the functions that they call.
ghost use Rattle.std.specs.Prelude.{◌≡◌, ◌+◌, [], IfOk, None, map, max};
ghost use Rattle.lower_law.specs.Counts.{saturated, local_bits, end_points, call_depth};
ghost use Rattle.unit_counts.specs.Tallies.{function_size, entity_size, called_tally, with_thing, with_things, tally_of, tallies_to, completed};

use crate::expressions::plus;
use crate::things::{ThingSize, ThingSizes, things_of};
use sqlite_items::Items;
use std::alloc::{AllocError, Global};
use typed_unit::typed::{CType, Local, TypedEntity, TypedFunction};

/// What is counted in a body with all its calls expanded, each as far as a number of 64 bits goes: its points, its weight, the bits of its
/// cells, and the greatest number of read sites in one thing.
#[derive(Clone, Copy, PartialEq, Eq, Debug)]
pub struct Tally {
    pub points: u64,
    pub weight: u64,
    pub bits: u64,
    pub reads: u64,
}

/// One for each function, or for each entity.
pub type Tallies = Items<Tally>;

/// What a body has without those that it calls: the bits of its locals, the points of its end, and its things.
#[derive(Drop)]
pub struct BodySize {
    pub bits: u64,
    pub ends: u64,
    pub things: ThingSizes,
}

/// One for each function.
pub type BodySizes = Items<BodySize>;

// The bits of locals.
#[tactic(auto, using(crate::proofs::TallyParts::local_more))]
fn local_bits(locals: &[Local]) -> u64
    ensures { result ≡ saturated (local_bits locals.now) }
{
    let mut sum = 0;
    for l in locals {
        sum = plus(sum, l.ctype.width.bits() as u64);
    }
    sum
}

// The points of the end of a function.
fn end_points(gives: Option<CType>) -> u64
    ensures { result ≡ end_points gives }
{
    match gives {
        None => 1,
        Some(_) => 0,
    }
}

fn function_size(alloc: Global, f: &TypedFunction) -> Result<BodySize, AllocError>
    ensures { IfOk result (λ size. size ≡ function_size f.now) }
{
    let things = things_of(alloc, f.body.as_slice())?;
    Ok(BodySize {
        bits: local_bits(f.locals.as_slice()),
        ends: end_points(f.result),
        things,
    })
}

pub(crate) fn entity_size(alloc: Global, e: &TypedEntity) -> Result<BodySize, AllocError>
    ensures { IfOk result (λ size. size ≡ entity_size e.now) }
{
    let things = things_of(alloc, e.body.as_slice())?;
    Ok(BodySize {
        bits: local_bits(e.locals.as_slice()),
        ends: 1,
        things,
    })
}

/// What the functions have without those that they call.
pub fn function_sizes(alloc: Global, functions: &[TypedFunction]) -> Result<BodySizes, AllocError>
    ensures { IfOk result (λ sizes. sizes ≡ map function_size functions.now) }
{
    let mut sizes = Items::new(alloc);
    for f in functions {
        let size = function_size(alloc, f)?;
        sizes.push(size)?;
    }
    Ok(sizes)
}

pub(crate) fn nothing() -> Tally
    ensures { result ≡ called_tally [] None }
{
    Tally {
        points: 0,
        weight: 0,
        bits: 0,
        reads: 0,
    }
}

// The counts of the function that is called, if one is.
fn called(calls: &[Tally], function: Option<usize>) -> Tally
    ensures { result ≡ called_tally calls.now function }
{
    match function {
        None => nothing(),
        Some(f) => match calls.get(f) {
            None => nothing(),
            Some(tally) => *tally,
        },
    }
}

fn greatest(a: u64, b: u64) -> u64
    ensures { result ≡ max a b }
{
    if a < b { b } else { a }
}

// With a thing and what it calls.
fn with_thing(calls: &[Tally], tally: Tally, thing: ThingSize) -> Tally
    ensures { result ≡ with_thing calls.now tally thing }
{
    let called = called(calls, thing.calls);
    Tally {
        points: plus(tally.points, plus(plus(1, thing.reads), called.points)),
        weight: plus(tally.weight, plus(thing.weight, called.weight)),
        bits: plus(tally.bits, called.bits),
        reads: greatest(tally.reads, greatest(thing.reads, called.reads)),
    }
}

// With things one after another.
#[tactic(auto, using(crate::proofs::TallyParts::thing_more))]
fn with_things(calls: &[Tally], tally: Tally, things: &[ThingSize]) -> Tally
    ensures { result ≡ with_things calls.now tally things.now }
{
    let mut tally = tally;
    for thing in things {
        tally = with_thing(calls, tally, *thing);
    }
    tally
}

// The counts of a body.
pub(crate) fn tally_of(calls: &[Tally], size: &BodySize) -> Tally
    ensures { result ≡ tally_of calls.now size.now }
{
    let own = Tally {
        points: size.ends,
        weight: 0,
        bits: size.bits,
        reads: 0,
    };
    with_things(calls, own, size.things.as_slice())
}

// The counts of functions in which calls nest one deeper.
fn next_tallies(alloc: Global, calls: &[Tally], sizes: &[BodySize]) -> Result<Tallies, AllocError>
    ensures { IfOk result (λ tallies. tallies ≡ map (tally_of calls.now) sizes.now) }
{
    let mut tallies = Items::new(alloc);
    for size in sizes {
        tallies.push(tally_of(calls, size))?;
    }
    Ok(tallies)
}

// The counts of functions, where no chain of calls is longer than one of a checked unit.
pub(crate) fn tallies(alloc: Global, sizes: &[BodySize]) -> Result<Tallies, AllocError>
    ensures { IfOk result (λ tallies. tallies ≡ tallies_to sizes.now call_depth) }
{
    let mut tallies = Items::new(alloc);
    for _depth in 0..16u8 {
        tallies = next_tallies(alloc, tallies.as_slice(), sizes)?;
    }
    Ok(tallies)
}

// An entity's weight has its points in it, and its bits a cell for each value that one thing reads.
pub(crate) fn completed(tally: Tally) -> Tally
    ensures { result ≡ completed tally }
{
    Tally {
        points: tally.points,
        weight: plus(tally.points, tally.weight),
        bits: plus(tally.bits, tally.reads.saturating_mul(32)),
        reads: tally.reads,
    }
}
