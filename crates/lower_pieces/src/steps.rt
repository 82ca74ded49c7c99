// The points of one thing: one for each of its reads, and one that completes it.
ghost use Rattle.std.specs.Prelude.{◌≡◌, ◌+◌, ◌++◌, ◌∷◌, [], ◌<◌, ◌≤◌, ◌^◌, IfOk, OnOk, length, map, option_map};
ghost use Rattle.chk_base.specs.Term.{term_of, Const};
ghost use Rattle.step_ir.specs.Points.{plain_of, plain_action, target_of, item_of, Read};
ghost use Rattle.lower_law.specs.Exact.{exchanged};
ghost use Rattle.lower_law.specs.Lowered.{always};
ghost use Rattle.lower_pieces.specs.Joined.{items_of};
ghost use Rattle.lower_pieces.specs.Joined as one;
ghost use Rattle.lower_pieces.specs.Steps.{behind_joined, reads_in, cut_joined, entry_joined, thing_joined};

use crate::copies::copy;
use crate::evaluation::Item;
use chk_base::expr::Expr;
use chk_base::place::Place;
use std::alloc::{AllocError, Global};
use std::mem;
use step_ir::code::{Action, Nexts, Point, Target, Traps};

/// The number of the point at a position: those at 0 and `first` change places.
pub fn number(first: u16, at: u16) -> u16
    ensures { result ≡ exchanged first at }
{
    if at == first {
        0
    } else if at == 0 {
        first
    } else {
        at
    }
}

/// The same traps again.
#[tactic(auto, using(crate::proofs::Walked::pairs_more, std::proofs::Common::append_assoc))]
pub fn copy_traps(alloc: Global, traps: &Traps) -> Result<Traps, AllocError>
    ensures { IfOk result (λ c. map item_of c ≡ map item_of traps.now) }
{
    let mut copied = Traps::new(alloc);
    for trap in traps.items() {
        copied.push((copy(alloc, &trap.0)?, trap.1))?;
    }
    Ok(copied)
}

/// More nexts behind those that there are.
#[tactic(auto, using(crate::proofs::Walked::pairs_more, std::proofs::Common::append_assoc))]
pub fn push_nexts(alloc: Global, nexts: &mut Nexts, more: &Nexts) -> Result<(), AllocError>
    ensures { OnOk result (map item_of nexts.new ≡ map item_of nexts.old ++ map item_of more.now) }
{
    for next in more.items() {
        nexts.push((copy(alloc, &next.0)?, next.1))?;
    }
    Ok(())
}

/// The same nexts again.
pub fn copy_nexts(alloc: Global, nexts: &Nexts) -> Result<Nexts, AllocError>
    ensures { IfOk result (λ c. map item_of c ≡ map item_of nexts.now) }
{
    let mut copied = Nexts::new(alloc);
    push_nexts(alloc, &mut copied, nexts)?;
    Ok(copied)
}

/// At this position in any case.
pub fn always(alloc: Global, first: u16, at: u16) -> Result<Nexts, AllocError>
    ensures { IfOk result (λ n. map item_of n ≡ always (exchanged first) at) }
{
    let mut nexts = Nexts::new(alloc);
    nexts.push((Expr::Const(1), number(first, at)))?;
    Ok(nexts)
}

/// Where a thing with these items at this position begins.
#[tactic(auto, using(crate::proofs::Walked::items_more, std::proofs::Common::append_assoc))]
pub fn entry(alloc: Global, first: u16, at: u16, items: &[Item]) -> Result<Nexts, AllocError>
    requires { at + reads_in (items_of items.now) < 2 ^ 16 }
    ensures { IfOk result (λ n. map item_of n ≡ entry_joined (exchanged first) at (items_of items.now)) }
{
    let mut nexts = Nexts::new(alloc);
    let mut at = at;
    for item in items {
        match item {
            Item::Test { .. } => {}
            Item::Read { guard: None, .. } => {
                nexts.push((Expr::Const(1), number(first, at)))?;
                return Ok(nexts);
            }
            Item::Read { guard: Some(g), .. } => {
                nexts.push((copy(alloc, g)?, number(first, at)))?;
                at += 1;
            }
        }
    }
    nexts.push((Expr::Const(1), number(first, at)))?;
    Ok(nexts)
}

// The traps of a read's point, and in their place those that are needed behind it: none where the read comes in any case.
fn tested(alloc: Global, guard: &Option<Expr>, traps: &mut Traps) -> Result<Traps, AllocError>
    ensures traps { IfOk result (λ t. map item_of t ≡ map item_of traps.old) }
    ensures behind { OnOk result (map item_of traps.new ≡ behind_joined (option_map term_of guard.now) (map item_of traps.old)) }
{
    match guard {
        None => Ok(mem::replace(traps, Traps::new(alloc))),
        Some(_) => copy_traps(alloc, traps),
    }
}

// The point of a read, after which the rest of the items follows.
fn read(
    alloc: Global,
    points: &mut Vec<Point>,
    traps: &mut Traps,
    place: Place,
    guard: &Option<Expr>,
    target: Target,
    into: u16,
    next: Nexts,
) -> Result<(), AllocError>
    ensures points { OnOk result (map plain_of points.new.items ≡ map plain_of points.old.items ++ (record { place = place; action = Read (target_of target) into; traps = map item_of traps.old; nexts = map item_of next } ∷ [])) }
    ensures traps { OnOk result (map item_of traps.new ≡ behind_joined (option_map term_of guard.now) (map item_of traps.old)) }
{
    let traps = tested(alloc, guard, traps)?;
    points.push(Point {
        place,
        action: Action::Read { target, into },
        traps,
        next,
    })?;
    Ok(())
}

// The point that completes a thing.
fn complete(
    points: &mut Vec<Point>,
    place: Place,
    action: Action,
    traps: Traps,
    next: Nexts,
) -> Result<(), AllocError>
    ensures { OnOk result (map plain_of points.new.items ≡ map plain_of points.old.items ++ (record { place = place; action = plain_action action; traps = map item_of traps; nexts = map item_of next } ∷ [])) }
{
    points.push(Point {
        place,
        action,
        traps,
        next,
    })?;
    Ok(())
}

// The first of the items that are left, which is taken away.
#[tactic(auto, using(crate::proofs::Walked::first_left, crate::proofs::Walked::fewer_left))]
fn next_of(items: &mut Vec<Item>) -> Item
    requires { 0 < length items.old.items }
    ensures items { items_of items.old.items ≡ one.item_of result ∷ items_of items.new.items }
    ensures fewer { length items.new.items < length items.old.items }
{
    items.remove(0)
}

/// The points of a thing with these items at this position, behind those that there are.
#[tactic(auto, using(crate::proofs::Walked::thing_read, std::proofs::Common::append_assoc))]
pub fn thing(
    alloc: Global,
    points: &mut Vec<Point>,
    first: u16,
    at: u16,
    items: Vec<Item>,
    place: Place,
    action: Action,
    next: Nexts,
) -> Result<(), AllocError>
    requires { at + reads_in (items_of items.items) < 2 ^ 16 }
    ensures { OnOk result (map plain_of points.new.items ≡ map plain_of points.old.items ++ thing_joined (exchanged first) place (plain_action action) (map item_of next) [] at (items_of items.items)) }
{
    let mut traps = Traps::new(alloc);
    let mut at = at;
    let mut left = items;
    while !left.is_empty() {
        match next_of(&mut left) {
            Item::Test { test, failure } => traps.push((test, failure))?,
            Item::Read {
                guard,
                target,
                into,
            } => {
                at += 1;
                let rest = entry(alloc, first, at, &left)?;
                read(alloc, points, &mut traps, place, &guard, target, into, rest)?;
            }
        }
    }
    complete(points, place, action, traps, next)?;
    Ok(())
}
