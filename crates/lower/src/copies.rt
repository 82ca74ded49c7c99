// Points under their numbers: the first that runs is the first of all.
ghost use Rattle.std.specs.Prelude.{◌≡◌, ◌<◌, ◌≤◌, ◌^◌, ◌+◌, IfOk, OnOk, length, map, option_map};
ghost use Rattle.step_ir.specs.Points.{plain_action, plain_of, return_of, set_of};
ghost use Rattle.fit_law.specs.Codes.{IsExchanged};
ghost use Rattle.lower.specs.EntityCodes.{exchanged_front};

use chk_base::expr::Expr;
use chk_base::sets::{Set, Sets};
use lower_pieces::copies::{copy, copy_target};
use lower_pieces::steps::{copy_nexts, copy_traps, number};
use std::alloc::{AllocError, Global};
use step_ir::code::{Action, Point, Points};

// The same set again.
fn copy_set(alloc: Global, set: &Set) -> Result<Set, AllocError>
    ensures { IfOk result (λ s. set_of s ≡ set_of set.now) }
{
    Ok(Set {
        cell: set.cell,
        value: copy(alloc, &set.value)?,
    })
}

// The same sets again.
#[tactic(auto, using(crate::proofs::Exchanging::sets_more, std::proofs::Common::append_assoc))]
fn copy_sets(alloc: Global, sets: &Sets) -> Result<Sets, AllocError>
    ensures { IfOk result (λ s. map set_of s ≡ map set_of sets.now) }
{
    let mut copied = Sets::new(alloc);
    for one in sets.items() {
        copied.push(copy_set(alloc, one)?)?;
    }
    Ok(copied)
}

// The same set of a return again.
fn copy_return(alloc: Global, set: &Option<(u16, Expr)>) -> Result<Option<(u16, Expr)>, AllocError>
    ensures { IfOk result (λ s. option_map return_of s ≡ option_map return_of set.now) }
{
    match set {
        None => Ok(None),
        Some((cell, value)) => Ok(Some((*cell, copy(alloc, value)?))),
    }
}

// The same action again.
fn copy_action(alloc: Global, action: &Action) -> Result<Action, AllocError>
    ensures { IfOk result (λ a. plain_action a ≡ plain_action action.now) }
{
    Ok(match action {
        Action::Read { target, into } => Action::Read {
            target: copy_target(alloc, target)?,
            into: *into,
        },
        Action::Write { target, value } => Action::Write {
            target: copy_target(alloc, target)?,
            value: copy(alloc, value)?,
        },
        Action::Local { cell, value } => Action::Local {
            cell: *cell,
            value: copy(alloc, value)?,
        },
        Action::Branch(value) => Action::Branch(copy(alloc, value)?),
        Action::Input(cell) => Action::Input(*cell),
        Action::Call { function, sets } => Action::Call {
            function: *function,
            sets: copy_sets(alloc, sets)?,
        },
        Action::Return(set) => Action::Return(copy_return(alloc, set)?),
        Action::Service(service) => Action::Service(*service),
        Action::Assert(value) => Action::Assert(copy(alloc, value)?),
        Action::End => Action::End,
    })
}

// The same point again.
fn copy_point(alloc: Global, point: &Point) -> Result<Point, AllocError>
    ensures { IfOk result (λ p. plain_of p ≡ plain_of point.now) }
{
    Ok(Point {
        place: point.place,
        action: copy_action(alloc, &point.action)?,
        traps: copy_traps(alloc, &point.traps)?,
        next: copy_nexts(alloc, &point.next)?,
    })
}

// The point at a position behind those that there are.
#[tactic(auto, using(crate::proofs::Exchanging::none_more))]
fn push_copy(
    alloc: Global,
    copied: &mut Points,
    points: &Points,
    first: u16,
    at: usize,
) -> Result<(), AllocError>
    requires few { at < 2 ^ 16 }
    requires so_far { map plain_of copied.old ≡ exchanged_front first (map plain_of points.now) at }
    ensures { OnOk result (map plain_of copied.new ≡ exchanged_front first (map plain_of points.now) (at + 1)) }
{
    match points.get(number(first, at as u16) as usize) {
        None => Ok(()),
        Some(point) => {
            copied.push(copy_point(alloc, point)?)?;
            Ok(())
        }
    }
}

// The points under their numbers: those at 0 and at `first` change places.
pub(crate) fn reordered(alloc: Global, points: Points, first: u16) -> Result<Points, AllocError>
    requires within { first < length points }
    requires few { length points ≤ 2 ^ 16 }
    ensures { IfOk result (λ p. IsExchanged first (map plain_of points) (map plain_of p)) }
{
    if first == 0 {
        return Ok(points);
    }
    let mut copied = Points::new(alloc);
    for at in 0..points.len() {
        push_copy(alloc, &mut copied, &points, first, at)?;
    }
    Ok(copied)
}
