// Guards: which requests wait, who is on the stack, and which resources are held.
ghost use Rattle.std.specs.Prelude.{◌≡◌, ◌==◌, ◌&&◌, IfOk, if◌then◌else◌, nat_le, nat_lt, not, false};
ghost use Rattle.chk_base.specs.Term.{Cell, term_of};
ghost use Rattle.one_stack.specs.Plain.{slot_of};
ghost use Rattle.one_stack.specs.Rules as rules;
ghost use Rattle.one_stack.specs.Tables.{place_in, plan_in, seen};

use crate::change::{is_it, is_level};
use crate::layout::{Layout, Slot};
use crate::terms::{bin, both, either, negated};
use chk_base::expr::{BinOp, Expr};
use std::alloc::{AllocError, Global};

// The first request that waits at a level.
fn first_place(layout: &Layout, l: u8) -> Expr
    ensures { term_of result ≡ rules.cell (seen layout.now) (plan_in layout.now) (rules.Waits l 0) }
{
    layout.cell(Slot::Waits { level: l, at: 0 })
}

fn none_at(alloc: Global, layout: &Layout, l: u8) -> Result<Expr, AllocError>
    ensures { IfOk result (λ t. term_of t ≡ rules.none_at (seen layout.now) (plan_in layout.now) l) }
{
    negated(alloc, first_place(layout, l))
}

fn first_is(alloc: Global, layout: &Layout, t: u8) -> Result<Expr, AllocError>
    ensures { IfOk result (λ x. term_of x ≡ rules.first_is (seen layout.now) (plan_in layout.now) t) }
{
    let first = first_place(layout, layout.level(t));
    bin(alloc, BinOp::Eq, first, Expr::Const(t as u32 + 1))
}

fn none_after(alloc: Global, layout: &Layout, x: Option<u8>, l: u8) -> Result<Expr, AllocError>
    ensures { IfOk result (λ t. term_of t ≡ rules.none_after (seen layout.now) (plan_in layout.now) x l) }
{
    if is_level(layout, x, l) {
        Ok(Expr::Const(0))
    } else {
        none_at(alloc, layout, l)
    }
}

fn first_after(alloc: Global, layout: &Layout, x: Option<u8>, t: u8) -> Result<Expr, AllocError>
    ensures { IfOk result (λ y. term_of y ≡ rules.first_after (seen layout.now) (plan_in layout.now) x t) }
{
    let first = first_is(alloc, layout, t)?;
    if is_it(x, t) {
        let none = none_at(alloc, layout, layout.level(t))?;
        either(alloc, none, first)
    } else {
        Ok(first)
    }
}

// No request waits at the level of u, where that is above l, and the rest holds.
fn none_and(
    alloc: Global,
    layout: &Layout,
    x: Option<u8>,
    l: u8,
    u: u8,
    rest: Expr,
) -> Result<Expr, AllocError>
    ensures { IfOk result (λ t. term_of t ≡ (if nat_lt l ((seen layout.now).level u) then rules.both (rules.none_after (seen layout.now) (plan_in layout.now) x ((seen layout.now).level u)) (term_of rest) else term_of rest)) }
{
    let level = layout.level(u);
    if l < level {
        let none = none_after(alloc, layout, x, level)?;
        both(alloc, none, rest)
    } else {
        Ok(rest)
    }
}

// No task whose level is above this one waits, after the request x was put.
fn none_above(alloc: Global, layout: &Layout, x: Option<u8>, l: u8) -> Result<Expr, AllocError>
    ensures { IfOk result (λ t. term_of t ≡ rules.none_above (seen layout.now) (plan_in layout.now) x l layout.now.entities) }
{
    let mut all = Expr::Const(1);
    for u in 0..layout.entities() {
        all = none_and(alloc, layout, x, l, u, all)?;
    }
    Ok(all)
}

// The slot isn't set, where it is tested, and the rest holds.
fn unset_and(
    alloc: Global,
    layout: &Layout,
    slot: Slot,
    is_tested: bool,
    rest: Expr,
) -> Result<Expr, AllocError>
    ensures { IfOk result (λ t. term_of t ≡ (if is_tested then rules.both (rules.negated (Cell (place_in layout.now (slot_of slot)) false)) (term_of rest) else term_of rest)) }
{
    if is_tested {
        let unset = negated(alloc, layout.cell(slot))?;
        both(alloc, unset, rest)
    } else {
        Ok(rest)
    }
}

fn runs_at(layout: &Layout, l: u8, h: u8, u: u8) -> bool
    ensures { result ≡ rules.runs_at (seen layout.now) (plan_in layout.now) l h u }
{
    l <= layout.run_level(u) && layout.level(u) < h
}

fn ceiling_at(layout: &Layout, l: u8, h: u8, r: u8) -> bool
    ensures { result ≡ rules.ceiling_at (seen layout.now) (plan_in layout.now) l h r }
{
    let ceiling = layout.ceiling(r);
    l <= ceiling && ceiling < h
}

fn is_high(layout: &Layout, l: u8, r: u8) -> bool
    ensures { result ≡ nat_le l ((seen layout.now).ceiling r) }
{
    l <= layout.ceiling(r)
}

fn is_other_high(layout: &Layout, q: u8, l: u8, r: u8) -> bool
    ensures { result ≡ (not (r == q) && nat_le l ((seen layout.now).ceiling r)) }
{
    r != q && is_high(layout, l, r)
}

fn none_on(alloc: Global, layout: &Layout, l: u8, h: u8) -> Result<Expr, AllocError>
    ensures { IfOk result (λ t. term_of t ≡ rules.none_of (seen layout.now) (plan_in layout.now) rules.On (rules.runs_at (seen layout.now) (plan_in layout.now) l h) layout.now.entities) }
{
    let mut all = Expr::Const(1);
    for u in 0..layout.entities() {
        let is_tested = runs_at(layout, l, h, u);
        all = unset_and(alloc, layout, Slot::On(u), is_tested, all)?;
    }
    Ok(all)
}

fn none_held_below(alloc: Global, layout: &Layout, l: u8, h: u8) -> Result<Expr, AllocError>
    ensures { IfOk result (λ t. term_of t ≡ rules.none_of (seen layout.now) (plan_in layout.now) rules.Held (rules.ceiling_at (seen layout.now) (plan_in layout.now) l h) layout.now.resources) }
{
    let mut all = Expr::Const(1);
    for r in 0..layout.resources() {
        let is_tested = ceiling_at(layout, l, h, r);
        all = unset_and(alloc, layout, Slot::Held(r), is_tested, all)?;
    }
    Ok(all)
}

/// No resource is held whose ceiling is l or above.
pub fn none_held(alloc: Global, layout: &Layout, l: u8) -> Result<Expr, AllocError>
    ensures { IfOk result (λ t. term_of t ≡ rules.none_held (seen layout.now) (plan_in layout.now) l) }
{
    let mut all = Expr::Const(1);
    for r in 0..layout.resources() {
        let is_tested = is_high(layout, l, r);
        all = unset_and(alloc, layout, Slot::Held(r), is_tested, all)?;
    }
    Ok(all)
}

// The same without the resource q.
fn none_held_but(alloc: Global, layout: &Layout, q: u8, l: u8) -> Result<Expr, AllocError>
    ensures { IfOk result (λ t. term_of t ≡ rules.none_held_but (seen layout.now) (plan_in layout.now) q l) }
{
    let mut all = Expr::Const(1);
    for r in 0..layout.resources() {
        let is_tested = is_other_high(layout, q, l, r);
        all = unset_and(alloc, layout, Slot::Held(r), is_tested, all)?;
    }
    Ok(all)
}

fn none_between(alloc: Global, layout: &Layout, l: u8, h: u8) -> Result<Expr, AllocError>
    ensures { IfOk result (λ t. term_of t ≡ rules.none_between (seen layout.now) (plan_in layout.now) l h) }
{
    let on = none_on(alloc, layout, l, h)?;
    let held = none_held_below(alloc, layout, l, h)?;
    both(alloc, on, held)
}

// Nobody is before the task t where e ends, after the request x was put.
fn none_before(
    alloc: Global,
    layout: &Layout,
    e: u8,
    x: Option<u8>,
    t: u8,
) -> Result<Expr, AllocError>
    ensures { IfOk result (λ y. term_of y ≡ rules.both (rules.none_above (seen layout.now) (plan_in layout.now) x ((seen layout.now).level t) layout.now.entities) (rules.none_between (seen layout.now) (plan_in layout.now) ((seen layout.now).level t) ((seen layout.now).level e))) }
{
    let above = none_above(alloc, layout, x, layout.level(t))?;
    let between = none_between(alloc, layout, layout.level(t), layout.level(e))?;
    both(alloc, above, between)
}

/// The task t starts where e ends, after the request x was put.
pub fn may_start(
    alloc: Global,
    layout: &Layout,
    e: u8,
    x: Option<u8>,
    t: u8,
) -> Result<Expr, AllocError>
    ensures { IfOk result (λ y. term_of y ≡ rules.may_start (seen layout.now) (plan_in layout.now) e x t) }
{
    let first = first_after(alloc, layout, x, t)?;
    let rest = none_before(alloc, layout, e, x, t)?;
    both(alloc, first, rest)
}

/// The task t starts where the resource r is released.
pub fn may_push(alloc: Global, layout: &Layout, r: u8, t: u8) -> Result<Expr, AllocError>
    ensures { IfOk result (λ y. term_of y ≡ rules.may_push (seen layout.now) (plan_in layout.now) r t) }
{
    let level = layout.level(t);
    let first = first_is(alloc, layout, t)?;
    let above = none_above(alloc, layout, None, level)?;
    let held = none_held_but(alloc, layout, r, level)?;
    let rest = both(alloc, above, held)?;
    both(alloc, first, rest)
}

/// A task has as many requests as it may have.
pub fn full(alloc: Global, layout: &Layout, t: u8) -> Result<Expr, AllocError>
    ensures { IfOk result (λ x. term_of x ≡ rules.full (seen layout.now) (plan_in layout.now) t) }
{
    let most = Expr::Const(layout.limit(t) as u32);
    bin(alloc, BinOp::LeU, most, layout.cell(Slot::Count(t)))
}

/// So it has without one of e.
pub fn full_others(alloc: Global, layout: &Layout, e: u8, t: u8) -> Result<Expr, AllocError>
    ensures { IfOk result (λ x. term_of x ≡ rules.full_others (seen layout.now) (plan_in layout.now) e t) }
{
    if t == e {
        Ok(Expr::Const(0))
    } else {
        full(alloc, layout, t)
    }
}

/// The resource that e took last, with 1 added.
pub fn last_kept(layout: &Layout, e: u8) -> Expr
    ensures { term_of result ≡ rules.last_kept (seen layout.now) (plan_in layout.now) e }
{
    if layout.resources() > 0 {
        layout.cell(Slot::Kept { entity: e, at: 0 })
    } else {
        Expr::Const(0)
    }
}
