// The rules of a point.
ghost use Rattle.std.specs.Prelude.{◌≡◌, ◌+◌, ◌∷◌, ◌≤◌, ◌<◌, ◌^◌, IfOk, map, option_map, false, []};
ghost use Rattle.chk_base.specs.Term.{Cell, Pick, term_of};
ghost use Rattle.guard_prog.specs.Drafts.{plain_sets};
ghost use Rattle.one_stack.specs.Near.{AreNear, IsNear, IsWriteNear};
ghost use Rattle.one_stack.specs.Plain.{own_sets_of, rule_of, rules_of};
ghost use Rattle.one_stack.specs.Rules as rules;
ghost use Rattle.one_stack.specs.Tables.{plan_in, seen, width_in};
ghost use Rattle.step_ir.specs.Points.{item_of, plain_action, plain_of, return_of, set_of, target_of};

use crate::layout::Layout;
use crate::nexts::{Way, next_rules};
use crate::rule::{Rule, RuleList};
use crate::services::{service_error, service_rules};
use crate::sets::{put_copies, put_set};
use crate::terms::{bin, choose, copy, either, negated, tested};
use chk_base::expr::{BinOp, Expr};
use chk_base::sets::{Set, Sets};
use guard_prog::draft::Control;
use std::alloc::{AllocError, Global};
use step_ir::code::{Action, Point, Target};

// One of these traps holds.
fn any_of(alloc: Global, traps: &[(Expr, u8)]) -> Result<Expr, AllocError>
    ensures { IfOk result (λ t. term_of t ≡ rules.any_of (map item_of traps.now)) }
{
    match traps.split_first() {
        None => Ok(Expr::Const(0)),
        Some((trap, others)) => {
            let value = copy(alloc, &trap.0)?;
            let test = tested(alloc, value)?;
            let rest = any_of(alloc, others)?;
            either(alloc, test, rest)
        }
    }
}

// The index of a target; without one it is 0.
fn index_of(alloc: Global, target: &Target) -> Result<Expr, AllocError>
    ensures { IfOk result (λ t. term_of t ≡ rules.index_term (target_of target.now).index) }
{
    match &target.index {
        None => Ok(Expr::Const(0)),
        Some(index) => copy(alloc, index),
    }
}

// The element j of an array after a write.
fn element(alloc: Global, base: u16, index: &Expr, value: &Expr, j: u8) -> Result<Expr, AllocError>
    requires { base + j < 2 ^ 16 }
    ensures { IfOk result (λ t. term_of t ≡ rules.choice (rules.binary BinOp.Eq (term_of index.now) (rules.constant j)) (term_of value.now) (Cell (base + j) false)) }
{
    let place = copy(alloc, index)?;
    let test = bin(alloc, BinOp::Eq, place, Expr::Const(j as u32))?;
    let taken = copy(alloc, value)?;
    let kept = Expr::Cell {
        at: base + j as u16,
        signed: false,
    };
    choose(alloc, test, taken, kept)
}

// An array after a write at this index, the greatest element first.
fn elements(alloc: Global, target: &Target, index: &Expr, value: &Expr) -> Result<Sets, AllocError>
    requires { target.now.base + target.now.len ≤ 8192 }
    ensures { IfOk result (λ sets. plain_sets sets ≡ rules.write_sets target.now.base (term_of index.now) (term_of value.now) target.now.len) }
{
    let mut sets = Sets::new(alloc);
    for j in (0..target.len).rev() {
        let element = element(alloc, target.base, index, value, j)?;
        put_set(&mut sets, target.base + j as u16, element)?;
    }
    Ok(sets)
}

// An array after a write.
fn write_sets(alloc: Global, target: &Target, value: &Expr) -> Result<Sets, AllocError>
    requires { target.now.base + target.now.len ≤ 8192 }
    ensures { IfOk result (λ sets. plain_sets sets ≡ rules.write_sets target.now.base (rules.index_term (target_of target.now).index) (term_of value.now) target.now.len) }
{
    let index = index_of(alloc, target)?;
    let sets = elements(alloc, target, &index, value)?;
    Ok(sets)
}

// A list of one set.
fn one_set(alloc: Global, cell: u16, value: Expr) -> Result<Sets, AllocError>
    ensures { IfOk result (λ sets. plain_sets sets ≡ (cell, term_of value) ∷ []) }
{
    let mut sets = Sets::new(alloc);
    put_set(&mut sets, cell, value)?;
    Ok(sets)
}

fn return_sets(alloc: Global, set: &Option<(u16, Expr)>) -> Result<Sets, AllocError>
    ensures { IfOk result (λ sets. plain_sets sets ≡ rules.return_sets (option_map return_of set.now)) }
{
    match set {
        None => Ok(Sets::new(alloc)),
        Some((cell, value)) => {
            let value = copy(alloc, value)?;
            one_set(alloc, *cell, value)
        }
    }
}

fn call_sets(alloc: Global, sets: &Sets) -> Result<Sets, AllocError>
    ensures { IfOk result (λ copies. plain_sets copies ≡ map set_of sets.now) }
{
    let mut copies = Sets::new(alloc);
    put_copies(alloc, &mut copies, sets.items())?;
    Ok(copies)
}

// What a read gives.
fn element_read(alloc: Global, target: &Target) -> Result<Expr, AllocError>
    ensures { IfOk result (λ t. term_of t ≡ Pick target.now.base target.now.len false (rules.index_term (target_of target.now).index)) }
{
    let index = index_of(alloc, target)?;
    Ok(Expr::Pick {
        base: target.base,
        len: target.len,
        signed: false,
        index: Box::new(alloc, index)?,
    })
}

// The entity goes on after its own sets.
fn goes_on(
    alloc: Global,
    layout: &Layout,
    e: u8,
    own: &[Set],
    nexts: &[(Expr, u16)],
) -> Result<RuleList, AllocError>
    requires { AreNear (map item_of nexts.now) }
    ensures { IfOk result (λ l. rules_of l ≡ rules.goes_on (seen layout.now) (plan_in layout.now) (width_in layout.now) e (plain_sets own.now) (map item_of nexts.now)) }
{
    let way = Way {
        entity: e,
        starts: None,
    };
    next_rules(alloc, layout, own, &[], way, nexts)
}

// The sets of an action that is no service.
fn own_sets(alloc: Global, action: &Action) -> Result<Sets, AllocError>
    requires { IsWriteNear (plain_action action.now) }
    ensures { IfOk result (λ sets. plain_sets sets ≡ own_sets_of (plain_action action.now)) }
{
    match action {
        Action::Read { target, into } => {
            let value = element_read(alloc, target)?;
            one_set(alloc, *into, value)
        }
        Action::Write { target, value } => write_sets(alloc, target, value),
        Action::Local { cell, value } => {
            let value = copy(alloc, value)?;
            one_set(alloc, *cell, value)
        }
        Action::Call { sets, .. } => call_sets(alloc, sets),
        Action::Return(set) => return_sets(alloc, set),
        Action::Branch(_)
        | Action::Input(_)
        | Action::Service(_)
        | Action::Assert(_)
        | Action::End => Ok(Sets::new(alloc)),
    }
}

// The rules of an action that doesn't fail.
fn action_rules(
    alloc: Global,
    layout: &Layout,
    e: u8,
    action: &Action,
    nexts: &[(Expr, u16)],
) -> Result<RuleList, AllocError>
    requires nexts { AreNear (map item_of nexts.now) }
    requires action { IsWriteNear (plain_action action.now) }
    ensures { IfOk result (λ l. rules_of l ≡ rules.action_rules (seen layout.now) (plan_in layout.now) (width_in layout.now) e (plain_action action.now) (map item_of nexts.now)) }
{
    match action {
        Action::Service(service) => service_rules(alloc, layout, e, *service, nexts),
        Action::Input(_) | Action::End => Ok(RuleList::new(alloc)),
        Action::Read { .. }
        | Action::Write { .. }
        | Action::Local { .. }
        | Action::Branch(_)
        | Action::Call { .. }
        | Action::Return(_)
        | Action::Assert(_) => {
            let own = own_sets(alloc, action)?;
            goes_on(alloc, layout, e, own.items(), nexts)
        }
    }
}

// An action fails.
fn action_error(alloc: Global, layout: &Layout, e: u8, action: &Action) -> Result<Expr, AllocError>
    ensures { IfOk result (λ t. term_of t ≡ rules.action_error (seen layout.now) (plan_in layout.now) e (plain_action action.now)) }
{
    match action {
        Action::Service(service) => service_error(alloc, layout, e, *service),
        Action::Assert(value) => {
            let value = copy(alloc, value)?;
            negated(alloc, value)
        }
        Action::End => Ok(Expr::Const(1)),
        Action::Read { .. }
        | Action::Write { .. }
        | Action::Local { .. }
        | Action::Branch(_)
        | Action::Input(_)
        | Action::Call { .. }
        | Action::Return(_) => Ok(Expr::Const(0)),
    }
}

// The rule of a failure.
fn failure(alloc: Global, layout: &Layout, e: u8, point: &Point) -> Result<Rule, AllocError>
    ensures { IfOk result (λ r. rule_of r ≡ rules.plain (rules.either (rules.any_of (plain_of point.now).traps) (rules.action_error (seen layout.now) (plan_in layout.now) e (plain_of point.now).action)) [] Control.Fail) }
{
    let traps = any_of(alloc, point.traps.items())?;
    let error = action_error(alloc, layout, e, &point.action)?;
    let guard = either(alloc, traps, error)?;
    Ok(Rule {
        guard,
        sets: Sets::new(alloc),
        control: Control::Fail,
    })
}

/// The rules of a point, a failure first.
pub fn point_rules(
    alloc: Global,
    layout: &Layout,
    e: u8,
    point: &Point,
) -> Result<RuleList, AllocError>
    requires { IsNear (plain_of point.now) }
    ensures { IfOk result (λ l. rules_of l ≡ rules.point_rules (seen layout.now) (plan_in layout.now) (width_in layout.now) e (plain_of point.now)) }
{
    let mut list = RuleList::new(alloc);
    let first = failure(alloc, layout, e, point)?;
    list.push(first)?;
    let others = action_rules(alloc, layout, e, &point.action, point.next.items())?;
    list.append(others)?;
    Ok(list)
}
