// Rules of services.
ghost use Rattle.std.specs.Prelude.{◌≡◌, ◌++◌, ◌∷◌, ◌&&◌, if◌then◌else◌, nat_le, nat_lt, IfOk, OnOk, map, None, []};
ghost use Rattle.chk_base.specs.Term.{term_of};
ghost use Rattle.one_stack.specs.Near.{AreNear};
ghost use Rattle.one_stack.specs.Plain.{change_of, going, rule_of, rules_of};
ghost use Rattle.one_stack.specs.Rules as rules;
ghost use Rattle.one_stack.specs.Tables.{plan_in, pushed_rules, released_rules, seen, width_in};
ghost use Rattle.step_ir.specs.Points.{item_of};

use crate::change::{Change, is_it};
use crate::guards::{full, full_others, last_kept, may_push, may_start, none_held};
use crate::layout::{Layout, Slot};
use crate::nexts::{Way, next_rules};
use crate::rule::{Rule, RuleList, guarded};
use crate::sets::change_sets;
use crate::terms::{bin, either, negated};
use chk_base::expr::{BinOp, Expr};
use guard_prog::draft::Control;
use std::alloc::{AllocError, Global};
use step_ir::event::Service;

// The request isn't of a higher level than t.
fn no_lower(layout: &Layout, x: Option<u8>, t: u8) -> bool
    ensures { result ≡ rules.no_lower (seen layout.now) (plan_in layout.now) x t }
{
    match x {
        None => true,
        Some(x) => layout.level(x) <= layout.level(t),
    }
}

// Where e ends, t may be the one to start.
fn may_follow(layout: &Layout, e: u8, x: Option<u8>, t: u8) -> bool
    ensures { result ≡ rules.may_follow (seen layout.now) (plan_in layout.now) e x t }
{
    (layout.level(t) <= layout.run_level(e) || is_it(x, t)) && no_lower(layout, x, t)
}

fn start_rule(
    alloc: Global,
    layout: &Layout,
    e: u8,
    x: Option<u8>,
    t: u8,
) -> Result<Rule, AllocError>
    ensures { IfOk result (λ r. rule_of r ≡ rules.start_rule (seen layout.now) (plan_in layout.now) e x t) }
{
    let guard = may_start(alloc, layout, e, x, t)?;
    let sets = change_sets(alloc, layout, Change::end(e, x, Some(t)))?;
    Ok(Rule {
        guard,
        sets,
        control: Control::PopPush(layout.number(t, 0)),
    })
}

// Puts the rule of a task that may start where e ends.
fn put_start(
    alloc: Global,
    layout: &Layout,
    list: &mut RuleList,
    e: u8,
    x: Option<u8>,
    t: u8,
) -> Result<(), AllocError>
    ensures { OnOk result (rules_of list.new ≡ rules_of list.old ++ (if rules.may_follow (seen layout.now) (plan_in layout.now) e x t then rules.start_rule (seen layout.now) (plan_in layout.now) e x t ∷ [] else [])) }
{
    if may_follow(layout, e, x, t) {
        let rule = start_rule(alloc, layout, e, x, t)?;
        list.push(rule)?;
    }
    Ok(())
}

fn start_rules(alloc: Global, layout: &Layout, e: u8, x: Option<u8>) -> Result<RuleList, AllocError>
    ensures { IfOk result (λ r. rules_of r ≡ rules.start_rules (seen layout.now) (plan_in layout.now) e x layout.now.entities) }
{
    let mut list = RuleList::new(alloc);
    for t in (0..layout.entities()).rev() {
        put_start(alloc, layout, &mut list, e, x, t)?;
    }
    Ok(list)
}

// The one below goes on where e ends.
fn pop_rule(alloc: Global, layout: &Layout, e: u8, x: Option<u8>) -> Result<Rule, AllocError>
    ensures { IfOk result (λ r. rule_of r ≡ rules.plain (rules.constant 1) (rules.change_sets (seen layout.now) (plan_in layout.now) (rules.end_change e x None)) Control.Pop) }
{
    let sets = change_sets(alloc, layout, Change::end(e, x, None))?;
    Ok(Rule {
        guard: Expr::Const(1),
        sets,
        control: Control::Pop,
    })
}

// A task starts, or the one below goes on.
fn end_rules(alloc: Global, layout: &Layout, e: u8, x: Option<u8>) -> Result<RuleList, AllocError>
    ensures { IfOk result (λ r. rules_of r ≡ rules.end_rules (seen layout.now) (plan_in layout.now) e x) }
{
    let mut list = start_rules(alloc, layout, e, x)?;
    let pop = pop_rule(alloc, layout, e, x)?;
    list.push(pop)?;
    Ok(list)
}

// The entity goes on after a change, under a task that starts where there is one.
fn change_rules(
    alloc: Global,
    layout: &Layout,
    c: Change,
    way: Way,
    nexts: &[(Expr, u16)],
) -> Result<RuleList, AllocError>
    requires { AreNear (map item_of nexts.now) }
    ensures { IfOk result (λ r. rules_of r ≡ rules.next_rules (seen layout.now) (plan_in layout.now) (width_in layout.now) [] (rules.change_sets (seen layout.now) (plan_in layout.now) (change_of c)) (λ n. going (plan_in layout.now) way.entity way.starts n) (map item_of nexts.now)) }
{
    let sets = change_sets(alloc, layout, c)?;
    next_rules(alloc, layout, &[], sets.items(), way, nexts)
}

// The entity goes on after a change.
fn going_rules(
    alloc: Global,
    layout: &Layout,
    c: Change,
    e: u8,
    nexts: &[(Expr, u16)],
) -> Result<RuleList, AllocError>
    requires { AreNear (map item_of nexts.now) }
    ensures { IfOk result (λ r. rules_of r ≡ rules.next_rules (seen layout.now) (plan_in layout.now) (width_in layout.now) [] (rules.change_sets (seen layout.now) (plan_in layout.now) (change_of c)) (λ n. Control.Goto ((plan_in layout.now).number e n)) (map item_of nexts.now)) }
{
    let way = Way {
        entity: e,
        starts: None,
    };
    change_rules(alloc, layout, c, way, nexts)
}

// The task t starts above the entity after a change.
fn starting_rules(
    alloc: Global,
    layout: &Layout,
    c: Change,
    e: u8,
    t: u8,
    nexts: &[(Expr, u16)],
) -> Result<RuleList, AllocError>
    requires { AreNear (map item_of nexts.now) }
    ensures { IfOk result (λ r. rules_of r ≡ rules.next_rules (seen layout.now) (plan_in layout.now) (width_in layout.now) [] (rules.change_sets (seen layout.now) (plan_in layout.now) (change_of c)) (λ n. Control.Push ((plan_in layout.now).number e n) ((plan_in layout.now).number t 0)) (map item_of nexts.now)) }
{
    let way = Way {
        entity: e,
        starts: Some(t),
    };
    change_rules(alloc, layout, c, way, nexts)
}

// The request of x waits.
fn added_rules(
    alloc: Global,
    layout: &Layout,
    e: u8,
    x: u8,
    nexts: &[(Expr, u16)],
) -> Result<RuleList, AllocError>
    requires { AreNear (map item_of nexts.now) }
    ensures { IfOk result (λ r. rules_of r ≡ rules.added_rules (seen layout.now) (plan_in layout.now) (width_in layout.now) e x (map item_of nexts.now)) }
{
    let list = going_rules(alloc, layout, Change::added(x), e, nexts)?;
    Ok(list)
}

// The request of x starts at once, where no resource is held whose ceiling is as high.
fn pushed_rules(
    alloc: Global,
    layout: &Layout,
    e: u8,
    x: u8,
    nexts: &[(Expr, u16)],
) -> Result<RuleList, AllocError>
    requires { AreNear (map item_of nexts.now) }
    ensures { IfOk result (λ r. rules_of r ≡ pushed_rules layout.now e x (map item_of nexts.now)) }
{
    let given = none_held(alloc, layout, layout.level(x))?;
    let starts = starting_rules(alloc, layout, Change::pushed(x), e, x, nexts)?;
    let list = guarded(alloc, &given, starts)?;
    Ok(list)
}

fn is_above(layout: &Layout, e: u8, x: u8) -> bool
    ensures { result ≡ nat_lt ((seen layout.now).run_level e) ((seen layout.now).level x) }
{
    layout.run_level(e) < layout.level(x)
}

// The request of x starts at once, or it waits.
fn activate_rules(
    alloc: Global,
    layout: &Layout,
    e: u8,
    x: u8,
    nexts: &[(Expr, u16)],
) -> Result<RuleList, AllocError>
    requires { AreNear (map item_of nexts.now) }
    ensures { IfOk result (λ r. rules_of r ≡ rules.activate_rules (seen layout.now) (plan_in layout.now) (width_in layout.now) e x (map item_of nexts.now)) }
{
    let added = added_rules(alloc, layout, e, x, nexts)?;
    if is_above(layout, e, x) {
        let mut list = pushed_rules(alloc, layout, e, x, nexts)?;
        list.append(added)?;
        Ok(list)
    } else {
        Ok(added)
    }
}

// The task t starts where e releases r.
fn push_rules_of(
    alloc: Global,
    layout: &Layout,
    e: u8,
    r: u8,
    nexts: &[(Expr, u16)],
    t: u8,
) -> Result<RuleList, AllocError>
    requires { AreNear (map item_of nexts.now) }
    ensures { IfOk result (λ l. rules_of l ≡ released_rules layout.now e r t (map item_of nexts.now)) }
{
    let given = may_push(alloc, layout, r, t)?;
    let change = Change::released(e, r, Some(t));
    let starts = starting_rules(alloc, layout, change, e, t, nexts)?;
    let list = guarded(alloc, &given, starts)?;
    Ok(list)
}

// The task t is above e and not above the resource r.
fn may_be_pushed(layout: &Layout, e: u8, r: u8, t: u8) -> bool
    ensures { result ≡ (nat_lt ((seen layout.now).run_level e) ((seen layout.now).level t) && nat_le ((seen layout.now).level t) ((seen layout.now).ceiling r)) }
{
    layout.run_level(e) < layout.level(t) && layout.level(t) <= layout.ceiling(r)
}

// Puts the rules of a task that may start where e releases r.
fn put_push(
    alloc: Global,
    layout: &Layout,
    list: &mut RuleList,
    e: u8,
    r: u8,
    nexts: &[(Expr, u16)],
    t: u8,
) -> Result<(), AllocError>
    requires { AreNear (map item_of nexts.now) }
    ensures { OnOk result (rules_of list.new ≡ rules_of list.old ++ (if nat_lt ((seen layout.now).run_level e) ((seen layout.now).level t) && nat_le ((seen layout.now).level t) ((seen layout.now).ceiling r) then released_rules layout.now e r t (map item_of nexts.now) else [])) }
{
    if may_be_pushed(layout, e, r, t) {
        let starts = push_rules_of(alloc, layout, e, r, nexts, t)?;
        list.append(starts)?;
    }
    Ok(())
}

fn push_rules(
    alloc: Global,
    layout: &Layout,
    e: u8,
    r: u8,
    nexts: &[(Expr, u16)],
) -> Result<RuleList, AllocError>
    requires { AreNear (map item_of nexts.now) }
    ensures { IfOk result (λ l. rules_of l ≡ rules.push_rules (seen layout.now) (plan_in layout.now) (width_in layout.now) e r (map item_of nexts.now) layout.now.entities) }
{
    let mut list = RuleList::new(alloc);
    for t in (0..layout.entities()).rev() {
        put_push(alloc, layout, &mut list, e, r, nexts, t)?;
    }
    Ok(list)
}

// No task starts where e releases r.
fn stay_rules(
    alloc: Global,
    layout: &Layout,
    e: u8,
    r: u8,
    nexts: &[(Expr, u16)],
) -> Result<RuleList, AllocError>
    requires { AreNear (map item_of nexts.now) }
    ensures { IfOk result (λ l. rules_of l ≡ rules.next_rules (seen layout.now) (plan_in layout.now) (width_in layout.now) [] (rules.change_sets (seen layout.now) (plan_in layout.now) (rules.released e r None)) (λ n. Control.Goto ((plan_in layout.now).number e n)) (map item_of nexts.now)) }
{
    let list = going_rules(alloc, layout, Change::released(e, r, None), e, nexts)?;
    Ok(list)
}

// A task starts, or e goes on.
fn release_rules(
    alloc: Global,
    layout: &Layout,
    e: u8,
    r: u8,
    nexts: &[(Expr, u16)],
) -> Result<RuleList, AllocError>
    requires { AreNear (map item_of nexts.now) }
    ensures { IfOk result (λ l. rules_of l ≡ rules.release_rules (seen layout.now) (plan_in layout.now) (width_in layout.now) e r (map item_of nexts.now)) }
{
    let mut list = push_rules(alloc, layout, e, r, nexts)?;
    let stays = stay_rules(alloc, layout, e, r, nexts)?;
    list.append(stays)?;
    Ok(list)
}

// The entity takes a resource.
fn get_rules(
    alloc: Global,
    layout: &Layout,
    e: u8,
    r: u8,
    nexts: &[(Expr, u16)],
) -> Result<RuleList, AllocError>
    requires { AreNear (map item_of nexts.now) }
    ensures { IfOk result (λ l. rules_of l ≡ rules.service_rules (seen layout.now) (plan_in layout.now) (width_in layout.now) e (Service.Get r) (map item_of nexts.now)) }
{
    let list = going_rules(alloc, layout, Change::got(e, r), e, nexts)?;
    Ok(list)
}

/// The rules of a service that has no error.
pub fn service_rules(
    alloc: Global,
    layout: &Layout,
    e: u8,
    service: Service,
    nexts: &[(Expr, u16)],
) -> Result<RuleList, AllocError>
    requires { AreNear (map item_of nexts.now) }
    ensures { IfOk result (λ l. rules_of l ≡ rules.service_rules (seen layout.now) (plan_in layout.now) (width_in layout.now) e service (map item_of nexts.now)) }
{
    match service {
        Service::Activate(x) => activate_rules(alloc, layout, e, x.0, nexts),
        Service::Terminate => end_rules(alloc, layout, e, None),
        Service::Chain(x) => end_rules(alloc, layout, e, Some(x.0)),
        Service::Get(r) => get_rules(alloc, layout, e, r, nexts),
        Service::Release(r) => release_rules(alloc, layout, e, r, nexts),
        Service::Schedule
        | Service::DisableAll
        | Service::EnableAll
        | Service::SuspendAll
        | Service::ResumeAll
        | Service::SuspendOs
        | Service::ResumeOs => Ok(RuleList::new(alloc)),
    }
}

fn chain_error(alloc: Global, layout: &Layout, e: u8, x: u8) -> Result<Expr, AllocError>
    ensures { IfOk result (λ t. term_of t ≡ rules.either (rules.last_kept (seen layout.now) (plan_in layout.now) e) (rules.full_others (seen layout.now) (plan_in layout.now) e x)) }
{
    let others = full_others(alloc, layout, e, x)?;
    either(alloc, last_kept(layout, e), others)
}

fn release_error(alloc: Global, layout: &Layout, e: u8, r: u8) -> Result<Expr, AllocError>
    ensures { IfOk result (λ t. term_of t ≡ rules.service_error (seen layout.now) (plan_in layout.now) e (Service.Release r)) }
{
    let last = Expr::Const(r as u32 + 1);
    let is_last = bin(alloc, BinOp::Eq, last_kept(layout, e), last)?;
    negated(alloc, is_last)
}

/// A service has an error.
pub fn service_error(
    alloc: Global,
    layout: &Layout,
    e: u8,
    service: Service,
) -> Result<Expr, AllocError>
    ensures { IfOk result (λ t. term_of t ≡ rules.service_error (seen layout.now) (plan_in layout.now) e service) }
{
    match service {
        Service::Activate(x) => full(alloc, layout, x.0),
        Service::Terminate => Ok(last_kept(layout, e)),
        Service::Chain(x) => chain_error(alloc, layout, e, x.0),
        Service::Get(r) => Ok(layout.cell(Slot::Held(r))),
        Service::Release(r) => release_error(alloc, layout, e, r),
        Service::Schedule
        | Service::DisableAll
        | Service::EnableAll
        | Service::SuspendAll
        | Service::ResumeAll
        | Service::SuspendOs
        | Service::ResumeOs => Ok(Expr::Const(0)),
    }
}
