// Rules by which an entity goes on.
ghost use Rattle.std.specs.Prelude.{◌≡◌, ◌++◌, ◌≤◌, IfOk, OnOk, map};
ghost use Rattle.chk_base.specs.Term.{term_of};
ghost use Rattle.guard_prog.specs.Drafts.{plain_sets};
ghost use Rattle.one_stack.specs.Near.{AreNear};
ghost use Rattle.one_stack.specs.Plain.{going, rule_of, rules_of};
ghost use Rattle.one_stack.specs.Rules as rules;
ghost use Rattle.one_stack.specs.Tables.{plan_in, seen, width_in};
ghost use Rattle.step_ir.specs.Points.{item_of};

use crate::after::after;
use crate::layout::Layout;
use crate::rule::{Rule, RuleList};
use crate::sets::put_copies;
use crate::terms::tested;
use chk_base::expr::Expr;
use chk_base::sets::{Set, Sets};
use guard_prog::draft::Control;
use std::alloc::{AllocError, Global};

/// How an entity goes on: its number, and the task that starts above it.
#[derive(Clone, Copy)]
pub struct Way {
    pub entity: u8,
    pub starts: Option<u8>,
}

fn control(layout: &Layout, way: Way, n: u16) -> Control
    requires { n ≤ 2048 }
    ensures { result ≡ going (plan_in layout.now) way.entity way.starts n }
{
    let below = layout.number(way.entity, n);
    match way.starts {
        None => Control::Goto(below),
        Some(t) => Control::Push {
            below,
            start: layout.number(t, 0),
        },
    }
}

// The own sets of a step, and then those of a change.
fn all_sets(alloc: Global, own: &[Set], sets: &[Set]) -> Result<Sets, AllocError>
    ensures { IfOk result (λ all. plain_sets all ≡ plain_sets own.now ++ plain_sets sets.now) }
{
    let mut all = Sets::new(alloc);
    put_copies(alloc, &mut all, own)?;
    put_copies(alloc, &mut all, sets)?;
    Ok(all)
}

fn next_rule(
    alloc: Global,
    layout: &Layout,
    own: &[Set],
    sets: &[Set],
    control: Control,
    next: &Expr,
) -> Result<Rule, AllocError>
    ensures { IfOk result (λ r. rule_of r ≡ rules.plain (rules.tested (rules.after (width_in layout.now) (plain_sets own.now) (term_of next.now))) (plain_sets own.now ++ plain_sets sets.now) control) }
{
    let value = after(alloc, layout.widths(), own, next)?;
    let guard = tested(alloc, value)?;
    let sets = all_sets(alloc, own, sets)?;
    Ok(Rule {
        guard,
        sets,
        control,
    })
}

fn put_nexts(
    alloc: Global,
    layout: &Layout,
    own: &[Set],
    sets: &[Set],
    way: Way,
    nexts: &[(Expr, u16)],
    list: &mut RuleList,
) -> Result<(), AllocError>
    requires { AreNear (map item_of nexts.now) }
    ensures { OnOk result (rules_of list.new ≡ rules_of list.old ++ rules.next_rules (seen layout.now) (plan_in layout.now) (width_in layout.now) (plain_sets own.now) (plain_sets sets.now) (λ n. going (plan_in layout.now) way.entity way.starts n) (map item_of nexts.now)) }
{
    let Some((next, others)) = nexts.split_first() else {
        return Ok(());
    };
    let control = control(layout, way, next.1);
    let rule = next_rule(alloc, layout, own, sets, control, &next.0)?;
    list.push(rule)?;
    put_nexts(alloc, layout, own, sets, way, others, list)
}

/// The entity goes on at the first next that isn't 0 after its own sets.
pub fn next_rules(
    alloc: Global,
    layout: &Layout,
    own: &[Set],
    sets: &[Set],
    way: Way,
    nexts: &[(Expr, u16)],
) -> Result<RuleList, AllocError>
    requires { AreNear (map item_of nexts.now) }
    ensures { IfOk result (λ r. rules_of r ≡ rules.next_rules (seen layout.now) (plan_in layout.now) (width_in layout.now) (plain_sets own.now) (plain_sets sets.now) (λ n. going (plan_in layout.now) way.entity way.starts n) (map item_of nexts.now)) }
{
    let mut list = RuleList::new(alloc);
    put_nexts(alloc, layout, own, sets, way, nexts, &mut list)?;
    Ok(list)
}
