// The alternatives of points.
ghost use Rattle.std.specs.Prelude.{◌≡◌, ℕ, ◌++◌, ◌∷◌, [], ◌≤◌, IfOk, OnOk, length, map};
ghost use Rattle.chk_base.specs.Term.{term_of};
ghost use Rattle.guard_prog.specs.Drafts.{plain_alternatives, plain_of as plain_alternative};
ghost use Rattle.one_stack.specs.Built.{concat_below};
ghost use Rattle.one_stack.specs.Near.{AreAllNear, IsNear};
ghost use Rattle.one_stack.specs.Plain.{alternative_of, rule_of, rules_of};
ghost use Rattle.one_stack.specs.Rules as rules;
ghost use Rattle.one_stack.specs.Tables.{plan_in, seen, width_in};
ghost use Rattle.step_ir.specs.Points.{plain_of, points_in};

use crate::layout::Layout;
use crate::points::point_rules;
use crate::rule::{Rule, RuleList};
use crate::terms::{both, copy, negated};
use chk_base::expr::Expr;
use guard_prog::draft::{Alternative, Alternatives, GuardPoints};
use std::alloc::{AllocError, Global};
use step_ir::code::{Code, Point};

// None has held with this one.
fn none_with(alloc: Global, none: &Expr, guard: &Expr) -> Result<Expr, AllocError>
    ensures { IfOk result (λ t. term_of t ≡ rules.both (term_of none.now) (rules.negated (term_of guard.now))) }
{
    let before = copy(alloc, none)?;
    let guard = copy(alloc, guard)?;
    let fails = negated(alloc, guard)?;
    both(alloc, before, fails)
}

// The alternative of a rule, which counts where none before it has.
fn alternative(
    alloc: Global,
    label: u32,
    none: &Expr,
    rule: Rule,
) -> Result<Alternative, AllocError>
    ensures { IfOk result (λ a. plain_alternative a ≡ alternative_of label (term_of none.now) (rule_of rule)) }
{
    let Rule {
        guard,
        sets,
        control,
    } = rule;
    let before = copy(alloc, none)?;
    let guard = both(alloc, before, guard)?;
    Ok(Alternative {
        label,
        guard,
        sets,
        control,
        input: None,
    })
}

// The alternatives of rules: each counts where none before it does.
fn alternatives(
    alloc: Global,
    layout: &Layout,
    e: u8,
    list: RuleList,
) -> Result<Alternatives, AllocError>
    requires { length list ≤ 40000 }
    ensures { IfOk result (λ a. plain_alternatives a ≡ rules.alternatives ((plan_in layout.now).label e) (rules.constant 1) 0 (rules_of list)) }
{
    let mut all = Alternatives::new(alloc);
    let mut none = Expr::Const(1);
    let mut k = 0;
    for rule in list.into_items() {
        let with = none_with(alloc, &none, &rule.guard)?;
        let next = alternative(alloc, layout.label(e, k), &none, rule)?;
        all.push(next)?;
        none = with;
        k += 1;
    }
    Ok(all)
}

/// The alternatives of a point of e.
pub fn point_alternatives(
    alloc: Global,
    layout: &Layout,
    e: u8,
    point: &Point,
) -> Result<Alternatives, AllocError>
    requires { IsNear (plain_of point.now) }
    ensures { IfOk result (λ a. plain_alternatives a ≡ rules.point_alternatives (seen layout.now) (plan_in layout.now) (width_in layout.now) e (plain_of point.now)) }
{
    // There are few tasks, and so there are few rules.
    let _tasks = layout.entities();
    let list = point_rules(alloc, layout, e, point)?;
    alternatives(alloc, layout, e, list)
}

fn put_entity(
    alloc: Global,
    all: &mut GuardPoints,
    layout: &Layout,
    e: u8,
    points: &[Point],
) -> Result<(), AllocError>
    requires { AreAllNear (map plain_of points.now) }
    ensures { OnOk result (map plain_alternatives all.new ≡ map plain_alternatives all.old ++ map (rules.point_alternatives (seen layout.now) (plan_in layout.now) (width_in layout.now) e) (map plain_of points.now)) }
{
    for point in points {
        let alternatives = point_alternatives(alloc, layout, e, point)?;
        all.push(alternatives)?;
    }
    Ok(())
}

fn points_at(code: &Code, e: u8) -> &[Point]
    ensures { map plain_of result.now ≡ points_in code.now e }
{
    match code.entities.get(e as usize) {
        Some(entity) => entity.points.items(),
        None => &[],
    }
}

/// All points of the program: the idle one, at which no turn is taken, and those of the entities in their order.
pub fn all_points(alloc: Global, layout: &Layout, code: &Code) -> Result<GuardPoints, AllocError>
    requires { (e : ℕ) → AreAllNear (points_in code.now e) }
    ensures { IfOk result (λ all. map plain_alternatives all ≡ [] ∷ concat_below layout.now.entities (λ e. map (rules.point_alternatives (seen layout.now) (plan_in layout.now) (width_in layout.now) e) (points_in code.now e))) }
{
    let mut all = GuardPoints::new(alloc);
    all.push(Alternatives::new(alloc))?;
    for e in 0..layout.entities() {
        put_entity(alloc, &mut all, layout, e, points_at(code, e))?;
    }
    Ok(all)
}
