// Rules, of which the first whose guard isn't 0 is taken.
ghost use Rattle.std.specs.Prelude.{◌≡◌, ◌++◌, ◌∷◌, [], IfOk, OnOk};
ghost use Rattle.chk_base.specs.Term.{term_of};
ghost use Rattle.one_stack.specs.Plain.{rule_of, rules_of};
ghost use Rattle.one_stack.specs.Rules as rules;

use crate::terms::{both, copy};
use chk_base::expr::Expr;
use chk_base::sets::Sets;
use guard_prog::draft::Control;
use std::alloc::{AllocError, Global};
use std::marker::Model;

/// One of the ways to go on at a point.
#[derive(Drop)]
pub struct Rule {
    pub guard: Expr,
    pub sets: Sets,
    pub control: Control,
}

/// Rules in order.
#[derive(Drop)]
pub struct RuleList {
    items: Vec<Rule>,
}

impl Model for RuleList {
    ghost use Rattle.std.specs.Prelude.{List};
    ghost use Rattle.one_stack.specs.declared.rule.Rule.{Rule};
    ghost use Rattle.chk_base.specs.contracts.expr.Expr as e;
    ghost use Rattle.std.specs.Coded.{codes};

    ghost Value = { List Rule };

    ghost coded = { Prim.hlevel (codes, e.the_row.coded) };

    ghost view = { λ a. a.items.items };
}

impl RuleList {
    pub fn new(alloc: Global) -> Self
        ensures { result ≡ [] }
    {
        RuleList {
            items: Vec::new(alloc),
        }
    }

    pub fn push(&mut self, rule: Rule) -> Result<(), AllocError>
        ensures { OnOk result (self.new ≡ self.old ++ rule ∷ []) }
    {
        self.items.push(rule)?;
        Ok(())
    }

    /// The rules as a list.
    pub fn into_items(self) -> Vec<Rule>
        ensures { result.items ≡ self }
    {
        let RuleList { items } = self;
        items
    }

    /// Puts other rules at the end.
    pub fn append(&mut self, others: RuleList) -> Result<(), AllocError>
        ensures { OnOk result (self.new ≡ self.old ++ others) }
    {
        let mut items = others.into_items();
        self.items.append(&mut items)?;
        Ok(())
    }
}

// Puts a rule that counts only where this holds.
fn put_guarded(
    alloc: Global,
    all: &mut RuleList,
    given: &Expr,
    rule: Rule,
) -> Result<(), AllocError>
    ensures { OnOk result (rules_of all.new ≡ rules_of all.old ++ rules.guarded (term_of given.now) (rule_of rule ∷ [])) }
{
    let Rule {
        guard,
        sets,
        control,
    } = rule;
    let condition = copy(alloc, given)?;
    let guard = both(alloc, condition, guard)?;
    all.push(Rule {
        guard,
        sets,
        control,
    })
}

/// Rules that count only where this holds.
pub fn guarded(alloc: Global, given: &Expr, list: RuleList) -> Result<RuleList, AllocError>
    ensures { IfOk result (λ r. rules_of r ≡ rules.guarded (term_of given.now) (rules_of list)) }
{
    let mut all = RuleList::new(alloc);
    for rule in list.into_items() {
        put_guarded(alloc, &mut all, given, rule)?;
    }
    Ok(all)
}
