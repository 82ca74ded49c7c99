// What the expressions of one thing read and test, and their terms.
ghost use Rattle.std.specs.Prelude.{◌≡◌, ◌+◌, ◌-◌, ◌++◌, ◌∷◌, [], ◌<◌, ◌^◌, IfOk, OnOk, map, false};
ghost use Rattle.chk_base.specs.Term.{term_of};
ghost use Rattle.lower_law.specs.Items.{sites, sites_all, term, items, terms_all, items_all, index_check};
ghost use Rattle.lower_law.specs.Statements.{questions, asked, asked_if};
ghost use Rattle.lower_pieces.specs.Joined.{joined, items_of, told};
ghost use Rattle.lower_pieces.specs.Trees.{tree_of, statement_of};
ghost use Rattle.lower_pieces.specs.Within.{LocalsBelow, AllBelow};

use crate::copies::Guard;
use crate::evaluation::Evaluation;
use crate::tree::{ExpressionTree, StatementTree};
use chk_base::expr::Expr;
use std::alloc::{AllocError, Global};

/// The items of the expressions so far, and their terms.
#[derive(Drop)]
pub struct Asked {
    pub evaluation: Evaluation,
    pub terms: Vec<Expr>,
}

impl Asked {
    fn new(alloc: Global, temp: u16, tells: bool) -> Self
        ensures { (result.evaluation.items.items ≡ []) × (result.evaluation.next ≡ temp) × (result.evaluation.tells ≡ tells) × (result.terms.items ≡ []) }
    {
        Asked {
            evaluation: Evaluation {
                next: temp,
                items: Vec::new(alloc),
                tells,
            },
            terms: Vec::new(alloc),
        }
    }

    // One more expression.
    fn ask(&mut self, alloc: Global, base: u16, e: &ExpressionTree) -> Result<(), AllocError>
        requires room { self.old.evaluation.next + sites (tree_of e.now) < 2 ^ 16 }
        requires cells { LocalsBelow (2 ^ 16 - base) (tree_of e.now) }
        ensures items { OnOk result (items_of self.new.evaluation.items.items ≡ items_of self.old.evaluation.items.items ++ told self.old.evaluation.tells (map joined (items base [] self.old.evaluation.next (tree_of e.now)))) }
        ensures next { OnOk result (self.new.evaluation.next ≡ self.old.evaluation.next + sites (tree_of e.now)) }
        ensures tells { self.new.evaluation.tells ≡ self.old.evaluation.tells }
        ensures terms { OnOk result (map term_of self.new.terms.items ≡ map term_of self.old.terms.items ++ term base self.old.evaluation.next (tree_of e.now) ∷ []) }
    {
        let term = self.evaluation.expression(alloc, base, &Guard::Always, e)?;
        self.terms.push(term)?;
        Ok(())
    }

    // One more expression, which is an index of an array of this length.
    #[tactic(auto, using(crate::proofs::Told::told_joined, crate::proofs::Told::told_append, crate::proofs::Appended::joined_append, std::proofs::Common::append_assoc))]
    fn ask_index(
        &mut self,
        alloc: Global,
        base: u16,
        len: u8,
        e: &ExpressionTree,
    ) -> Result<(), AllocError>
        requires room { self.old.evaluation.next + sites (tree_of e.now) < 2 ^ 16 }
        requires cells { LocalsBelow (2 ^ 16 - base) (tree_of e.now) }
        ensures items { OnOk result (items_of self.new.evaluation.items.items ≡ items_of self.old.evaluation.items.items ++ told self.old.evaluation.tells (map joined (items base [] self.old.evaluation.next (tree_of e.now) ++ index_check [] len (term base self.old.evaluation.next (tree_of e.now)) ∷ []))) }
        ensures next { OnOk result (self.new.evaluation.next ≡ self.old.evaluation.next + sites (tree_of e.now)) }
        ensures tells { self.new.evaluation.tells ≡ self.old.evaluation.tells }
        ensures terms { OnOk result (map term_of self.new.terms.items ≡ map term_of self.old.terms.items ++ term base self.old.evaluation.next (tree_of e.now) ∷ []) }
    {
        let term = self.evaluation.expression(alloc, base, &Guard::Always, e)?;
        self.evaluation
            .test_index(alloc, &Guard::Always, len, &term)?;
        self.terms.push(term)?;
        Ok(())
    }
}

// One expression.
fn ask_one(
    alloc: Global,
    base: u16,
    temp: u16,
    tells: bool,
    e: &ExpressionTree,
) -> Result<Asked, AllocError>
    requires room { temp + sites (tree_of e.now) < 2 ^ 16 }
    requires cells { LocalsBelow (2 ^ 16 - base) (tree_of e.now) }
    ensures items { IfOk result (λ a. items_of a.evaluation.items.items ≡ told tells (map joined (items base [] temp (tree_of e.now)))) }
    ensures terms { IfOk result (λ a. map term_of a.terms.items ≡ term base temp (tree_of e.now) ∷ []) }
{
    let mut asked = Asked::new(alloc, temp, tells);
    asked.ask(alloc, base, e)?;
    Ok(asked)
}

// An index, and a value.
#[tactic(auto, using(crate::proofs::Told::told_joined, crate::proofs::Told::told_append, crate::proofs::Appended::joined_append, std::proofs::Common::append_assoc))]
fn ask_element(
    alloc: Global,
    base: u16,
    temp: u16,
    tells: bool,
    len: u8,
    index: &ExpressionTree,
    value: &ExpressionTree,
) -> Result<Asked, AllocError>
    requires room { temp + (sites (tree_of index.now) + sites (tree_of value.now)) < 2 ^ 16 }
    requires cells { LocalsBelow (2 ^ 16 - base) (tree_of index.now) × LocalsBelow (2 ^ 16 - base) (tree_of value.now) }
    ensures items { IfOk result (λ a. items_of a.evaluation.items.items ≡ told tells (map joined (items base [] temp (tree_of index.now) ++ (index_check [] len (term base temp (tree_of index.now)) ∷ items base [] (temp + sites (tree_of index.now)) (tree_of value.now))))) }
    ensures terms { IfOk result (λ a. map term_of a.terms.items ≡ term base temp (tree_of index.now) ∷ term base (temp + sites (tree_of index.now)) (tree_of value.now) ∷ []) }
{
    let mut asked = Asked::new(alloc, temp, tells);
    asked.ask_index(alloc, base, len, index)?;
    asked.ask(alloc, base, value)?;
    Ok(asked)
}

// The arguments of a call.
#[tactic(auto, using(crate::proofs::Walked::trees_more, crate::proofs::Told::told_joined, crate::proofs::Told::told_append, crate::proofs::Appended::joined_append, std::proofs::Common::append_assoc))]
fn ask_arguments(
    alloc: Global,
    base: u16,
    temp: u16,
    tells: bool,
    arguments: &[ExpressionTree],
) -> Result<Asked, AllocError>
    requires room { temp + sites_all (asked (map tree_of arguments.now)) < 2 ^ 16 }
    requires cells { AllBelow (2 ^ 16 - base) (asked (map tree_of arguments.now)) }
    ensures items { IfOk result (λ a. items_of a.evaluation.items.items ≡ told tells (map joined (items_all base temp (asked (map tree_of arguments.now))))) }
    ensures terms { IfOk result (λ a. map term_of a.terms.items ≡ terms_all base temp (asked (map tree_of arguments.now))) }
{
    let mut asked = Asked::new(alloc, temp, tells);
    for argument in arguments {
        asked.ask(alloc, base, argument)?;
    }
    Ok(asked)
}

// What a thing reads and, where tests are told, tests, and its terms.
fn ask_told(
    alloc: Global,
    base: u16,
    temp: u16,
    tells: bool,
    s: &StatementTree,
) -> Result<Asked, AllocError>
    requires room { temp + sites_all (questions (statement_of s.now)) < 2 ^ 16 }
    requires cells { AllBelow (2 ^ 16 - base) (questions (statement_of s.now)) }
    ensures items { IfOk result (λ a. items_of a.evaluation.items.items ≡ told tells (map joined (items_all base temp (questions (statement_of s.now))))) }
    ensures terms { IfOk result (λ a. map term_of a.terms.items ≡ terms_all base temp (questions (statement_of s.now))) }
{
    match s {
        StatementTree::Set { value, .. } => ask_one(alloc, base, temp, tells, value),
        StatementTree::Write { value, .. } => ask_one(alloc, base, temp, tells, value),
        StatementTree::WriteAt {
            len,
            index,
            value,
            ..
        } => ask_element(alloc, base, temp, tells, *len, index, value),
        StatementTree::If { condition, .. } => ask_one(alloc, base, temp, tells, condition),
        StatementTree::Loop { condition, .. } => ask_one(alloc, base, temp, tells, condition),
        StatementTree::Assert { condition, .. } => ask_one(alloc, base, temp, tells, condition),
        StatementTree::Call { arguments, .. } => ask_arguments(alloc, base, temp, tells, arguments),
        StatementTree::Return {
            value: Some(value),
            ..
        } => ask_one(alloc, base, temp, tells, value),
        _ => Ok(Asked::new(alloc, temp, tells)),
    }
}

/// What a thing reads and tests, and its terms, where its body's locals begin at `base` and the values that are read at `temp`.
#[tactic(auto, using(crate::proofs::Told::told_all))]
pub fn ask_thing(
    alloc: Global,
    base: u16,
    temp: u16,
    s: &StatementTree,
) -> Result<Asked, AllocError>
    requires room { temp + sites_all (questions (statement_of s.now)) < 2 ^ 16 }
    requires cells { AllBelow (2 ^ 16 - base) (questions (statement_of s.now)) }
    ensures items { IfOk result (λ a. items_of a.evaluation.items.items ≡ map joined (items_all base temp (questions (statement_of s.now)))) }
    ensures terms { IfOk result (λ a. map term_of a.terms.items ≡ terms_all base temp (questions (statement_of s.now))) }
{
    ask_told(alloc, base, temp, true, s)
}

/// What a thing reads, without its tests.
pub fn ask_reads(
    alloc: Global,
    base: u16,
    temp: u16,
    s: &StatementTree,
) -> Result<Asked, AllocError>
    requires room { temp + sites_all (questions (statement_of s.now)) < 2 ^ 16 }
    requires cells { AllBelow (2 ^ 16 - base) (questions (statement_of s.now)) }
    ensures { IfOk result (λ a. items_of a.evaluation.items.items ≡ told false (map joined (items_all base temp (questions (statement_of s.now))))) }
{
    ask_told(alloc, base, temp, false, s)
}
