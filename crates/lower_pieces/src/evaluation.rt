// An expression becomes items, which are what it reads and tests in order, and a term.
ghost use Rattle.std.specs.Prelude.{◌≡◌, ◌+◌, ◌-◌, ◌++◌, ◌∷◌, [], ◌<◌, ◌≤◌, ◌^◌, IfOk, OnOk, None, Some, map, option_map, false};
ghost use Rattle.chk_base.specs.Term.{term_of, Bin, Cell};
ghost use Rattle.step_ir.specs.Points.{target_of};
ghost use Rattle.lower_law.specs.Items.{sites, term, items, guarded, extend_term, convert_term, binary_term, binary_checks, unary_term, unary_checks, division_checks, index_check};
ghost use Rattle.lower_law.specs.Items as plain;
ghost use Rattle.lower_pieces.specs.Guards.{guard_of, guard_term};
ghost use Rattle.lower_pieces.specs.Joined.{Reads, Tests, joined, items_of, told};
ghost use Rattle.lower_pieces.specs.Trees.{tree_of};
ghost use Rattle.lower_pieces.specs.Within.{LocalsBelow};

use crate::copies::{Guard, copy, guard_test, joined_guard};
use crate::tree::ExpressionTree;
use c_unit::expression::{BinaryOperator, UnaryOperator};
use chk_base::expr::{BinOp, Expr, UnOp};
use lower_law::operations::{bin, binary, choose, convert, extend, un, unary};
use std::alloc::{AllocError, Global};
use step_ir::code::Target;

/// What has to be read or tested, with its guard as one expression.
#[derive(Drop)]
pub enum Item {
    Read {
        guard: Option<Expr>,
        target: Target,
        into: u16,
    },
    Test {
        test: Expr,
        failure: u8,
    },
}

/// The items so far, the next cell for a value that is read, and whether tests are told: where they aren't, the items are reads alone.
#[derive(Drop)]
pub struct Evaluation {
    pub next: u16,
    pub items: Vec<Item>,
    pub tells: bool,
}

impl Evaluation {
    #[tactic(auto, using(crate::proofs::Appended::items_of_append))]
    fn test(
        &mut self,
        alloc: Global,
        guard: &Guard<'_>,
        test: Expr,
        failure: u8,
    ) -> Result<(), AllocError>
        ensures items { OnOk result (items_of self.new.items.items ≡ items_of self.old.items.items ++ joined (plain.Check (guard_of guard.now) (term_of test) failure) ∷ []) }
        ensures next { self.new.next ≡ self.old.next }
        ensures tells { self.new.tells ≡ self.old.tells }
    {
        let test = guard_test(alloc, guard, test)?;
        self.items.push(Item::Test { test, failure })?;
        Ok(())
    }

    // A read, whose value goes into the next cell.
    #[tactic(auto, using(crate::proofs::Appended::items_of_append))]
    fn read(&mut self, alloc: Global, guard: &Guard<'_>, target: Target) -> Result<Expr, AllocError>
        requires { self.old.next + 1 < 2 ^ 16 }
        ensures items { OnOk result (items_of self.new.items.items ≡ items_of self.old.items.items ++ joined (plain.Site (guard_of guard.now) (target_of target) self.old.next) ∷ []) }
        ensures next { OnOk result (self.new.next ≡ self.old.next + 1) }
        ensures tells { self.new.tells ≡ self.old.tells }
        ensures term { IfOk result (λ e. term_of e ≡ Cell self.old.next false) }
    {
        let guard = joined_guard(alloc, guard)?;
        let into = self.next;
        self.items.push(Item::Read {
            guard,
            target,
            into,
        })?;
        self.next += 1;
        Ok(Expr::Cell {
            at: into,
            signed: false,
        })
    }

    // The tests of a division: a divisor of 0, and then the least number by -1.
    #[tactic(auto, using(crate::proofs::Appended::items_of_append, std::proofs::Common::append_assoc))]
    fn test_division(
        &mut self,
        alloc: Global,
        guard: &Guard<'_>,
        signed: bool,
        a: &Expr,
        b: &Expr,
    ) -> Result<(), AllocError>
        ensures items { OnOk result (items_of self.new.items.items ≡ items_of self.old.items.items ++ map joined (division_checks (guard_of guard.now) signed (term_of a.now) (term_of b.now))) }
        ensures next { self.new.next ≡ self.old.next }
        ensures tells { self.new.tells ≡ self.old.tells }
    {
        let zero = bin(alloc, BinOp::Eq, copy(alloc, b)?, Expr::Const(0))?;
        self.test(alloc, guard, zero, 4)?;
        if !signed {
            return Ok(());
        }
        let least = bin(alloc, BinOp::Eq, copy(alloc, a)?, Expr::Const(0x8000_0000))?;
        let minus_one = bin(alloc, BinOp::Eq, copy(alloc, b)?, Expr::Const(0xffff_ffff))?;
        self.test(alloc, &Guard::When(&least, guard), minus_one, 3)
    }

    // The test whether a signed result leaves its range.
    fn test_range(
        &mut self,
        alloc: Global,
        guard: &Guard<'_>,
        op: BinOp,
        a: &Expr,
        b: &Expr,
    ) -> Result<(), AllocError>
        ensures items { OnOk result (items_of self.new.items.items ≡ items_of self.old.items.items ++ joined (plain.Check (guard_of guard.now) (Bin op (term_of a.now) (term_of b.now)) 3) ∷ []) }
        ensures next { self.new.next ≡ self.old.next }
        ensures tells { self.new.tells ≡ self.old.tells }
    {
        let test = bin(alloc, op, copy(alloc, a)?, copy(alloc, b)?)?;
        self.test(alloc, guard, test, 3)
    }

    // The tests of an operator.
    #[tactic(auto, using(crate::proofs::Appended::append_none))]
    fn test_binary(
        &mut self,
        alloc: Global,
        guard: &Guard<'_>,
        op: BinaryOperator,
        signed: bool,
        a: &Expr,
        b: &Expr,
    ) -> Result<(), AllocError>
        ensures items { OnOk result (items_of self.new.items.items ≡ items_of self.old.items.items ++ map joined (binary_checks (guard_of guard.now) op signed (term_of a.now) (term_of b.now))) }
        ensures next { self.new.next ≡ self.old.next }
        ensures tells { self.new.tells ≡ self.old.tells }
    {
        match op {
            BinaryOperator::Multiply if signed => {
                self.test_range(alloc, guard, BinOp::MulOver, a, b)
            }
            BinaryOperator::Add if signed => self.test_range(alloc, guard, BinOp::AddOver, a, b),
            BinaryOperator::Subtract if signed => {
                self.test_range(alloc, guard, BinOp::SubOver, a, b)
            }
            BinaryOperator::Divide | BinaryOperator::Remainder => {
                self.test_division(alloc, guard, signed, a, b)
            }
            BinaryOperator::ShiftLeft | BinaryOperator::ShiftRight => {
                let test = bin(alloc, BinOp::LeU, Expr::Const(32), copy(alloc, b)?)?;
                self.test(alloc, guard, test, 5)
            }
            _ => Ok(()),
        }
    }

    // The test of an operator with one operand, if there is one.
    #[tactic(auto, using(crate::proofs::Appended::append_none))]
    fn test_unary(
        &mut self,
        alloc: Global,
        guard: &Guard<'_>,
        op: UnaryOperator,
        signed: bool,
        a: &Expr,
    ) -> Result<(), AllocError>
        ensures items { OnOk result (items_of self.new.items.items ≡ items_of self.old.items.items ++ map joined (unary_checks (guard_of guard.now) op signed (term_of a.now))) }
        ensures next { self.new.next ≡ self.old.next }
        ensures tells { self.new.tells ≡ self.old.tells }
    {
        match op {
            UnaryOperator::Minus if signed => {
                self.test_range(alloc, guard, BinOp::SubOver, &Expr::Const(0), a)
            }
            _ => Ok(()),
        }
    }

    // The test of an index, and the read of its element.
    #[tactic(auto, using(crate::proofs::Told::told_append, std::proofs::Common::append_assoc))]
    fn read_element(
        &mut self,
        alloc: Global,
        guard: &Guard<'_>,
        cell: u16,
        len: u8,
        index: Expr,
    ) -> Result<Expr, AllocError>
        requires { self.old.next + 1 < 2 ^ 16 }
        ensures items { OnOk result (items_of self.new.items.items ≡ items_of self.old.items.items ++ told self.old.tells (joined (index_check (guard_of guard.now) len (term_of index)) ∷ joined (plain.Site (guard_of guard.now) (record { base = cell; len = len; index = Some (term_of index) }) self.old.next) ∷ [])) }
        ensures next { OnOk result (self.new.next ≡ self.old.next + 1) }
        ensures tells { self.new.tells ≡ self.old.tells }
        ensures term { IfOk result (λ e. term_of e ≡ Cell self.old.next false) }
    {
        self.test_index(alloc, guard, len, &index)?;
        self.read(
            alloc,
            guard,
            Target {
                base: cell,
                len,
                index: Some(index),
            },
        )
    }

    /// The test of an index, where tests are told.
    #[tactic(auto, using(crate::proofs::Told::told_when, crate::proofs::Told::index_untold, crate::proofs::Appended::append_none))]
    pub fn test_index(
        &mut self,
        alloc: Global,
        guard: &Guard<'_>,
        len: u8,
        index: &Expr,
    ) -> Result<(), AllocError>
        ensures items { OnOk result (items_of self.new.items.items ≡ items_of self.old.items.items ++ told self.old.tells (joined (index_check (guard_of guard.now) len (term_of index.now)) ∷ [])) }
        ensures next { self.new.next ≡ self.old.next }
        ensures tells { self.new.tells ≡ self.old.tells }
    {
        if !self.tells {
            return Ok(());
        }
        let test = bin(
            alloc,
            BinOp::LeU,
            Expr::Const(len as u32),
            copy(alloc, index)?,
        )?;
        self.test(alloc, guard, test, 6)
    }

    // The tests of an operator, where tests are told, and its value.
    #[tactic(auto, using(crate::proofs::Told::told_when, crate::proofs::Told::binary_untold, crate::proofs::Appended::append_none))]
    fn operate(
        &mut self,
        alloc: Global,
        guard: &Guard<'_>,
        op: BinaryOperator,
        signed: bool,
        a: Expr,
        b: Expr,
    ) -> Result<Expr, AllocError>
        ensures items { OnOk result (items_of self.new.items.items ≡ items_of self.old.items.items ++ told self.old.tells (map joined (binary_checks (guard_of guard.now) op signed (term_of a) (term_of b)))) }
        ensures next { self.new.next ≡ self.old.next }
        ensures tells { self.new.tells ≡ self.old.tells }
        ensures term { IfOk result (λ t. term_of t ≡ binary_term op signed (term_of a) (term_of b)) }
    {
        if self.tells {
            self.test_binary(alloc, guard, op, signed, &a, &b)?;
        }
        binary(alloc, op, signed, a, b)
    }

    // The test of an operator with one operand, where tests are told, and its value.
    #[tactic(auto, using(crate::proofs::Told::told_when, crate::proofs::Told::unary_untold, crate::proofs::Appended::append_none))]
    fn operate_one(
        &mut self,
        alloc: Global,
        guard: &Guard<'_>,
        op: UnaryOperator,
        signed: bool,
        a: Expr,
    ) -> Result<Expr, AllocError>
        ensures items { OnOk result (items_of self.new.items.items ≡ items_of self.old.items.items ++ told self.old.tells (map joined (unary_checks (guard_of guard.now) op signed (term_of a)))) }
        ensures next { self.new.next ≡ self.old.next }
        ensures tells { self.new.tells ≡ self.old.tells }
        ensures term { IfOk result (λ t. term_of t ≡ unary_term op (term_of a)) }
    {
        if self.tells {
            self.test_unary(alloc, guard, op, signed, &a)?;
        }
        unary(alloc, op, a)
    }

    /// The term of an expression, after its items, where the guard holds. `base` is the first cell of the locals.
    #[tactic(auto, using(crate::proofs::Told::told_joined, std::proofs::Common::append_assoc))]
    pub fn expression(
        &mut self,
        alloc: Global,
        base: u16,
        guard: &Guard<'_>,
        e: &ExpressionTree,
    ) -> Result<Expr, AllocError>
        requires room { self.old.next + sites (tree_of e.now) < 2 ^ 16 }
        requires cells { LocalsBelow (2 ^ 16 - base) (tree_of e.now) }
        ensures items { OnOk result (items_of self.new.items.items ≡ items_of self.old.items.items ++ told self.old.tells (map joined (items base (guard_of guard.now) self.old.next (tree_of e.now)))) }
        ensures next { OnOk result (self.new.next ≡ self.old.next + sites (tree_of e.now)) }
        ensures tells { self.new.tells ≡ self.old.tells }
        ensures term { IfOk result (λ t. term_of t ≡ term base self.old.next (tree_of e.now)) }
    {
        match e {
            ExpressionTree::Number(n) => Ok(Expr::Const(*n)),
            ExpressionTree::Local { at, ctype } => extend(
                alloc,
                *ctype,
                Expr::Cell {
                    at: base + *at,
                    signed: false,
                },
            ),
            ExpressionTree::Global { cell, ctype } => {
                let a = self.read(
                    alloc,
                    guard,
                    Target {
                        base: *cell,
                        len: 1,
                        index: None,
                    },
                )?;
                extend(alloc, *ctype, a)
            }
            ExpressionTree::Element {
                cell,
                len,
                ctype,
                index,
            } => {
                let i = self.expression(alloc, base, guard, index)?;
                let a = self.read_element(alloc, guard, *cell, *len, i)?;
                extend(alloc, *ctype, a)
            }
            ExpressionTree::Binary(op, signed, a, b) => {
                let a = self.expression(alloc, base, guard, a)?;
                let b = self.expression(alloc, base, guard, b)?;
                self.operate(alloc, guard, *op, *signed, a, b)
            }
            ExpressionTree::Unary(op, signed, a) => {
                let a = self.expression(alloc, base, guard, a)?;
                self.operate_one(alloc, guard, *op, *signed, a)
            }
            ExpressionTree::Conjunction(a, b) => {
                let a = self.expression(alloc, base, guard, a)?;
                let b = self.expression(alloc, base, &Guard::When(&a, guard), b)?;
                choose(alloc, a, un(alloc, UnOp::Bool, b)?, Expr::Const(0))
            }
            ExpressionTree::Disjunction(a, b) => {
                let a = self.expression(alloc, base, guard, a)?;
                let not = un(alloc, UnOp::Not, copy(alloc, &a)?)?;
                let b = self.expression(alloc, base, &Guard::When(&not, guard), b)?;
                choose(alloc, a, Expr::Const(1), un(alloc, UnOp::Bool, b)?)
            }
            ExpressionTree::Conditional(c, a, b) => {
                let c = self.expression(alloc, base, guard, c)?;
                let not = un(alloc, UnOp::Not, copy(alloc, &c)?)?;
                let a = self.expression(alloc, base, &Guard::When(&c, guard), a)?;
                let b = self.expression(alloc, base, &Guard::When(&not, guard), b)?;
                choose(alloc, c, a, b)
            }
            ExpressionTree::Converted(t, a) => {
                let a = self.expression(alloc, base, guard, a)?;
                convert(alloc, *t, a)
            }
        }
    }
}
