// Expressions over the cells of the program.
ghost use Rattle.std.specs.Prelude.{◌≡◌, IfOk};
ghost use Rattle.chk_base.specs.Term.{term_of};
ghost use Rattle.one_stack.specs.Rules as rules;

use chk_base::expr::{BinOp, Expr, UnOp};
use chk_base::word::Width;
use std::alloc::{AllocError, Global};

pub fn un(alloc: Global, op: UnOp, a: Expr) -> Result<Expr, AllocError>
    ensures { IfOk result (λ t. term_of t ≡ rules.unary op (term_of a)) }
{
    Ok(Expr::Un(op, Box::new(alloc, a)?))
}

pub fn bin(alloc: Global, op: BinOp, a: Expr, b: Expr) -> Result<Expr, AllocError>
    ensures { IfOk result (λ t. term_of t ≡ rules.binary op (term_of a) (term_of b)) }
{
    let left = Box::new(alloc, a)?;
    Ok(Expr::Bin(op, left, Box::new(alloc, b)?))
}

pub fn choose(alloc: Global, c: Expr, a: Expr, b: Expr) -> Result<Expr, AllocError>
    ensures { IfOk result (λ t. term_of t ≡ rules.choice (term_of c) (term_of a) (term_of b)) }
{
    let test = Box::new(alloc, c)?;
    let left = Box::new(alloc, a)?;
    Ok(Expr::Choose(test, left, Box::new(alloc, b)?))
}

pub fn both(alloc: Global, a: Expr, b: Expr) -> Result<Expr, AllocError>
    ensures { IfOk result (λ t. term_of t ≡ rules.both (term_of a) (term_of b)) }
{
    choose(alloc, a, b, Expr::Const(0))
}

pub fn either(alloc: Global, a: Expr, b: Expr) -> Result<Expr, AllocError>
    ensures { IfOk result (λ t. term_of t ≡ rules.either (term_of a) (term_of b)) }
{
    choose(alloc, a, Expr::Const(1), b)
}

pub fn negated(alloc: Global, a: Expr) -> Result<Expr, AllocError>
    ensures { IfOk result (λ t. term_of t ≡ rules.negated (term_of a)) }
{
    un(alloc, UnOp::Not, a)
}

pub fn tested(alloc: Global, a: Expr) -> Result<Expr, AllocError>
    ensures { IfOk result (λ t. term_of t ≡ rules.tested (term_of a)) }
{
    un(alloc, UnOp::Bool, a)
}

// A copy of an expression.
pub fn copy(alloc: Global, expr: &Expr) -> Result<Expr, AllocError>
    ensures { IfOk result (λ t. term_of t ≡ term_of expr.now) }
{
    match expr {
        Expr::Const(n) => Ok(Expr::Const(*n)),
        Expr::Cell { at, signed } => Ok(Expr::Cell {
            at: *at,
            signed: *signed,
        }),
        Expr::Pick {
            base,
            len,
            signed,
            index,
        } => {
            let inner = copy(alloc, index)?;
            Ok(Expr::Pick {
                base: *base,
                len: *len,
                signed: *signed,
                index: Box::new(alloc, inner)?,
            })
        }
        Expr::Un(op, a) => {
            let inner = copy(alloc, a)?;
            un(alloc, *op, inner)
        }
        Expr::Bin(op, a, b) => {
            let left = copy(alloc, a)?;
            let right = copy(alloc, b)?;
            bin(alloc, *op, left, right)
        }
        Expr::Choose(c, a, b) => {
            let test = copy(alloc, c)?;
            let left = copy(alloc, a)?;
            let right = copy(alloc, b)?;
            choose(alloc, test, left, right)
        }
    }
}

fn read_signed(
    alloc: Global,
    cut: UnOp,
    sign: UnOp,
    signed: bool,
    v: Expr,
) -> Result<Expr, AllocError>
    ensures { IfOk result (λ t. term_of t ≡ rules.cut_as cut sign signed (term_of v)) }
{
    let low = un(alloc, cut, v)?;
    if signed {
        un(alloc, sign, low)
    } else {
        Ok(low)
    }
}

fn read_bit(alloc: Global, signed: bool, v: Expr) -> Result<Expr, AllocError>
    ensures { IfOk result (λ t. term_of t ≡ rules.bit_as signed (term_of v)) }
{
    let bit = bin(alloc, BinOp::And, v, Expr::Const(1))?;
    if signed {
        un(alloc, UnOp::Neg, bit)
    } else {
        Ok(bit)
    }
}

// A value that was set to a cell of this width, as the cell is read.
pub fn read_back(alloc: Global, width: Width, signed: bool, v: Expr) -> Result<Expr, AllocError>
    ensures { IfOk result (λ t. term_of t ≡ rules.read_back width signed (term_of v)) }
{
    match width {
        Width::W1 => read_bit(alloc, signed, v),
        Width::W8 => read_signed(alloc, UnOp::Low8, UnOp::Sign8, signed, v),
        Width::W16 => read_signed(alloc, UnOp::Low16, UnOp::Sign16, signed, v),
        Width::W32 => bin(alloc, BinOp::Add, v, Expr::Const(0)),
    }
}
