// The terms of operators and conversions.
ghost use Rattle.std.specs.Prelude.{◌≡◌, IfOk};
ghost use Rattle.chk_base.specs.Term.{term_of};
ghost use Rattle.chk_base.specs.Term as plain;
ghost use Rattle.lower_law.specs.Items.{extend_term, convert_term, binary_term, unary_term};

use c_unit::expression::{BinaryOperator, UnaryOperator};
use chk_base::expr::{BinOp, Expr, UnOp};
use chk_base::word::Width;
use std::alloc::{AllocError, Global};
use typed_unit::typed::CType;

pub fn un(alloc: Global, op: UnOp, a: Expr) -> Result<Expr, AllocError>
    ensures { IfOk result (λ t. term_of t ≡ plain.Un op (term_of a)) }
{
    Ok(Expr::Un(op, Box::new(alloc, a)?))
}

pub fn bin(alloc: Global, op: BinOp, a: Expr, b: Expr) -> Result<Expr, AllocError>
    ensures { IfOk result (λ t. term_of t ≡ plain.Bin op (term_of a) (term_of b)) }
{
    Ok(Expr::Bin(op, Box::new(alloc, a)?, Box::new(alloc, b)?))
}

pub fn choose(alloc: Global, c: Expr, a: Expr, b: Expr) -> Result<Expr, AllocError>
    ensures { IfOk result (λ t. term_of t ≡ plain.Choose (term_of c) (term_of a) (term_of b)) }
{
    Ok(Expr::Choose(
        Box::new(alloc, c)?,
        Box::new(alloc, a)?,
        Box::new(alloc, b)?,
    ))
}

/// The bits of a cell as a value of the type.
pub fn extend(alloc: Global, t: CType, a: Expr) -> Result<Expr, AllocError>
    ensures { IfOk result (λ e. term_of e ≡ extend_term t (term_of a)) }
{
    match t.width {
        Width::W8 => if t.signed {
            un(alloc, UnOp::Sign8, a)
        } else {
            Ok(a)
        },
        Width::W16 => if t.signed {
            un(alloc, UnOp::Sign16, a)
        } else {
            Ok(a)
        },
        _ => Ok(a),
    }
}

/// A value converted to the type.
pub fn convert(alloc: Global, t: CType, a: Expr) -> Result<Expr, AllocError>
    ensures { IfOk result (λ e. term_of e ≡ convert_term t (term_of a)) }
{
    match t.width {
        Width::W1 => un(alloc, UnOp::Bool, a),
        Width::W8 => un(alloc, if t.signed { UnOp::Sign8 } else { UnOp::Low8 }, a),
        Width::W16 => un(alloc, if t.signed { UnOp::Sign16 } else { UnOp::Low16 }, a),
        Width::W32 => Ok(a),
    }
}

/// The value of an operator on operands that are signed or not.
pub fn binary(
    alloc: Global,
    op: BinaryOperator,
    signed: bool,
    a: Expr,
    b: Expr,
) -> Result<Expr, AllocError>
    ensures { IfOk result (λ e. term_of e ≡ binary_term op signed (term_of a) (term_of b)) }
{
    let less = if signed { BinOp::LtS } else { BinOp::LtU };
    let less_equal = if signed { BinOp::LeS } else { BinOp::LeU };
    match op {
        BinaryOperator::Multiply => bin(alloc, BinOp::Mul, a, b),
        BinaryOperator::Divide => bin(alloc, if signed { BinOp::DivS } else { BinOp::DivU }, a, b),
        BinaryOperator::Remainder => {
            bin(alloc, if signed { BinOp::RemS } else { BinOp::RemU }, a, b)
        }
        BinaryOperator::Add => bin(alloc, BinOp::Add, a, b),
        BinaryOperator::Subtract => bin(alloc, BinOp::Sub, a, b),
        BinaryOperator::ShiftLeft => bin(alloc, BinOp::Shl, a, b),
        BinaryOperator::ShiftRight => {
            bin(alloc, if signed { BinOp::ShrS } else { BinOp::ShrU }, a, b)
        }
        BinaryOperator::Less => bin(alloc, less, a, b),
        BinaryOperator::LessEqual => bin(alloc, less_equal, a, b),
        BinaryOperator::Greater => bin(alloc, less, b, a),
        BinaryOperator::GreaterEqual => bin(alloc, less_equal, b, a),
        BinaryOperator::Equal => bin(alloc, BinOp::Eq, a, b),
        BinaryOperator::NotEqual => un(alloc, UnOp::Not, bin(alloc, BinOp::Eq, a, b)?),
        BinaryOperator::And => bin(alloc, BinOp::And, a, b),
        BinaryOperator::Xor => bin(alloc, BinOp::Xor, a, b),
        BinaryOperator::Or => bin(alloc, BinOp::Or, a, b),
        BinaryOperator::LogicalAnd | BinaryOperator::LogicalOr => Ok(Expr::Const(0)),
    }
}

/// The value of an operator with one operand.
pub fn unary(alloc: Global, op: UnaryOperator, a: Expr) -> Result<Expr, AllocError>
    ensures { IfOk result (λ e. term_of e ≡ unary_term op (term_of a)) }
{
    match op {
        UnaryOperator::Minus => un(alloc, UnOp::Neg, a),
        UnaryOperator::Plus => Ok(a),
        UnaryOperator::Not => un(alloc, UnOp::Not, a),
        UnaryOperator::Complement => un(alloc, UnOp::Inv, a),
    }
}
