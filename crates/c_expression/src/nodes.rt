// Expressions made of their parts, each part in a box.
ghost use Rattle.std.specs.Prelude.{◌≡◌, IfOk};
ghost use Rattle.c_unit.specs.declared.expression.Expression.TheVariants as e;

use c_unit::expression::{BinaryOperator, Expression, TypeName, UnaryOperator};
use chk_base::place::Place;
use chk_base::text::Name;
use sqlite_items::Boxed;
use std::alloc::{AllocError, Global};

/// A name with an index.
pub(crate) fn element(
    alloc: Global,
    name: Name,
    index: Expression,
) -> Result<Expression, AllocError>
    ensures { IfOk result (λ x. x ≡ e.Element name index) }
{
    Ok(Expression::Element(name, Boxed::new(alloc, index)?))
}

/// An expression in parentheses.
pub(crate) fn parenthesized(
    alloc: Global,
    place: Place,
    value: Expression,
) -> Result<Expression, AllocError>
    ensures { IfOk result (λ x. x ≡ e.Parenthesis place value) }
{
    Ok(Expression::Parenthesis(place, Boxed::new(alloc, value)?))
}

/// An operand after a sign.
pub(crate) fn signed(
    alloc: Global,
    place: Place,
    sign: UnaryOperator,
    operand: Expression,
) -> Result<Expression, AllocError>
    ensures { IfOk result (λ x. x ≡ e.Unary place sign operand) }
{
    Ok(Expression::Unary(place, sign, Boxed::new(alloc, operand)?))
}

/// A cast.
pub(crate) fn cast(
    alloc: Global,
    place: Place,
    type_name: TypeName,
    operand: Expression,
) -> Result<Expression, AllocError>
    ensures { IfOk result (λ x. x ≡ e.Cast place type_name operand) }
{
    Ok(Expression::Cast(place, type_name, Boxed::new(alloc, operand)?))
}

/// Two operands with an operator between them.
pub(crate) fn linked(
    alloc: Global,
    place: Place,
    binary: BinaryOperator,
    left: Expression,
    right: Expression,
) -> Result<Expression, AllocError>
    ensures { IfOk result (λ x. x ≡ e.Binary place binary left right) }
{
    let left = Boxed::new(alloc, left)?;
    let right = Boxed::new(alloc, right)?;
    Ok(Expression::Binary(place, binary, left, right))
}

/// A condition with its two values.
pub(crate) fn conditional(
    alloc: Global,
    place: Place,
    condition: Expression,
    yes: Expression,
    no: Expression,
) -> Result<Expression, AllocError>
    ensures { IfOk result (λ x. x ≡ e.Conditional place condition yes no) }
{
    let condition = Boxed::new(alloc, condition)?;
    let yes = Boxed::new(alloc, yes)?;
    let no = Boxed::new(alloc, no)?;
    Ok(Expression::Conditional(place, condition, yes, no))
}
