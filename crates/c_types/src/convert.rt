// Types and conversions (ISO/IEC 9899:1999, 6.3.1).
ghost use Rattle.std.specs.Prelude.{◌≡◌, true, false, IfOk};
ghost use Rattle.typed_unit.specs.Views.{expr_of};
ghost use Rattle.typed_unit.specs.Conversions.{int32, uint32, ctype_named, same_width, same_sign, same_ctype, is_uint32, promotion, common, converted, promoted, joined, unary_result, unary_of, joining, in_common, each_promoted, binary_of, conditional_of, word_in};

use c_unit::expression::{BinaryOperator, TypeName, UnaryOperator};
use chk_base::place::Place;
use chk_base::word::Width;
use sqlite_items::Boxed;
use std::alloc::{AllocError, Global};
use typed_unit::manner::Manner;
use typed_unit::typed::{CType, TypedExpr};

/// `int`, whose values have 32 bits. It takes no memory.
pub fn int32() -> CType
    ensures { result ≡ int32 }
{
    CType {
        width: Width::W32,
        signed: true,
    }
}

/// `unsigned int`. It takes no memory.
pub fn uint32() -> CType
    ensures { result ≡ uint32 }
{
    CType {
        width: Width::W32,
        signed: false,
    }
}

/// The type that a name of a type stands for (ISO/IEC 9899:1999, 7.18.1.1). It takes no memory.
pub fn ctype_named(name: TypeName) -> CType
    ensures { result ≡ ctype_named name }
{
    match name {
        TypeName::Int8 => CType {
            width: Width::W8,
            signed: true,
        },
        TypeName::Int16 => CType {
            width: Width::W16,
            signed: true,
        },
        TypeName::Int32 => int32(),
        TypeName::Uint8 => CType {
            width: Width::W8,
            signed: false,
        },
        TypeName::Uint16 => CType {
            width: Width::W16,
            signed: false,
        },
        TypeName::Uint32 => uint32(),
        TypeName::Bool => CType {
            width: Width::W1,
            signed: false,
        },
    }
}

fn same_width(a: Width, b: Width) -> bool
    ensures { result ≡ same_width a b }
{
    match (a, b) {
        (Width::W1, Width::W1) => true,
        (Width::W8, Width::W8) => true,
        (Width::W16, Width::W16) => true,
        (Width::W32, Width::W32) => true,
        _ => false,
    }
}

fn same_sign(a: bool, b: bool) -> bool
    ensures { result ≡ same_sign a b }
{
    if a { b } else { !b }
}

fn same_ctype(a: CType, b: CType) -> bool
    ensures { result ≡ same_ctype a b }
{
    same_width(a.width, b.width) && same_sign(a.signed, b.signed)
}

fn is_uint32(t: CType) -> bool
    ensures { result ≡ is_uint32 t }
{
    same_ctype(t, uint32())
}

// The type of an operand of this type after its promotion.
fn promotion(t: CType) -> CType
    ensures { result ≡ promotion t }
{
    if is_uint32(t) { uint32() } else { int32() }
}

// The type in which operands of these types are joined.
fn common(a: CType, b: CType) -> CType
    ensures { result ≡ common a b }
{
    if is_uint32(a) || is_uint32(b) {
        uint32()
    } else {
        int32()
    }
}

// With a conversion to a type, where it has another one.
pub(crate) fn converted(alloc: Global, to: CType, e: TypedExpr) -> Result<TypedExpr, AllocError>
    ensures { IfOk result (λ x. expr_of x ≡ converted to (expr_of e)) }
{
    if same_ctype(to, e.ctype()) {
        return Ok(e);
    }
    let place = e.place();
    Ok(TypedExpr::Conversion(place, to, Boxed::new(alloc, e)?))
}

// An operand after its promotion.
pub(crate) fn promoted(alloc: Global, e: TypedExpr) -> Result<TypedExpr, AllocError>
    ensures { IfOk result (λ x. expr_of x ≡ promoted (expr_of e)) }
{
    let to = promotion(e.ctype());
    converted(alloc, to, e)
}

// An operand that is joined with another in this type.
fn joined(alloc: Global, to: CType, e: TypedExpr) -> Result<TypedExpr, AllocError>
    ensures { IfOk result (λ x. expr_of x ≡ joined to (expr_of e)) }
{
    let e = promoted(alloc, e)?;
    converted(alloc, to, e)
}

fn unary_result(op: UnaryOperator, t: CType) -> CType
    ensures { result ≡ unary_result op t }
{
    match op {
        UnaryOperator::Not => int32(),
        _ => promotion(t),
    }
}

// An operator with one operand.
pub(crate) fn unary_of(
    alloc: Global,
    place: Place,
    op: UnaryOperator,
    a: TypedExpr,
) -> Result<TypedExpr, AllocError>
    ensures { IfOk result (λ x. expr_of x ≡ unary_of place op (expr_of a)) }
{
    let t = unary_result(op, a.ctype());
    let a = promoted(alloc, a)?;
    Ok(TypedExpr::Unary(place, t, op, Boxed::new(alloc, a)?))
}

fn joining(op: BinaryOperator) -> Manner
    ensures { result ≡ joining op }
{
    match op {
        BinaryOperator::Multiply
        | BinaryOperator::Divide
        | BinaryOperator::Remainder
        | BinaryOperator::Add
        | BinaryOperator::Subtract
        | BinaryOperator::And
        | BinaryOperator::Xor
        | BinaryOperator::Or => Manner::Arithmetic,
        BinaryOperator::Less
        | BinaryOperator::LessEqual
        | BinaryOperator::Greater
        | BinaryOperator::GreaterEqual
        | BinaryOperator::Equal
        | BinaryOperator::NotEqual => Manner::Comparing,
        BinaryOperator::ShiftLeft | BinaryOperator::ShiftRight => Manner::Shifting,
        BinaryOperator::LogicalAnd | BinaryOperator::LogicalOr => Manner::Deciding,
    }
}

// An operator between operands that it joins in their common type, with a result of this type.
fn in_common(
    alloc: Global,
    place: Place,
    t: CType,
    op: BinaryOperator,
    a: TypedExpr,
    b: TypedExpr,
) -> Result<TypedExpr, AllocError>
    ensures { IfOk result (λ x. expr_of x ≡ in_common place t op (expr_of a) (expr_of b)) }
{
    let to = common(a.ctype(), b.ctype());
    let a = joined(alloc, to, a)?;
    let b = joined(alloc, to, b)?;
    Ok(TypedExpr::Binary(place, t, op, Boxed::new(alloc, a)?, Boxed::new(alloc, b)?))
}

// An operator between operands that are promoted each, with a result of this type.
fn each_promoted(
    alloc: Global,
    place: Place,
    t: CType,
    op: BinaryOperator,
    a: TypedExpr,
    b: TypedExpr,
) -> Result<TypedExpr, AllocError>
    ensures { IfOk result (λ x. expr_of x ≡ each_promoted place t op (expr_of a) (expr_of b)) }
{
    let a = promoted(alloc, a)?;
    let b = promoted(alloc, b)?;
    Ok(TypedExpr::Binary(place, t, op, Boxed::new(alloc, a)?, Boxed::new(alloc, b)?))
}

// An operator between two operands.
#[tactic(auto, unfolding(typed_unit::specs::Conversions::binary_of))]
pub(crate) fn binary_of(
    alloc: Global,
    place: Place,
    op: BinaryOperator,
    a: TypedExpr,
    b: TypedExpr,
) -> Result<TypedExpr, AllocError>
    ensures { IfOk result (λ x. expr_of x ≡ binary_of place op (expr_of a) (expr_of b)) }
{
    match joining(op) {
        Manner::Arithmetic => {
            let t = common(a.ctype(), b.ctype());
            in_common(alloc, place, t, op, a, b)
        }
        Manner::Comparing => in_common(alloc, place, int32(), op, a, b),
        Manner::Shifting => {
            let t = promotion(a.ctype());
            each_promoted(alloc, place, t, op, a, b)
        }
        Manner::Deciding => each_promoted(alloc, place, int32(), op, a, b),
    }
}

// A condition and two values.
#[tactic(auto, unfolding(typed_unit::specs::Conversions::conditional_of))]
pub(crate) fn conditional_of(
    alloc: Global,
    place: Place,
    c: TypedExpr,
    a: TypedExpr,
    b: TypedExpr,
) -> Result<TypedExpr, AllocError>
    ensures { IfOk result (λ x. expr_of x ≡ conditional_of place (expr_of c) (expr_of a) (expr_of b)) }
{
    let to = common(a.ctype(), b.ctype());
    let c = promoted(alloc, c)?;
    let a = joined(alloc, to, a)?;
    let b = joined(alloc, to, b)?;
    Ok(TypedExpr::Conditional(
        place,
        to,
        Boxed::new(alloc, c)?,
        Boxed::new(alloc, a)?,
        Boxed::new(alloc, b)?,
    ))
}

// A word of 32 bits that is converted to a type.
pub(crate) fn word_in(t: CType, n: u32) -> u32
    ensures { result ≡ word_in t n }
{
    match t.width {
        Width::W1 => if n == 0 { 0 } else { 1 },
        Width::W8 => n % 256,
        Width::W16 => n % 65536,
        Width::W32 => n,
    }
}
