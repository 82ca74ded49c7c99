// Expressions with what each name means and with their types.
ghost use Rattle.std.specs.Prelude.{◌≡◌, IfOk};
ghost use Rattle.c_rules.specs.Files.{meaning};
ghost use Rattle.typed_unit.specs.Views.{expr_of};
ghost use Rattle.typed_unit.specs.TypedExpressions.{nothing_at, length_of, variable_of, array_length, element_of, number_of, parenthesis_of, typed_expression};

use crate::convert::{binary_of, conditional_of, ctype_named, int32, promoted, uint32, unary_of};
use c_rules::meaning::Meaning;
use c_rules::names::Names;
use c_rules::scope::Scope;
use c_unit::expression::{Expression, Number};
use chk_base::place::Place;
use sqlite_items::Boxed;
use std::alloc::{AllocError, Global};
use typed_unit::typed::TypedExpr;

// What stands where a rule is broken.
fn nothing_at(place: Place) -> TypedExpr
    ensures { expr_of result ≡ nothing_at place }
{
    TypedExpr::Number(place, int32(), 0)
}

// The length of an array, as far as 64.
pub(crate) fn length_of(n: u32) -> u8
    ensures { result ≡ length_of n }
{
    n.min(64) as u8
}

// The length of an array with this meaning.
pub(crate) fn array_length(len: Option<u32>) -> u8
    ensures { result ≡ array_length len }
{
    match len {
        None => 0,
        Some(n) => length_of(n),
    }
}

// The value of what has this meaning.
pub(crate) fn variable_of(place: Place, meaning: Meaning) -> TypedExpr
    ensures { expr_of result ≡ variable_of place meaning }
{
    match meaning {
        Meaning::Local(l) => TypedExpr::Local(place, ctype_named(l.type_name), l.number),
        Meaning::Variable(v) => TypedExpr::Global(place, ctype_named(v.type_name), v.number),
        _ => nothing_at(place),
    }
}

// An element of what has this meaning.
fn element_of(
    alloc: Global,
    place: Place,
    meaning: Meaning,
    index: TypedExpr,
) -> Result<TypedExpr, AllocError>
    ensures { IfOk result (λ x. expr_of x ≡ element_of place meaning (expr_of index)) }
{
    match meaning {
        Meaning::Variable(v) => {
            let index = promoted(alloc, index)?;
            Ok(TypedExpr::Element {
                place,
                ctype: ctype_named(v.type_name),
                global: v.number,
                len: array_length(v.len),
                index: Boxed::new(alloc, index)?,
            })
        }
        _ => Ok(nothing_at(place)),
    }
}

fn number_of(n: &Number) -> TypedExpr
    ensures { expr_of result ≡ number_of n.now }
{
    TypedExpr::Number(n.place, if n.unsigned { uint32() } else { int32() }, n.bits)
}

fn parenthesis_of(alloc: Global, place: Place, a: TypedExpr) -> Result<TypedExpr, AllocError>
    ensures { IfOk result (λ x. expr_of x ≡ parenthesis_of place (expr_of a)) }
{
    let t = a.ctype();
    Ok(TypedExpr::Parenthesis(place, t, Boxed::new(alloc, a)?))
}

// An expression in a scope.
pub(crate) fn typed_expression(
    alloc: Global,
    names: &Names<'_>,
    scope: &Scope<'_>,
    e: &Expression,
) -> Result<TypedExpr, AllocError>
    ensures { IfOk result (λ x. expr_of x ≡ typed_expression e.now (meaning names.now scope.now.visible)) }
{
    match e {
        Expression::Number(n) => Ok(number_of(n)),
        Expression::Truth(place, value) => Ok(TypedExpr::Truth(*place, int32(), *value)),
        Expression::Variable(name) => {
            let meaning = names.meaning(scope, name.text.as_bytes());
            Ok(variable_of(name.place, meaning))
        }
        Expression::Element(name, index) => {
            let meaning = names.meaning(scope, name.text.as_bytes());
            let index = typed_expression(alloc, names, scope, index.get())?;
            element_of(alloc, name.place, meaning, index)
        }
        Expression::Parenthesis(place, a) => {
            let a = typed_expression(alloc, names, scope, a.get())?;
            parenthesis_of(alloc, *place, a)
        }
        Expression::Unary(place, op, a) => {
            let a = typed_expression(alloc, names, scope, a.get())?;
            unary_of(alloc, *place, *op, a)
        }
        Expression::Cast(place, to, a) => {
            let a = typed_expression(alloc, names, scope, a.get())?;
            Ok(TypedExpr::Cast(*place, ctype_named(*to), Boxed::new(alloc, a)?))
        }
        Expression::Binary(place, op, a, b) => {
            let a = typed_expression(alloc, names, scope, a.get())?;
            let b = typed_expression(alloc, names, scope, b.get())?;
            binary_of(alloc, *place, *op, a, b)
        }
        Expression::Conditional(place, c, a, b) => {
            let c = typed_expression(alloc, names, scope, c.get())?;
            let a = typed_expression(alloc, names, scope, a.get())?;
            let b = typed_expression(alloc, names, scope, b.get())?;
            conditional_of(alloc, *place, c, a, b)
        }
    }
}
