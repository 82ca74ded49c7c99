// The read sites and the weight of expressions.
ghost use Rattle.std.specs.Prelude.{◌≡◌, ◌+◌, map};
ghost use Rattle.typed_unit.specs.Views.{expr_of};
ghost use Rattle.lower_law.specs.Counts.{saturated, reads, reads_all, operator_weight, expr_weight, weight_all};

use c_unit::expression::BinaryOperator;
use typed_unit::typed::TypedExpr;

// A sum, as far as a number goes.
pub(crate) fn plus(a: u64, b: u64) -> u64
    ensures { result ≡ saturated (a + b) }
{
    a.saturating_add(b)
}

pub(crate) fn reads(e: &TypedExpr) -> u64
    ensures { result ≡ saturated (reads (expr_of e.now)) }
{
    match e {
        TypedExpr::Number(_, _, _) => 0,
        TypedExpr::Truth(_, _, _) => 0,
        TypedExpr::Local(_, _, _) => 0,
        TypedExpr::Global(_, _, _) => 1,
        TypedExpr::Element { index, .. } => plus(reads(index.get()), 1),
        TypedExpr::Parenthesis(_, _, a) => reads(a.get()),
        TypedExpr::Unary(_, _, _, a) => reads(a.get()),
        TypedExpr::Cast(_, _, a) => reads(a.get()),
        TypedExpr::Binary(_, _, _, a, b) => plus(reads(a.get()), reads(b.get())),
        TypedExpr::Conditional(_, _, c, a, b) => {
            plus(plus(reads(c.get()), reads(a.get())), reads(b.get()))
        }
        TypedExpr::Conversion(_, _, a) => reads(a.get()),
    }
}

fn operator_weight(operator: BinaryOperator) -> u64
    ensures { result ≡ operator_weight operator }
{
    match operator {
        BinaryOperator::Multiply => 64,
        BinaryOperator::Divide => 64,
        BinaryOperator::Remainder => 64,
        BinaryOperator::ShiftLeft => 8,
        BinaryOperator::ShiftRight => 8,
        _ => 1,
    }
}

pub(crate) fn weight(e: &TypedExpr) -> u64
    ensures { result ≡ saturated (expr_weight (expr_of e.now)) }
{
    match e {
        TypedExpr::Number(_, _, _) => 0,
        TypedExpr::Truth(_, _, _) => 0,
        TypedExpr::Local(_, _, _) => 0,
        TypedExpr::Global(_, _, _) => 0,
        TypedExpr::Element { len, index, .. } => plus(weight(index.get()), *len as u64),
        TypedExpr::Parenthesis(_, _, a) => weight(a.get()),
        TypedExpr::Unary(_, _, _, a) => plus(weight(a.get()), 1),
        TypedExpr::Cast(_, _, a) => plus(weight(a.get()), 1),
        TypedExpr::Binary(_, _, operator, a, b) => {
            plus(
                plus(weight(a.get()), weight(b.get())),
                operator_weight(*operator),
            )
        }
        TypedExpr::Conditional(_, _, c, a, b) => {
            plus(
                plus(plus(weight(c.get()), weight(a.get())), weight(b.get())),
                1,
            )
        }
        TypedExpr::Conversion(_, _, a) => weight(a.get()),
    }
}

// The read sites of expressions.
#[tactic(auto, using(crate::proofs::ExpressionParts::reads_more))]
pub(crate) fn reads_all(es: &[TypedExpr]) -> u64
    ensures { result ≡ saturated (reads_all (map expr_of es.now)) }
{
    let mut sum = 0;
    for e in es {
        sum = plus(sum, reads(e));
    }
    sum
}

// What they weigh.
#[tactic(auto, using(crate::proofs::ExpressionParts::weight_more))]
pub(crate) fn weight_all(es: &[TypedExpr]) -> u64
    ensures { result ≡ saturated (weight_all (map expr_of es.now)) }
{
    let mut sum = 0;
    for e in es {
        sum = plus(sum, weight(e));
    }
    sum
}
