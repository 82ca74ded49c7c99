// The rules on the names of expressions.
ghost use Rattle.std.specs.Prelude.{◌≡◌};
ghost use Rattle.std.specs.Option.{option_copied};
ghost use Rattle.c_rules.specs.First.{first_of};
ghost use Rattle.c_rules.specs.Files.{meaning};
ghost use Rattle.c_rules.specs.Rules.{use_faults, target_faults, expression_faults, optional_faults, bare_name};

use crate::first::First;
use crate::meaning::Meaning;
use crate::names::Names;
use crate::scope::Scope;
use c_unit::expression::Expression;
use chk_base::place::Place;
use chk_base::text::Name;

// With the faults of a name that stands as value or target.
#[tactic(auto, using(crate::proofs::Firsts::first_of_append), unfolding(crate::specs::Rules::use_faults))]
fn seeing_use(first: First, indexed: bool, meaning: Meaning, place: Place) -> First
    ensures { result.fault ≡ first_of first.fault (use_faults indexed meaning place) }
{
    first
        .seeing(meaning.is_undeclared(), 2, place)
        .seeing(meaning.is_function(), 4, place)
        .seeing(meaning.is_misindexed(indexed), 10, place)
        .seeing(meaning.is_service() || meaning.is_input(), 16, place)
        .seeing(meaning.is_object(), 20, place)
}

// With the faults of a target.
#[tactic(auto, using(crate::proofs::Firsts::first_of_append), unfolding(crate::specs::Rules::target_faults))]
pub(crate) fn seeing_target(first: First, indexed: bool, meaning: Meaning, place: Place) -> First
    ensures { result.fault ≡ first_of first.fault (target_faults indexed meaning place) }
{
    seeing_use(first, indexed, meaning, place).seeing(meaning.is_constant(), 8, place)
}

// With the faults of an expression.
#[tactic(auto, using(crate::proofs::ExpressionParts::of_element, crate::proofs::ExpressionParts::of_two, crate::proofs::ExpressionParts::of_three))]
pub(crate) fn seeing_expression(
    first: First,
    names: &Names<'_>,
    scope: &Scope<'_>,
    e: &Expression,
) -> First
    ensures { result.fault ≡ first_of first.fault (expression_faults e.now (meaning names.now scope.now.visible)) }
{
    match e {
        Expression::Number(_) => first,
        Expression::Truth(_, _) => first,
        Expression::Variable(name) => {
            let meaning = names.meaning(scope, name.text.as_bytes());
            seeing_use(first, false, meaning, name.place)
        }
        Expression::Element(name, index) => {
            let meaning = names.meaning(scope, name.text.as_bytes());
            let first = seeing_use(first, true, meaning, name.place);
            seeing_expression(first, names, scope, index.get())
        }
        Expression::Parenthesis(_, a) => seeing_expression(first, names, scope, a.get()),
        Expression::Unary(_, _, a) => seeing_expression(first, names, scope, a.get()),
        Expression::Cast(_, _, a) => seeing_expression(first, names, scope, a.get()),
        Expression::Binary(_, _, a, b) => {
            let first = seeing_expression(first, names, scope, a.get());
            seeing_expression(first, names, scope, b.get())
        }
        Expression::Conditional(_, c, a, b) => {
            let first = seeing_expression(first, names, scope, c.get());
            let first = seeing_expression(first, names, scope, a.get());
            seeing_expression(first, names, scope, b.get())
        }
    }
}

// The same, where there is one.
pub(crate) fn seeing_optional(
    first: First,
    names: &Names<'_>,
    scope: &Scope<'_>,
    e: &Option<Expression>,
) -> First
    ensures { result.fault ≡ first_of first.fault (optional_faults e.now (meaning names.now scope.now.visible)) }
{
    match e {
        None => first,
        Some(e) => seeing_expression(first, names, scope, e),
    }
}

/// The name that an expression is, where it is a bare name. It takes no memory.
pub fn bare_name(e: &Expression) -> Option<&Name>
    ensures { option_copied result ≡ bare_name e.now }
{
    match e {
        Expression::Variable(name) => Some(name),
        _ => None,
    }
}
