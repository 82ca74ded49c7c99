// Readers of calls, and of what follows `=`.
ghost use Rattle.std.specs.Prelude.{◌≡◌, ◌<◌, ◌≤◌, [], ◌∷◌, ◌++◌, length, map, IfOk};
ghost use Rattle.grammar.specs.Grammar.{Many, Rule, items, optional, ◌▸◌};
ghost use Rattle.c_grammar.specs.Factored.{TheExpression, TheRight};
ghost use Rattle.c_grammar.specs.declared.symbol.Symbol.TheVariants.{Comma};
ghost use Rattle.c_grammar.specs.Written.{arguments, called, spelled};
ghost use Rattle.c_expression.specs.Expressions.{argument_of, arguments_of, call_of, further_argument, right_of};
ghost use Rattle.c_expression.specs.Reads.{Gives, written_at};

use crate::expressions::{after, begins_expression, expression, indexed, nameless};
use crate::lexeme::{begins, begins_name, name, place_here, symbol};
use crate::stop::Stop;
use c_grammar::symbol::Symbol;
use c_lex::token::Token;
use c_unit::expression::{Argument, Arguments, Call, RightSide};
use chk_base::text::Name;
use sqlite_items::Items;
use std::alloc::Global;

/// An argument.
#[tactic(auto, using(crate::proofs::Starts::expression_starts))]
fn argument(alloc: Global, tokens: &[Token]) -> Result<(Argument, &[Token]), Stop>
    ensures gives { Gives (λ x. x.1.now) result (Rule TheExpression) tokens.now }
    ensures means { IfOk result (λ x. argument_of (written_at (Rule TheExpression) tokens.now) ≡ x.0) }
    ensures shorter { IfOk result (λ x. length x.1.now < length tokens.now) }
{
    let place = place_here(tokens);
    let (value, rest) = expression(alloc, tokens)?;
    Ok((Argument { place, value }, rest))
}

/// An argument after a comma.
#[tactic(auto, using(crate::proofs::Opened::tree_at_is))]
fn further_argument(alloc: Global, tokens: &[Token]) -> Result<(Argument, &[Token]), Stop>
    ensures gives { Gives (λ x. x.1.now) result (spelled Comma ▸ Rule TheExpression) tokens.now }
    ensures means { IfOk result (λ x. further_argument (written_at (spelled Comma ▸ Rule TheExpression) tokens.now) ≡ x.0) }
    ensures shorter { IfOk result (λ x. length x.1.now < length tokens.now) }
{
    let (_, rest) = symbol(tokens, Symbol::Comma)?;
    argument(alloc, rest)
}

/// Further arguments, put after those that there are.
fn further_arguments(
    arguments: Arguments,
    alloc: Global,
    tokens: &[Token],
) -> Result<(Arguments, &[Token]), Stop>
    ensures gives { Gives (λ x. x.1.now) result (Many (spelled Comma ▸ Rule TheExpression)) tokens.now }
    ensures means { IfOk result (λ x. x.0 ≡ arguments ++ map further_argument (items (written_at (Many (spelled Comma ▸ Rule TheExpression)) tokens.now))) }
    ensures not_longer { IfOk result (λ x. length x.1.now ≤ length tokens.now) }
{
    let mut arguments = arguments;
    let mut rest = tokens;
    'items: while begins(rest, Symbol::Comma) {
        let (argument, after) = further_argument(alloc, rest)?;
        arguments.push(argument)?;
        rest = after;
    }
    Ok((arguments, rest))
}

/// The arguments of a call.
#[tactic(auto, using(crate::proofs::Opened::tree_at_is))]
fn arguments(alloc: Global, tokens: &[Token]) -> Result<(Arguments, &[Token]), Stop>
    ensures gives { Gives (λ x. x.1.now) result (arguments TheExpression) tokens.now }
    ensures means { IfOk result (λ x. arguments_of (written_at (arguments TheExpression) tokens.now) ≡ x.0) }
    ensures not_longer { IfOk result (λ x. length x.1.now ≤ length tokens.now) }
{
    let mut arguments = Items::new(alloc);
    if !begins_expression(tokens) {
        return Ok((arguments, tokens));
    }
    let (first, rest) = argument(alloc, tokens)?;
    arguments.push(first)?;
    further_arguments(arguments, alloc, rest)
}

/// What follows the name of a called function.
#[tactic(auto, using(crate::proofs::Opened::tree_at_is))]
pub fn called(alloc: Global, name: Name, tokens: &[Token]) -> Result<(Call, &[Token]), Stop>
    ensures gives { Gives (λ x. x.1.now) result (called TheExpression) tokens.now }
    ensures means { IfOk result (λ x. call_of name (written_at (called TheExpression) tokens.now) ≡ x.0) }
    ensures shorter { IfOk result (λ x. length x.1.now < length tokens.now) }
{
    let (_, rest) = symbol(tokens, Symbol::LeftParenthesis)?;
    let (arguments, rest) = arguments(alloc, rest)?;
    let (_, rest) = symbol(rest, Symbol::RightParenthesis)?;
    Ok((Call { name, arguments }, rest))
}

/// What follows `=`: a call, or an expression.
#[tactic(auto, using(crate::proofs::Opened::right_opened, crate::proofs::Opened::tree_at_is, crate::proofs::Meant::expression_meant))]
pub fn right(alloc: Global, tokens: &[Token]) -> Result<(RightSide, &[Token]), Stop>
    ensures gives { Gives (λ x. x.1.now) result (Rule TheRight) tokens.now }
    ensures means { IfOk result (λ x. right_of (written_at (Rule TheRight) tokens.now) ≡ x.0) }
    ensures shorter { IfOk result (λ x. length x.1.now < length tokens.now) }
{
    if !begins_name(tokens) {
        let (first, rest) = nameless(alloc, tokens)?;
        let (value, rest) = after(alloc, first, rest)?;
        return Ok((RightSide::Value(value), rest));
    }
    let (name, rest) = name(alloc, tokens)?;
    if begins(rest, Symbol::LeftParenthesis) {
        let (call, rest) = called(alloc, name, rest)?;
        return Ok((RightSide::Call(call), rest));
    }
    let (first, rest) = indexed(alloc, name, rest)?;
    let (value, rest) = after(alloc, first, rest)?;
    Ok((RightSide::Value(value), rest))
}
