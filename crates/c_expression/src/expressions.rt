// Readers of expressions.
ghost use Rattle.std.specs.Prelude.{◌≡◌, ◌<◌, ◌≤◌, [], ◌∷◌, length, IfOk};
ghost use Rattle.grammar.specs.Grammar.{Many, Rule, optional, ◌▸◌};
ghost use Rattle.grammar.specs.Reading.{begins};
ghost use Rattle.c_grammar.specs.Factored.{TheExpression, TheLevel, TheNameless, TheParenthesis, TheUnary, after, all_joined, joined};
ghost use Rattle.c_grammar.specs.Next.{expression_firsts};
ghost use Rattle.c_grammar.specs.Written.{choice, index, one_of, operators};
ghost use Rattle.c_expression.specs.Expressions.{after_of, chain_of, choice_of, expression_of, indexed_of, joined_of, level_of, parenthesis_of, unary_of};
ghost use Rattle.c_expression.specs.Reads.{Gives, class_at, written_at};

use crate::lexeme::{
    begins, begins_among, begins_name, begins_number, begins_type, name, number, sign, symbol,
    type_name,
};
use crate::nodes::{cast, conditional, element, linked, parenthesized, signed};
use crate::operators::operator;
use crate::stop::Stop;
use c_grammar::symbol::Symbol;
use c_lex::token::Token;
use c_unit::expression::Expression;
use chk_base::place::Place;
use chk_base::text::Name;
use std::alloc::Global;

/// Does an expression come next?
pub fn begins_expression(tokens: &[Token]) -> bool
    ensures { result ≡ begins class_at expression_firsts tokens.now }
{
    begins_name(tokens)
        || begins_among(
            tokens,
            &[
                Symbol::Minus,
                Symbol::Plus,
                Symbol::Exclamation,
                Symbol::Tilde,
                Symbol::LeftParenthesis,
            ],
        )
        || begins_number(tokens)
        || begins_among(tokens, &[Symbol::True, Symbol::False])
}

/// An expression.
#[cycle(expressions)]
pub fn expression(alloc: Global, tokens: &[Token]) -> Result<(Expression, &[Token]), Stop>
    ensures gives { Gives (λ x. x.1.now) result (Rule TheExpression) tokens.now }
    ensures means { IfOk result (λ x. expression_of (written_at (Rule TheExpression) tokens.now) ≡ x.0) }
    ensures shorter { IfOk result (λ x. length x.1.now < length tokens.now) }
{
    let (first, rest) = unary(alloc, tokens)?;
    after(alloc, first, rest)
}

/// What follows the first operand of an expression.
#[cycle(expressions)]
pub(crate) fn after(
    alloc: Global,
    first: Expression,
    tokens: &[Token],
) -> Result<(Expression, &[Token]), Stop>
    ensures gives { Gives (λ x. x.1.now) result after tokens.now }
    ensures means { IfOk result (λ x. after_of first (written_at after tokens.now) ≡ x.0) }
    ensures not_longer { IfOk result (λ x. length x.1.now ≤ length tokens.now) }
{
    let (value, rest) = all_joined(alloc, first, tokens)?;
    choice(alloc, value, rest)
}

/// The two values of a condition, if they follow it.
#[cycle(expressions)]
#[tactic(auto, using(crate::proofs::Opened::tree_at_is))]
fn choice(
    alloc: Global,
    condition: Expression,
    tokens: &[Token],
) -> Result<(Expression, &[Token]), Stop>
    ensures gives { Gives (λ x. x.1.now) result (choice TheExpression) tokens.now }
    ensures means { IfOk result (λ x. choice_of condition (written_at (choice TheExpression) tokens.now) ≡ x.0) }
    ensures not_longer { IfOk result (λ x. length x.1.now ≤ length tokens.now) }
{
    if !begins(tokens, Symbol::Question) {
        return Ok((condition, tokens));
    }
    let (place, rest) = symbol(tokens, Symbol::Question)?;
    let (yes, rest) = expression(alloc, rest)?;
    let (_, rest) = symbol(rest, Symbol::Colon)?;
    let (no, rest) = expression(alloc, rest)?;
    Ok((conditional(alloc, place, condition, yes, no)?, rest))
}

/// What joins a first operand with others, by the operators of all levels.
#[cycle(expressions)]
fn all_joined(
    alloc: Global,
    first: Expression,
    tokens: &[Token],
) -> Result<(Expression, &[Token]), Stop>
    ensures gives { Gives (λ x. x.1.now) result all_joined tokens.now }
    ensures means { IfOk result (λ x. joined_of 10 first (written_at all_joined tokens.now) ≡ x.0) }
    ensures not_longer { IfOk result (λ x. length x.1.now ≤ length tokens.now) }
{
    joined(alloc, first, tokens, 10)
}

/// What joins a first operand with others, by the operators of the levels below this number.
#[cycle(expressions)]
#[tactic(auto, using(crate::proofs::Opened::tree_at_is))]
fn joined(
    alloc: Global,
    first: Expression,
    tokens: &[Token],
    level: u8,
) -> Result<(Expression, &[Token]), Stop>
    requires { level ≤ 10 }
    ensures gives { Gives (λ x. x.1.now) result (joined level) tokens.now }
    ensures means { IfOk result (λ x. joined_of level first (written_at (joined level) tokens.now) ≡ x.0) }
    ensures not_longer { IfOk result (λ x. length x.1.now ≤ length tokens.now) }
{
    if level == 0 {
        return Ok((first, tokens));
    }
    let below = level - 1;
    let (left, rest) = joined(alloc, first, tokens, below)?;
    chain(alloc, left, rest, below)
}

/// Further operands of a level, each after an operator.
#[cycle(expressions)]
fn chain(
    alloc: Global,
    first: Expression,
    tokens: &[Token],
    level: u8,
) -> Result<(Expression, &[Token]), Stop>
    requires { level < 10 }
    ensures gives { Gives (λ x. x.1.now) result (Many (one_of (operators level) ▸ Rule (TheLevel level))) tokens.now }
    ensures means { IfOk result (λ x. chain_of level first (written_at (Many (one_of (operators level) ▸ Rule (TheLevel level))) tokens.now) ≡ x.0) }
    ensures not_longer { IfOk result (λ x. length x.1.now ≤ length tokens.now) }
{
    let mut so_far = first;
    let mut rest = tokens;
    'items: while let Some((place, binary, after)) = operator(rest, level) {
        let (operand, after) = operand(alloc, after, level)?;
        let next = linked(alloc, place, binary, so_far, operand)?;
        so_far = next;
        rest = after;
    }
    Ok((so_far, rest))
}

/// An operand of a level.
#[cycle(expressions)]
fn operand(alloc: Global, tokens: &[Token], level: u8) -> Result<(Expression, &[Token]), Stop>
    requires { level < 10 }
    ensures gives { Gives (λ x. x.1.now) result (Rule (TheLevel level)) tokens.now }
    ensures means { IfOk result (λ x. level_of level (written_at (Rule (TheLevel level)) tokens.now) ≡ x.0) }
    ensures shorter { IfOk result (λ x. length x.1.now < length tokens.now) }
{
    let (first, rest) = unary(alloc, tokens)?;
    joined(alloc, first, rest, level)
}

/// An operand.
#[cycle(expressions)]
#[tactic(auto, using(crate::proofs::Opened::unary_opened, crate::proofs::Opened::tree_at_is))]
fn unary(alloc: Global, tokens: &[Token]) -> Result<(Expression, &[Token]), Stop>
    ensures gives { Gives (λ x. x.1.now) result (Rule TheUnary) tokens.now }
    ensures means { IfOk result (λ x. unary_of (written_at (Rule TheUnary) tokens.now) ≡ x.0) }
    ensures shorter { IfOk result (λ x. length x.1.now < length tokens.now) }
{
    if begins_name(tokens) {
        let (name, rest) = name(alloc, tokens)?;
        return indexed(alloc, name, rest);
    }
    nameless(alloc, tokens)
}

/// A name's index, if there is one.
#[cycle(expressions)]
#[tactic(auto, using(crate::proofs::Opened::tree_at_is))]
pub(crate) fn indexed(
    alloc: Global,
    name: Name,
    tokens: &[Token],
) -> Result<(Expression, &[Token]), Stop>
    ensures gives { Gives (λ x. x.1.now) result (optional (index TheExpression)) tokens.now }
    ensures means { IfOk result (λ x. indexed_of name (written_at (optional (index TheExpression)) tokens.now) ≡ x.0) }
    ensures not_longer { IfOk result (λ x. length x.1.now ≤ length tokens.now) }
{
    if !begins(tokens, Symbol::LeftBracket) {
        return Ok((Expression::Variable(name), tokens));
    }
    let (_, rest) = symbol(tokens, Symbol::LeftBracket)?;
    let (index, rest) = expression(alloc, rest)?;
    let (_, rest) = symbol(rest, Symbol::RightBracket)?;
    Ok((element(alloc, name, index)?, rest))
}

/// An operand that begins with no name.
#[cycle(expressions)]
#[tactic(auto, using(crate::proofs::Opened::nameless_opened, crate::proofs::Opened::tree_at_is, crate::proofs::Meant::parenthesis_meant))]
pub(crate) fn nameless(alloc: Global, tokens: &[Token]) -> Result<(Expression, &[Token]), Stop>
    ensures gives { Gives (λ x. x.1.now) result (Rule TheNameless) tokens.now }
    ensures means { IfOk result (λ x. unary_of (written_at (Rule TheNameless) tokens.now) ≡ x.0) }
    ensures shorter { IfOk result (λ x. length x.1.now < length tokens.now) }
{
    if let Some((place, sign, rest)) = sign(tokens) {
        let (operand, rest) = unary(alloc, rest)?;
        return Ok((signed(alloc, place, sign, operand)?, rest));
    }
    if begins(tokens, Symbol::LeftParenthesis) {
        let (place, rest) = symbol(tokens, Symbol::LeftParenthesis)?;
        return parenthesis(alloc, place, rest);
    }
    if begins_number(tokens) {
        let (number, rest) = number(tokens)?;
        return Ok((Expression::Number(number), rest));
    }
    if begins(tokens, Symbol::True) {
        let (place, rest) = symbol(tokens, Symbol::True)?;
        return Ok((Expression::Truth(place, true), rest));
    }
    let (place, rest) = symbol(tokens, Symbol::False)?;
    Ok((Expression::Truth(place, false), rest))
}

/// What follows `(`: a cast or an expression.
#[cycle(expressions)]
#[tactic(auto, using(crate::proofs::Opened::parenthesis_opened, crate::proofs::Opened::tree_at_is))]
fn parenthesis(
    alloc: Global,
    place: Place,
    tokens: &[Token],
) -> Result<(Expression, &[Token]), Stop>
    ensures gives { Gives (λ x. x.1.now) result (Rule TheParenthesis) tokens.now }
    ensures means { IfOk result (λ x. parenthesis_of place (written_at (Rule TheParenthesis) tokens.now) ≡ x.0) }
    ensures shorter { IfOk result (λ x. length x.1.now < length tokens.now) }
{
    if begins_type(tokens) {
        let (type_name, rest) = type_name(tokens)?;
        let (_, rest) = symbol(rest, Symbol::RightParenthesis)?;
        let (operand, rest) = unary(alloc, rest)?;
        return Ok((cast(alloc, place, type_name, operand)?, rest));
    }
    let (inner, rest) = expression(alloc, tokens)?;
    let (_, rest) = symbol(rest, Symbol::RightParenthesis)?;
    Ok((parenthesized(alloc, place, inner)?, rest))
}
