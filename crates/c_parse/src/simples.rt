// Readers of locals and simple statements.
ghost use Rattle.std.specs.Prelude.{◌≡◌, ◌<◌, ◌≤◌, [], ◌∷◌, ◌++◌, length, map, true, false, ◌||◌, IfOk, IfSome, IfNone};
ghost use Rattle.grammar.specs.Grammar.{Many, Rule, has, items, optional, ◌▸◌};
ghost use Rattle.grammar.specs.Reading.{Got, begins};
ghost use Rattle.c_grammar.specs.declared.symbol.Symbol.TheVariants.{Assign, Comma, LeftBracket, RightBracket};
ghost use Rattle.c_grammar.specs.Factored.{TheChange, TheExpression, TheLocal, TheRight, TheSimple};
ghost use Rattle.c_grammar.specs.Next.{classes, local_firsts, simple_firsts};
ghost use Rattle.c_grammar.specs.Written.{assertion, declarator, local_qualifiers, local_words, one_of, spelled};
ghost use Rattle.c_expression.specs.Lexemes.{has_const, is_const, is_spelled};
ghost use Rattle.c_expression.specs.Reads.{Gives, class_at, reads, tree_at, written_at};
ghost use Rattle.c_parse.specs.Statements.{assertion_of, assign_of, change_of, declarator_of, element_of, further_declarator, initial_of, local_of, simple_of};

use c_expression::calls::{called, right};
use c_expression::expressions::expression;
use c_expression::lexeme::{
    begins, begins_among, begins_name, begins_type, is, name, symbol, type_name,
};
use c_expression::operators::assigned;
use c_expression::stop::Stop;
use c_grammar::symbol::Symbol;
use c_lex::token::Token;
use c_unit::expression::RightSide;
use c_unit::statement::{Declarator, Declarators, Local, Simple};
use chk_base::text::Name;
use sqlite_items::Items;
use std::alloc::Global;

/// Does the declaration of a local, or a parameter, come next?
pub(crate) fn begins_local(tokens: &[Token]) -> bool
    ensures { result ≡ begins class_at local_firsts tokens.now }
{
    begins_among(tokens, &[Symbol::Const, Symbol::Volatile]) || begins_type(tokens)
}

/// Does a simple statement come next?
pub(crate) fn begins_simple(tokens: &[Token]) -> bool
    ensures { result ≡ begins class_at simple_firsts tokens.now }
{
    begins_name(tokens)
        || begins_among(
            tokens,
            &[Symbol::PlusPlus, Symbol::MinusMinus, Symbol::Assert],
        )
}

/// Which of two words the token is: whether it is the first of them.
#[tactic(auto, using(c_expression::proofs::Opened::or_false))]
pub(crate) fn which(token: &Token, first: Symbol, second: Symbol) -> Option<bool>
    ensures some { IfSome result (λ x. is_spelled first token.now ≡ x) }
    ensures found { IfSome result (λ _. has (classes (first ∷ second ∷ [])) (class_at token.now) ≡ true) }
    ensures none { IfNone result (has (classes (first ∷ second ∷ [])) (class_at token.now) ≡ false) }
{
    if is(token, first) {
        Some(true)
    } else if is(token, second) {
        Some(false)
    } else {
        None
    }
}

/// A qualifier of a local or a parameter, if one comes next: whether it is `const`.
#[tactic(auto, unfolding(c_expression::specs::Reads::tree_at))]
fn local_qualifier(tokens: &[Token]) -> Option<(bool, &[Token])>
    ensures gives { IfSome result (λ x. reads (one_of local_words) tokens.now ≡ Got (tree_at (one_of local_words) tokens.now) x.1.now) }
    ensures means { IfSome result (λ x. is_const (written_at (one_of local_words) tokens.now) ≡ x.0) }
    ensures begins { IfSome result (λ x. begins class_at (classes local_words) tokens.now ≡ true) }
    ensures none { IfNone result (begins class_at (classes local_words) tokens.now ≡ false) }
    ensures shorter { IfSome result (λ x. length x.1.now < length tokens.now) }
{
    match tokens {
        [first, rest @ ..] => match which(first, Symbol::Const, Symbol::Volatile) {
            Some(is_const) => Some((is_const, rest)),
            None => None,
        },
        [] => None,
    }
}

pub(crate) fn either(one: bool, other: bool) -> bool
    ensures { result ≡ (one || other) }
{
    one || other
}

/// The qualifiers of a local or a parameter: whether `const` is among them.
pub(crate) fn local_qualifiers(tokens: &[Token]) -> (bool, &[Token])
    ensures gives { reads local_qualifiers tokens.now ≡ Got (tree_at local_qualifiers tokens.now) result.1.now }
    ensures means { has_const (written_at local_qualifiers tokens.now) ≡ result.0 }
    ensures not_longer { length result.1.now ≤ length tokens.now }
{
    let mut constant = false;
    let mut rest = tokens;
    'items: while let Some((is_const, after)) = local_qualifier(rest) {
        constant = either(constant, is_const);
        rest = after;
    }
    (constant, rest)
}

/// What follows the name of a declared local.
#[tactic(auto, using(c_expression::proofs::Opened::tree_at_is))]
fn initial(alloc: Global, tokens: &[Token]) -> Result<(Option<RightSide>, &[Token]), Stop>
    ensures gives { Gives (λ x. x.1.now) result (optional (spelled Assign ▸ Rule TheRight)) tokens.now }
    ensures means { IfOk result (λ x. initial_of (written_at (optional (spelled Assign ▸ Rule TheRight)) tokens.now) ≡ x.0) }
    ensures not_longer { IfOk result (λ x. length x.1.now ≤ length tokens.now) }
{
    if !begins(tokens, Symbol::Assign) {
        return Ok((None, tokens));
    }
    let (_, rest) = symbol(tokens, Symbol::Assign)?;
    let (value, rest) = right(alloc, rest)?;
    Ok((Some(value), rest))
}

/// A declared local.
#[tactic(auto, using(c_expression::proofs::Opened::tree_at_is))]
fn declarator(alloc: Global, tokens: &[Token]) -> Result<(Declarator, &[Token]), Stop>
    ensures gives { Gives (λ x. x.1.now) result (declarator TheRight) tokens.now }
    ensures means { IfOk result (λ x. declarator_of (written_at (declarator TheRight) tokens.now) ≡ x.0) }
    ensures shorter { IfOk result (λ x. length x.1.now < length tokens.now) }
{
    let (name, rest) = name(alloc, tokens)?;
    let (initial, rest) = initial(alloc, rest)?;
    Ok((Declarator { name, initial }, rest))
}

/// A declared local after a comma.
#[tactic(auto, using(c_expression::proofs::Opened::tree_at_is))]
fn further_declarator(alloc: Global, tokens: &[Token]) -> Result<(Declarator, &[Token]), Stop>
    ensures gives { Gives (λ x. x.1.now) result (spelled Comma ▸ declarator TheRight) tokens.now }
    ensures means { IfOk result (λ x. further_declarator (written_at (spelled Comma ▸ declarator TheRight) tokens.now) ≡ x.0) }
    ensures shorter { IfOk result (λ x. length x.1.now < length tokens.now) }
{
    let (_, rest) = symbol(tokens, Symbol::Comma)?;
    let (declarator, rest) = declarator(alloc, rest)?;
    Ok((declarator, rest))
}

/// Further declared locals, put after those that there are.
fn further_declarators(
    declarators: Declarators,
    alloc: Global,
    tokens: &[Token],
) -> Result<(Declarators, &[Token]), Stop>
    ensures gives { Gives (λ x. x.1.now) result (Many (spelled Comma ▸ declarator TheRight)) tokens.now }
    ensures means { IfOk result (λ x. x.0 ≡ declarators ++ map further_declarator (items (written_at (Many (spelled Comma ▸ declarator TheRight)) tokens.now))) }
    ensures not_longer { IfOk result (λ x. length x.1.now ≤ length tokens.now) }
{
    let mut declarators = declarators;
    let mut rest = tokens;
    'items: while begins(rest, Symbol::Comma) {
        let (declarator, after) = further_declarator(alloc, rest)?;
        declarators.push(declarator)?;
        rest = after;
    }
    Ok((declarators, rest))
}

/// The declaration of locals.
#[tactic(auto, using(crate::proofs::Opened::local_opened, c_expression::proofs::Opened::tree_at_is))]
pub(crate) fn local(alloc: Global, tokens: &[Token]) -> Result<(Local, &[Token]), Stop>
    ensures gives { Gives (λ x. x.1.now) result (Rule TheLocal) tokens.now }
    ensures means { IfOk result (λ x. local_of (written_at (Rule TheLocal) tokens.now) ≡ x.0) }
    ensures shorter { IfOk result (λ x. length x.1.now < length tokens.now) }
{
    let (constant, rest) = local_qualifiers(tokens);
    let (type_name, rest) = type_name(rest)?;
    let (first, rest) = declarator(alloc, rest)?;
    let mut declarators = Items::new(alloc);
    declarators.push(first)?;
    let (declarators, rest) = further_declarators(declarators, alloc, rest)?;
    Ok((
        Local {
            type_name,
            constant,
            declarators,
        },
        rest,
    ))
}

/// `=` and what follows it, after a name.
#[tactic(auto, using(c_expression::proofs::Opened::tree_at_is))]
fn assign(alloc: Global, name: Name, tokens: &[Token]) -> Result<(Simple, &[Token]), Stop>
    ensures gives { Gives (λ x. x.1.now) result (spelled Assign ▸ Rule TheRight) tokens.now }
    ensures means { IfOk result (λ x. assign_of name (written_at (spelled Assign ▸ Rule TheRight) tokens.now) ≡ x.0) }
    ensures shorter { IfOk result (λ x. length x.1.now < length tokens.now) }
{
    let (_, rest) = symbol(tokens, Symbol::Assign)?;
    let (value, rest) = right(alloc, rest)?;
    Ok((Simple::Assign(name, value), rest))
}

/// An index, `=` and a value, after a name.
#[tactic(auto, using(c_expression::proofs::Opened::tree_at_is))]
fn assign_element(alloc: Global, name: Name, tokens: &[Token]) -> Result<(Simple, &[Token]), Stop>
    ensures gives { Gives (λ x. x.1.now) result (spelled LeftBracket ▸ Rule TheExpression ▸ spelled RightBracket ▸ spelled Assign ▸ Rule TheExpression) tokens.now }
    ensures means { IfOk result (λ x. element_of name (written_at (spelled LeftBracket ▸ Rule TheExpression ▸ spelled RightBracket ▸ spelled Assign ▸ Rule TheExpression) tokens.now) ≡ x.0) }
    ensures shorter { IfOk result (λ x. length x.1.now < length tokens.now) }
{
    let (_, rest) = symbol(tokens, Symbol::LeftBracket)?;
    let (index, rest) = expression(alloc, rest)?;
    let (_, rest) = symbol(rest, Symbol::RightBracket)?;
    let (_, rest) = symbol(rest, Symbol::Assign)?;
    let (value, rest) = expression(alloc, rest)?;
    Ok((Simple::AssignElement(name, index, value), rest))
}

/// What follows the name that a simple statement begins with.
#[tactic(auto, using(crate::proofs::Opened::change_opened, c_expression::proofs::Opened::tree_at_is))]
fn change(alloc: Global, name: Name, tokens: &[Token]) -> Result<(Simple, &[Token]), Stop>
    ensures gives { Gives (λ x. x.1.now) result (Rule TheChange) tokens.now }
    ensures means { IfOk result (λ x. change_of name (written_at (Rule TheChange) tokens.now) ≡ x.0) }
    ensures shorter { IfOk result (λ x. length x.1.now < length tokens.now) }
{
    if begins(tokens, Symbol::Assign) {
        return assign(alloc, name, tokens);
    }
    if begins(tokens, Symbol::LeftBracket) {
        return assign_element(alloc, name, tokens);
    }
    if let Some((operator, rest)) = assigned(tokens) {
        let (value, rest) = expression(alloc, rest)?;
        return Ok((Simple::Update(name, operator, value), rest));
    }
    if begins(tokens, Symbol::PlusPlus) {
        let (_, rest) = symbol(tokens, Symbol::PlusPlus)?;
        return Ok((Simple::PostIncrement(name), rest));
    }
    if begins(tokens, Symbol::MinusMinus) {
        let (_, rest) = symbol(tokens, Symbol::MinusMinus)?;
        return Ok((Simple::PostDecrement(name), rest));
    }
    let (call, rest) = called(alloc, name, tokens)?;
    Ok((Simple::Call(call), rest))
}

/// `assert` with its condition.
#[tactic(auto, using(c_expression::proofs::Opened::tree_at_is))]
fn assertion(alloc: Global, tokens: &[Token]) -> Result<(Simple, &[Token]), Stop>
    ensures gives { Gives (λ x. x.1.now) result (assertion TheExpression) tokens.now }
    ensures means { IfOk result (λ x. assertion_of (written_at (assertion TheExpression) tokens.now) ≡ x.0) }
    ensures shorter { IfOk result (λ x. length x.1.now < length tokens.now) }
{
    let (place, rest) = symbol(tokens, Symbol::Assert)?;
    let (_, rest) = symbol(rest, Symbol::LeftParenthesis)?;
    let (condition, rest) = expression(alloc, rest)?;
    let (_, rest) = symbol(rest, Symbol::RightParenthesis)?;
    Ok((Simple::Assert(place, condition), rest))
}

/// A simple statement.
#[tactic(auto, using(crate::proofs::Opened::simple_opened, c_expression::proofs::Opened::tree_at_is, crate::proofs::Meant::change_meant))]
pub(crate) fn simple(alloc: Global, tokens: &[Token]) -> Result<(Simple, &[Token]), Stop>
    ensures gives { Gives (λ x. x.1.now) result (Rule TheSimple) tokens.now }
    ensures means { IfOk result (λ x. simple_of (written_at (Rule TheSimple) tokens.now) ≡ x.0) }
    ensures shorter { IfOk result (λ x. length x.1.now < length tokens.now) }
{
    if begins_name(tokens) {
        let (name, rest) = name(alloc, tokens)?;
        return change(alloc, name, rest);
    }
    if begins(tokens, Symbol::PlusPlus) {
        let (place, rest) = symbol(tokens, Symbol::PlusPlus)?;
        let (name, rest) = name(alloc, rest)?;
        return Ok((Simple::PreIncrement(place, name), rest));
    }
    if begins(tokens, Symbol::MinusMinus) {
        let (place, rest) = symbol(tokens, Symbol::MinusMinus)?;
        let (name, rest) = name(alloc, rest)?;
        return Ok((Simple::PreDecrement(place, name), rest));
    }
    assertion(alloc, tokens)
}
