// Readers of statements.
ghost use Rattle.std.specs.Prelude.{◌≡◌, ◌<◌, ◌≤◌, [], ◌∷◌, ◌++◌, length, IfOk};
ghost use Rattle.grammar.specs.Grammar.{Many, Rule, leaves, optional, ◌∣◌};
ghost use Rattle.grammar.specs.Reading.{begins};
ghost use Rattle.c_grammar.specs.Factored.{TheBlock, TheBranch, TheElse, TheExpression, TheFor, TheIf, TheLocal, TheReturn, TheSimple, TheStatement, TheWhile};
ghost use Rattle.c_grammar.specs.Next.{part_firsts};
ghost use Rattle.c_grammar.specs.Trees.{written_else};
ghost use Rattle.c_expression.specs.Reads.{Gives, class_at, written_at};
ghost use Rattle.c_parse.specs.Statements.{block_of, branch_of, branches_of, close_of, expression_if, for_of, if_of, last_of, return_of, simple_if, start_of, statement_of, statements_of, while_of};

use crate::simples::{begins_local, begins_simple, local, simple};
use c_expression::expressions::{begins_expression, expression};
use c_expression::lexeme::{begins, begins_among, place_here, symbol};
use c_expression::stop::Stop;
use c_grammar::symbol::Symbol;
use c_lex::token::Token;
use c_unit::expression::Expression;
use c_unit::statement::{Block, Branch, Branches, Simple, Start, Statement};
use chk_base::place::Place;
use sqlite_items::Items;
use std::alloc::Global;

/// Does a statement come next?
fn begins_statement(tokens: &[Token]) -> bool
    ensures { result ≡ begins class_at (part_firsts TheStatement) tokens.now }
{
    begins_among(
        tokens,
        &[
            Symbol::Semicolon,
            Symbol::LeftBrace,
            Symbol::If,
            Symbol::While,
            Symbol::For,
            Symbol::Return,
        ],
    ) || begins_simple(tokens)
        || begins_local(tokens)
}

/// What stands first in the head of a `for`.
#[tactic(auto, using(c_expression::proofs::Opened::tree_at_is))]
fn start(alloc: Global, tokens: &[Token]) -> Result<(Option<Start>, &[Token]), Stop>
    ensures gives { Gives (λ x. x.1.now) result (optional (Rule TheLocal ∣ Rule TheSimple)) tokens.now }
    ensures means { IfOk result (λ x. start_of (written_at (optional (Rule TheLocal ∣ Rule TheSimple)) tokens.now) ≡ x.0) }
    ensures not_longer { IfOk result (λ x. length x.1.now ≤ length tokens.now) }
{
    if begins_local(tokens) {
        let (local, rest) = local(alloc, tokens)?;
        return Ok((Some(Start::Local(local)), rest));
    }
    if begins_simple(tokens) {
        let (simple, rest) = simple(alloc, tokens)?;
        return Ok((Some(Start::Simple(simple)), rest));
    }
    Ok((None, tokens))
}

/// An expression, if one comes next.
#[tactic(auto, using(c_expression::proofs::Opened::tree_at_is))]
fn expression_if(alloc: Global, tokens: &[Token]) -> Result<(Option<Expression>, &[Token]), Stop>
    ensures gives { Gives (λ x. x.1.now) result (optional (Rule TheExpression)) tokens.now }
    ensures means { IfOk result (λ x. expression_if (written_at (optional (Rule TheExpression)) tokens.now) ≡ x.0) }
    ensures not_longer { IfOk result (λ x. length x.1.now ≤ length tokens.now) }
{
    if !begins_expression(tokens) {
        return Ok((None, tokens));
    }
    let (value, rest) = expression(alloc, tokens)?;
    Ok((Some(value), rest))
}

/// A simple statement, if one comes next.
#[tactic(auto, using(c_expression::proofs::Opened::tree_at_is))]
fn simple_if(alloc: Global, tokens: &[Token]) -> Result<(Option<Simple>, &[Token]), Stop>
    ensures gives { Gives (λ x. x.1.now) result (optional (Rule TheSimple)) tokens.now }
    ensures means { IfOk result (λ x. simple_if (written_at (optional (Rule TheSimple)) tokens.now) ≡ x.0) }
    ensures not_longer { IfOk result (λ x. length x.1.now ≤ length tokens.now) }
{
    if !begins_simple(tokens) {
        return Ok((None, tokens));
    }
    let (value, rest) = simple(alloc, tokens)?;
    Ok((Some(value), rest))
}

/// A `return`.
#[tactic(auto, using(crate::proofs::Opened::return_opened, c_expression::proofs::Opened::tree_at_is))]
fn return_statement(alloc: Global, tokens: &[Token]) -> Result<(Statement, &[Token]), Stop>
    ensures gives { Gives (λ x. x.1.now) result (Rule TheReturn) tokens.now }
    ensures means { IfOk result (λ x. return_of (written_at (Rule TheReturn) tokens.now) ≡ x.0) }
    ensures shorter { IfOk result (λ x. length x.1.now < length tokens.now) }
{
    let (place, rest) = symbol(tokens, Symbol::Return)?;
    let (value, rest) = expression_if(alloc, rest)?;
    let (_, rest) = symbol(rest, Symbol::Semicolon)?;
    Ok((Statement::Return(place, value), rest))
}

/// A block.
#[cycle(statements)]
#[tactic(auto, using(crate::proofs::Opened::block_opened, c_expression::proofs::Opened::tree_at_is))]
pub(crate) fn block(alloc: Global, tokens: &[Token]) -> Result<(Block, Place, &[Token]), Stop>
    ensures gives { Gives (λ x. x.2.now) result (Rule TheBlock) tokens.now }
    ensures means { IfOk result (λ x. block_of (written_at (Rule TheBlock) tokens.now) ≡ x.0) }
    ensures close { IfOk result (λ x. close_of (written_at (Rule TheBlock) tokens.now) ≡ x.1) }
    ensures shorter { IfOk result (λ x. length x.2.now < length tokens.now) }
{
    let (_, rest) = symbol(tokens, Symbol::LeftBrace)?;
    let (statements, rest) = statements(alloc, rest)?;
    let (close, rest) = symbol(rest, Symbol::RightBrace)?;
    Ok((statements, close, rest))
}

/// Statements in order.
#[cycle(statements)]
fn statements(alloc: Global, tokens: &[Token]) -> Result<(Block, &[Token]), Stop>
    ensures gives { Gives (λ x. x.1.now) result (Many (Rule TheStatement)) tokens.now }
    ensures means { IfOk result (λ x. statements_of (written_at (Many (Rule TheStatement)) tokens.now) ≡ x.0) }
    ensures not_longer { IfOk result (λ x. length x.1.now ≤ length tokens.now) }
{
    let mut statements = Items::new(alloc);
    let mut rest = tokens;
    'items: while begins_statement(rest) {
        let (statement, after) = statement(alloc, rest)?;
        statements.push(statement)?;
        rest = after;
    }
    Ok((statements, rest))
}

/// A statement.
#[cycle(statements)]
#[tactic(auto, using(crate::proofs::Opened::statement_opened, c_expression::proofs::Opened::tree_at_is, crate::proofs::Starts::block_starts, crate::proofs::Starts::if_starts, crate::proofs::Starts::local_starts, crate::proofs::Starts::simple_starts))]
fn statement(alloc: Global, tokens: &[Token]) -> Result<(Statement, &[Token]), Stop>
    ensures gives { Gives (λ x. x.1.now) result (Rule TheStatement) tokens.now }
    ensures means { IfOk result (λ x. statement_of (written_at (Rule TheStatement) tokens.now) ≡ x.0) }
    ensures shorter { IfOk result (λ x. length x.1.now < length tokens.now) }
{
    let place = place_here(tokens);
    if begins(tokens, Symbol::Semicolon) {
        let (place, rest) = symbol(tokens, Symbol::Semicolon)?;
        return Ok((Statement::Empty(place), rest));
    }
    if begins(tokens, Symbol::LeftBrace) {
        let (block, _, rest) = block(alloc, tokens)?;
        return Ok((Statement::Block(place, block), rest));
    }
    if begins_local(tokens) {
        let (local, rest) = local(alloc, tokens)?;
        let (_, rest) = symbol(rest, Symbol::Semicolon)?;
        return Ok((Statement::Local(place, local), rest));
    }
    if begins_simple(tokens) {
        let (simple, rest) = simple(alloc, tokens)?;
        let (_, rest) = symbol(rest, Symbol::Semicolon)?;
        return Ok((Statement::Simple(place, simple), rest));
    }
    if begins(tokens, Symbol::If) {
        return if_statement(alloc, place, tokens);
    }
    if begins(tokens, Symbol::While) {
        return while_statement(alloc, tokens);
    }
    if begins(tokens, Symbol::For) {
        return for_statement(alloc, tokens);
    }
    return_statement(alloc, tokens)
}

/// An `if` with all its branches.
#[cycle(statements)]
#[tactic(auto, using(crate::proofs::Opened::if_opened, c_expression::proofs::Opened::tree_at_is))]
fn if_statement(
    alloc: Global,
    place: Place,
    tokens: &[Token],
) -> Result<(Statement, &[Token]), Stop>
    ensures gives { Gives (λ x. x.1.now) result (Rule TheIf) tokens.now }
    ensures means { IfOk result (λ x. if_of place (written_at (Rule TheIf) tokens.now) ≡ x.0) }
    ensures shorter { IfOk result (λ x. length x.1.now < length tokens.now) }
{
    let (first, rest) = branch(alloc, tokens)?;
    let mut branches = Items::new(alloc);
    branches.push(first)?;
    let (branches, last, rest) = otherwise(branches, alloc, rest)?;
    Ok((Statement::If(place, branches, last), rest))
}

/// Further branches, put after those that there are, and the block of the last `else`.
#[cycle(statements)]
fn otherwise(
    branches: Branches,
    alloc: Global,
    tokens: &[Token],
) -> Result<(Branches, Option<Block>, &[Token]), Stop>
    ensures gives { Gives (λ x. x.2.now) result (optional (Rule TheElse)) tokens.now }
    ensures branches { IfOk result (λ x. x.0 ≡ branches ++ branches_of (written_else (written_at (optional (Rule TheElse)) tokens.now))) }
    ensures last { IfOk result (λ x. last_of (written_else (written_at (optional (Rule TheElse)) tokens.now)) ≡ x.1) }
    ensures not_longer { IfOk result (λ x. length x.2.now ≤ length tokens.now) }
{
    let mut branches = branches;
    let mut rest = tokens;
    'items: while begins(rest, Symbol::Else) {
        let (_, after) = symbol(rest, Symbol::Else)?;
        if !begins(after, Symbol::If) {
            let (block, _, after) = block(alloc, after)?;
            return Ok((branches, Some(block), after));
        }
        let (branch, after) = branch(alloc, after)?;
        branches.push(branch)?;
        rest = after;
    }
    Ok((branches, None, rest))
}

/// A branch of an `if`: its condition and block.
#[cycle(statements)]
#[tactic(auto, using(crate::proofs::Opened::branch_opened, c_expression::proofs::Opened::tree_at_is))]
fn branch(alloc: Global, tokens: &[Token]) -> Result<(Branch, &[Token]), Stop>
    ensures gives { Gives (λ x. x.1.now) result (Rule TheBranch) tokens.now }
    ensures means { IfOk result (λ x. branch_of (written_at (Rule TheBranch) tokens.now) ≡ x.0) }
    ensures shorter { IfOk result (λ x. length x.1.now < length tokens.now) }
{
    let (place, rest) = symbol(tokens, Symbol::If)?;
    let (_, rest) = symbol(rest, Symbol::LeftParenthesis)?;
    let (condition, rest) = expression(alloc, rest)?;
    let (_, rest) = symbol(rest, Symbol::RightParenthesis)?;
    let (block, _, rest) = block(alloc, rest)?;
    Ok((
        Branch {
            place,
            condition,
            block,
        },
        rest,
    ))
}

/// A `while`.
#[cycle(statements)]
#[tactic(auto, using(crate::proofs::Opened::while_opened, c_expression::proofs::Opened::tree_at_is))]
fn while_statement(alloc: Global, tokens: &[Token]) -> Result<(Statement, &[Token]), Stop>
    ensures gives { Gives (λ x. x.1.now) result (Rule TheWhile) tokens.now }
    ensures means { IfOk result (λ x. while_of (written_at (Rule TheWhile) tokens.now) ≡ x.0) }
    ensures shorter { IfOk result (λ x. length x.1.now < length tokens.now) }
{
    let (place, rest) = symbol(tokens, Symbol::While)?;
    let (_, rest) = symbol(rest, Symbol::LeftParenthesis)?;
    let (condition, rest) = expression(alloc, rest)?;
    let (_, rest) = symbol(rest, Symbol::RightParenthesis)?;
    let (block, _, rest) = block(alloc, rest)?;
    Ok((Statement::While(place, condition, block), rest))
}

/// A `for`.
#[cycle(statements)]
#[tactic(auto, using(crate::proofs::Opened::for_opened, c_expression::proofs::Opened::tree_at_is))]
fn for_statement(alloc: Global, tokens: &[Token]) -> Result<(Statement, &[Token]), Stop>
    ensures gives { Gives (λ x. x.1.now) result (Rule TheFor) tokens.now }
    ensures means { IfOk result (λ x. for_of (written_at (Rule TheFor) tokens.now) ≡ x.0) }
    ensures shorter { IfOk result (λ x. length x.1.now < length tokens.now) }
{
    let (place, rest) = symbol(tokens, Symbol::For)?;
    let (_, rest) = symbol(rest, Symbol::LeftParenthesis)?;
    let (start, rest) = start(alloc, rest)?;
    let (_, rest) = symbol(rest, Symbol::Semicolon)?;
    let (condition, rest) = expression_if(alloc, rest)?;
    let (_, rest) = symbol(rest, Symbol::Semicolon)?;
    let (step, rest) = simple_if(alloc, rest)?;
    let (_, rest) = symbol(rest, Symbol::RightParenthesis)?;
    let (block, _, rest) = block(alloc, rest)?;
    Ok((Statement::For(place, start, condition, step, block), rest))
}
