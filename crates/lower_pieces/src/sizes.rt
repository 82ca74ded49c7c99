// How many points and cells statements have.
ghost use Rattle.std.specs.Prelude.{◌≡◌, ◌-◌, ◌+◌, ◌^◌, min, map};
ghost use Rattle.lower_law.specs.Items.{sites, sites_all};
ghost use Rattle.lower_law.specs.Statements.{questions, asked, block, room, room_all};
ghost use Rattle.lower_pieces.specs.Sized.{number_at, sized, sized_all};
ghost use Rattle.lower_pieces.specs.Trees.{tree_of, statement_of};

use crate::tree::{ExpressionTree, StatementTree};

/// How many values an expression reads, as far as a number goes.
pub fn sites_in(e: &ExpressionTree) -> u64
    ensures { result ≡ min (sites (tree_of e.now)) (2 ^ 64 - 1) }
{
    match e {
        ExpressionTree::Number(_) | ExpressionTree::Local { .. } => 0,
        ExpressionTree::Global { .. } => 1,
        ExpressionTree::Element { index, .. } => sites_in(index).saturating_add(1),
        ExpressionTree::Binary(_, _, a, b)
        | ExpressionTree::Conjunction(a, b)
        | ExpressionTree::Disjunction(a, b) => sites_in(a).saturating_add(sites_in(b)),
        ExpressionTree::Conditional(c, a, b) => sites_in(c)
            .saturating_add(sites_in(a))
            .saturating_add(sites_in(b)),
        ExpressionTree::Unary(_, _, a) | ExpressionTree::Converted(_, a) => sites_in(a),
    }
}

// How many values the arguments of a call read, as far as a number goes.
fn sites_in_all(arguments: &[ExpressionTree]) -> u64
    ensures { result ≡ min (sites_all (asked (map tree_of arguments.now))) (2 ^ 64 - 1) }
{
    let mut total: u64 = 0;
    for argument in arguments {
        total = total.saturating_add(sites_in(argument));
    }
    total
}

/// How many values a thing reads, as far as a number goes.
pub fn sites_of(s: &StatementTree) -> u64
    ensures { result ≡ min (sites_all (questions (statement_of s.now))) (2 ^ 64 - 1) }
{
    match s {
        StatementTree::Set { value, .. } => sites_in(value),
        StatementTree::Write { value, .. } => sites_in(value),
        StatementTree::WriteAt { index, value, .. } => {
            sites_in(index).saturating_add(sites_in(value))
        }
        StatementTree::If { condition, .. } => sites_in(condition),
        StatementTree::Loop { condition, .. } => sites_in(condition),
        StatementTree::Assert { condition, .. } => sites_in(condition),
        StatementTree::Call { arguments, .. } => sites_in_all(arguments),
        StatementTree::Return {
            value: Some(value),
            ..
        } => sites_in(value),
        _ => 0,
    }
}

/// The number at an index, and 0 behind the end.
pub fn number_at(ns: &[u64], i: u16) -> u64
    ensures { result ≡ number_at ns.now i }
{
    match ns.get(i as usize) {
        None => 0,
        Some(n) => *n,
    }
}

/// How many points a statement has, as far as a number goes, where a call of each function has so many.
#[cycle(sizes)]
pub fn sized(calls: &[u64], s: &StatementTree) -> u64
    ensures { result ≡ min (sized (number_at calls.now) (statement_of s.now)) (2 ^ 64 - 1) }
{
    match s {
        StatementTree::If { on, off, .. } => sites_of(s)
            .saturating_add(1)
            .saturating_add(sized_all(calls, on))
            .saturating_add(sized_all(calls, off)),
        StatementTree::Loop { third, body, .. } => sites_of(s)
            .saturating_add(1)
            .saturating_add(sized_all(calls, third))
            .saturating_add(sized_all(calls, body)),
        StatementTree::Block(body) => sized_all(calls, body),
        StatementTree::Call { function, .. } => sites_of(s)
            .saturating_add(1)
            .saturating_add(number_at(calls, *function)),
        _ => sites_of(s).saturating_add(1),
    }
}

/// How many points statements have.
#[cycle(sizes)]
pub fn sized_all(calls: &[u64], b: &[StatementTree]) -> u64
    ensures { result ≡ min (sized_all (number_at calls.now) (block (map statement_of b.now))) (2 ^ 64 - 1) }
{
    let mut total: u64 = 0;
    for s in b {
        total = total.saturating_add(sized(calls, s));
    }
    total
}

/// How many cells the calls in a statement have, as far as a number goes, where a call of each function has so many.
#[cycle(rooms)]
pub fn room(rooms: &[u64], s: &StatementTree) -> u64
    ensures { result ≡ min (room (number_at rooms.now) (statement_of s.now)) (2 ^ 64 - 1) }
{
    match s {
        StatementTree::If { on, off, .. } => {
            room_all(rooms, on).saturating_add(room_all(rooms, off))
        }
        StatementTree::Loop { third, body, .. } => {
            room_all(rooms, third).saturating_add(room_all(rooms, body))
        }
        StatementTree::Block(body) => room_all(rooms, body),
        StatementTree::Call { function, .. } => number_at(rooms, *function),
        _ => 0,
    }
}

/// How many cells the calls in statements have.
#[cycle(rooms)]
pub fn room_all(rooms: &[u64], b: &[StatementTree]) -> u64
    ensures { result ≡ min (room_all (number_at rooms.now) (block (map statement_of b.now))) (2 ^ 64 - 1) }
{
    let mut total: u64 = 0;
    for s in b {
        total = total.saturating_add(room(rooms, s));
    }
    total
}
