// Readers of clauses, of hints and of the lines of the log.
ghost use Rattle.std.specs.Prelude.{◌≡◌, ◌<◌, ◌≤◌, ◌∷◌, [], false, ℕ, ◌+◌, ◌^◌, true, length, IfOk, IfSome, IfNone, min};
ghost use Rattle.format.specs.Format.{times};
ghost use Rattle.format.specs.Format.{ended};
ghost use Rattle.cert_form.specs.Words.{limit, lined, literal as literal_format, spaced, word as word_format};
ghost use Rattle.cert_form.specs.Texts.{Gives, GivesBy};
ghost use Rattle.cert_form.specs.Certificate.{clause as clause_format, clause_turn, hints as hints_format, hint_turn, log_line as line_format, log as log_format, log_turn};
ghost use Rattle.clause_form.specs.Literals.{is_within, variable};

use crate::one_token::{ReadError, literal, number, skip, word};
use clause_form::clause::{Clause, Clauses};
use clause_form::formula::Formula;
use clause_form::line::{Hints, Line, Log};
use clause_form::lit::Lit;
use std::alloc::Global;

// A literal and a space.
fn spaced_literal(text: &[u8], above: u64, variables: u64) -> Result<(Lit, &[u8]), ReadError>
    requires few { variables < limit }
    requires above { above ≤ variables }
    ensures gives { Gives (spaced (literal_format above variables)) (λ x. x.0) (λ x. x.1.now) result text.now }
    ensures between { IfOk result (λ x. (above < variable x.0) × (variable x.0 ≤ variables)) }
    ensures shorter { IfOk result (λ x. length x.1.now < length text.now) }
{
    match literal(text, above, variables) {
        Ok((lit, rest)) => match word(rest, b" ") {
            Ok(rest) => Ok((lit, rest)),
            Err(fault) => Err(fault),
        },
        Err(fault) => Err(fault),
    }
}

// The next literal of a clause, or none at its end.
#[tactic(auto, using(crate::proofs::Readers::clause_turn_stop, crate::proofs::Readers::clause_turn_else))]
fn clause_item(text: &[u8], above: u64, variables: u64) -> Result<(Option<Lit>, &[u8]), ReadError>
    requires few { variables < limit }
    requires above { above ≤ variables }
    ensures gives { GivesBy (clause_turn variables above) (λ x. x.0) (λ x. x.1.now) result text.now }
    ensures between { IfOk result (λ x. IfSome x.0 (λ l. (above < variable l) × (variable l ≤ variables))) }
    ensures shorter { IfOk result (λ x. length x.1.now < length text.now) }
{
    if let Some(rest) = skip(text, b"0") {
        return Ok((None, rest));
    }
    match spaced_literal(text, above, variables) {
        Ok((lit, rest)) => Ok((Some(lit), rest)),
        Err(fault) => Err(fault),
    }
}

#[tactic(auto, using(crate::proofs::Readers::clause_starts, crate::proofs::Readers::clause_stop, crate::proofs::Readers::clause_more, crate::proofs::Readers::last_variable_append, crate::proofs::Readers::is_within_append))]
fn clause(alloc: Global, text: &[u8], variables: u64) -> Result<(Clause, &[u8]), ReadError>
    requires { variables < limit }
    ensures gives { Gives (clause_format variables) (λ x. x.0) (λ x. x.1.now) result text.now }
    ensures within { IfOk result (λ x. is_within variables x.0 ≡ true) }
    ensures shorter { IfOk result (λ x. length x.1.now < length text.now) }
{
    let mut clause = Clause::new(alloc);
    let mut above: u64 = 0;
    let mut rest = text;
    'items: loop {
        let (item, after) = clause_item(rest, above, variables)?;
        rest = after;
        match item {
            Some(lit) => {
                clause.push(lit)?;
                above = lit.variable();
            }
            None => return Ok((clause, rest)),
        }
    }
}

// A clause and the word after it.
pub(crate) fn clause_and<'a>(
    alloc: Global,
    text: &'a [u8],
    variables: u64,
    end: &[u8],
) -> Result<(Clause, &'a [u8]), ReadError<'a>>
    requires { variables < limit }
    ensures gives { Gives (ended (clause_format variables) (word_format end.now)) (λ x. x.0) (λ x. x.1.now) result text.now }
    ensures within { IfOk result (λ x. is_within variables x.0 ≡ true) }
    ensures shorter { IfOk result (λ x. length x.1.now < length text.now) }
{
    match clause(alloc, text, variables) {
        Ok((clause, rest)) => match word(rest, end) {
            Ok(rest) => Ok((clause, rest)),
            Err(fault) => Err(fault),
        },
        Err(fault) => Err(fault),
    }
}

#[tactic(auto, using(crate::proofs::Readers::times_start, crate::proofs::Readers::times_more, crate::proofs::Readers::times_done))]
pub(crate) fn clauses(
    alloc: Global,
    text: &[u8],
    variables: u64,
    count: u64,
) -> Result<(Formula, &[u8]), ReadError>
    requires { variables < limit }
    ensures gives { Gives (times (λ _. lined (clause_format variables)) 0 count) (λ x. x.0.clauses) (λ x. x.1.now) result text.now }
    ensures variables { IfOk result (λ x. x.0.variables ≡ variables) }
    ensures shorter { IfOk result (λ x. length x.1.now ≤ length text.now) }
{
    let mut formula = Formula {
        variables,
        clauses: Clauses::new(alloc),
    };
    let mut rest = text;
    for i in 0..count {
        let (clause, after) = clause_and(alloc, rest, variables, b"\n")?;
        formula.push(clause)?;
        rest = after;
    }
    Ok((formula, rest))
}

// The next hint of a line, or none at its end.
#[tactic(auto, using(crate::proofs::Readers::hint_turn_stop, crate::proofs::Readers::hint_turn_else))]
fn hint_item(text: &[u8], own: u64) -> Result<(Option<u64>, &[u8]), ReadError>
    ensures gives { GivesBy (hint_turn own) (λ x. x.0) (λ x. x.1.now) result text.now }
    ensures shorter { IfOk result (λ x. length x.1.now < length text.now) }
{
    if let Some(rest) = skip(text, b"0") {
        return Ok((None, rest));
    }
    let (hint, rest) = number(text, 1, own.min(1 << 63))?;
    let rest = word(rest, b" ")?;
    Ok((Some(hint), rest))
}

#[tactic(auto, using(crate::proofs::Readers::hints_start, crate::proofs::Readers::hint_stop, crate::proofs::Readers::hint_more))]
fn hints(alloc: Global, text: &[u8], own: u64) -> Result<(Hints, &[u8]), ReadError>
    ensures gives { Gives (hints_format own) (λ x. x.0) (λ x. x.1.now) result text.now }
    ensures shorter { IfOk result (λ x. length x.1.now < length text.now) }
{
    let mut hints = Hints::new(alloc);
    let mut rest = text;
    'items: loop {
        let (item, after) = hint_item(rest, own)?;
        rest = after;
        match item {
            Some(hint) => hints.push(hint)?,
            None => return Ok((hints, rest)),
        }
    }
}

// The hints to the end of the line.
fn last_hints(alloc: Global, text: &[u8], own: u64) -> Result<(Hints, &[u8]), ReadError>
    ensures gives { Gives (lined (hints_format own)) (λ x. x.0) (λ x. x.1.now) result text.now }
    ensures shorter { IfOk result (λ x. length x.1.now < length text.now) }
{
    match hints(alloc, text, own) {
        Ok((hints, rest)) => match word(rest, b"\n") {
            Ok(rest) => Ok((hints, rest)),
            Err(fault) => Err(fault),
        },
        Err(fault) => Err(fault),
    }
}

#[tactic(auto, using(crate::proofs::Readers::log_line_opened))]
fn line(alloc: Global, text: &[u8], variables: u64, own: u64) -> Result<(Line, &[u8]), ReadError>
    requires { variables < limit }
    ensures gives { Gives (line_format variables own) (λ x. x.0) (λ x. x.1.now) result text.now }
    ensures shorter { IfOk result (λ x. length x.1.now < length text.now) }
{
    match clause_and(alloc, text, variables, b" ") {
        Ok((clause, rest)) => match last_hints(alloc, rest, own) {
            Ok((hints, rest)) => Ok((Line { clause, hints }, rest)),
            Err(fault) => Err(fault),
        },
        Err(fault) => Err(fault),
    }
}

// The next line of the log, or none at its end.
#[tactic(auto, using(crate::proofs::Readers::log_turn_stop, crate::proofs::Readers::log_turn_else))]
fn log_item(
    alloc: Global,
    text: &[u8],
    variables: u64,
    own: u64,
) -> Result<(Option<Line>, &[u8]), ReadError>
    requires { variables < limit }
    ensures gives { GivesBy (log_turn variables own) (λ x. x.0) (λ x. x.1.now) result text.now }
    ensures shorter { IfOk result (λ x. length x.1.now < length text.now) }
{
    if let Some(rest) = skip(text, b"verdict") {
        return Ok((None, rest));
    }
    match line(alloc, text, variables, own) {
        Ok((line, rest)) => Ok((Some(line), rest)),
        Err(fault) => Err(fault),
    }
}

#[tactic(auto, using(crate::proofs::Readers::log_start, crate::proofs::Readers::log_stop, crate::proofs::Readers::log_more))]
pub(crate) fn log(
    alloc: Global,
    text: &[u8],
    variables: u64,
    first: u64,
) -> Result<(Log, &[u8]), ReadError>
    requires few { variables < limit }
    requires room { first + length text.now < 2 ^ 64 }
    ensures gives { Gives (log_format variables first) (λ x. x.0) (λ x. x.1.now) result text.now }
    ensures shorter { IfOk result (λ x. length x.1.now < length text.now) }
{
    let mut log = Log::new(alloc);
    let mut own = first;
    let mut rest = text;
    'items: loop {
        let (item, after) = log_item(alloc, rest, variables, own)?;
        rest = after;
        match item {
            Some(line) => {
                log.push(line)?;
                own += 1;
            }
            None => return Ok((log, rest)),
        }
    }
}
