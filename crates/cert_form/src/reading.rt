// The reader of a whole certificate.
ghost use Rattle.std.specs.Prelude.{◌≡◌, ◌<◌, ◌≤◌, ◌+◌, ◌^◌, ◌∷◌, [], ℕ, length, true, IfErr, IfNone, IfOk, IfSome};
ghost use Rattle.cert_form.specs.Answers.{IsReadAs, IsStop, IsStrange, are_bytes};
ghost use Rattle.cert_form.specs.Certificate.{any_number};
ghost use Rattle.cert_form.specs.Parts.{body_read, certificate_read, counts_read, goal_part_read, header_read, label_part_read, labelled_read, lower_read, middle_read, named_number_read, opening_read, sizes_read, title_read, version_read};
ghost use Rattle.cert_form.specs.Texts.{Gives, GivesBy, is_byte};
ghost use Rattle.cert_form.specs.Verdicts.{ending_of};
ghost use Rattle.cert_form.specs.Words.{limit, spaced};

use crate::clauses::{clause_and, clauses, log};
use crate::ending::{Outcome, ending};
use crate::labels::labels;
use crate::one_token::{ReadError, keyword, last_word, number, number_line, word};
use crate::splitting::is_of_word;
use crate::tables::tables;
use clause_form::clause::Clause;
use clause_form::formula::Formula;
use clause_form::line::Log;
use std::alloc::Global;

/// The parts of a certificate that are kept.
#[derive(Drop)]
pub struct Parts {
    pub budget: u64,
    pub formula: Formula,
    pub goal: Clause,
    pub log: Log,
    pub outcome: Outcome,
}

// The tables, the log and the ending.
#[tactic(auto, using(crate::proofs::Whole::body_opened))]
fn body(
    alloc: Global,
    text: &[u8],
    variables: u64,
    clauses: u64,
    labels: u64,
    turns: u64,
) -> Result<((Log, Outcome), &[u8]), ReadError>
    requires few { variables < limit }
    requires known { 0 < variables }
    requires clauses { clauses < limit }
    requires labels { labels < limit }
    requires turns { turns < limit }
    requires length { length text.now ≤ 2 ^ 30 }
    ensures gives { GivesBy (body_read variables clauses labels turns) (λ x. (x.0.0, ending_of x.0.1)) (λ x. x.1.now) result text.now }
{
    let rest = match tables(text, variables, labels, turns) {
        Ok(rest) => rest,
        Err(fault) => return Err(fault),
    };
    match log(alloc, rest, variables, clauses + 2) {
        Ok((log, rest)) => match ending(alloc, rest, variables) {
            Ok((outcome, rest)) => Ok(((log, outcome), rest)),
            Err(fault) => Err(fault),
        },
        Err(fault) => Err(fault),
    }
}

// From the number of labels on.
#[tactic(auto, using(crate::proofs::Whole::labelled_opened))]
fn labelled(
    alloc: Global,
    text: &[u8],
    variables: u64,
    clauses: u64,
    turns: u64,
) -> Result<((Log, Outcome), &[u8]), ReadError>
    requires few { variables < limit }
    requires known { 0 < variables }
    requires clauses { clauses < limit }
    requires turns { turns < limit }
    requires length { length text.now ≤ 2 ^ 30 }
    ensures gives { GivesBy (labelled_read variables clauses turns) (λ x. (x.0.0, ending_of x.0.1)) (λ x. x.1.now) result text.now }
{
    let (count, rest) = match number_line(text, 0, 1 << 63) {
        Ok(found) => found,
        Err(fault) => return Err(fault),
    };
    match labels(rest, count) {
        Ok(rest) => body(alloc, rest, variables, clauses, count, turns),
        Err(fault) => Err(fault),
    }
}

// From the word before the number of labels on.
#[tactic(auto, using(crate::proofs::Parted::label_part_opened))]
fn label_part(
    alloc: Global,
    text: &[u8],
    variables: u64,
    clauses: u64,
    turns: u64,
) -> Result<((Log, Outcome), &[u8]), ReadError>
    requires few { variables < limit }
    requires known { 0 < variables }
    requires clauses { clauses < limit }
    requires turns { turns < limit }
    requires length { length text.now ≤ 2 ^ 30 }
    ensures gives { GivesBy (label_part_read variables clauses turns) (λ x. (x.0.0, ending_of x.0.1)) (λ x. x.1.now) result text.now }
{
    match keyword(text, b"labels") {
        Ok(rest) => labelled(alloc, rest, variables, clauses, turns),
        Err(fault) => Err(fault),
    }
}

// From the goal's literals on.
#[tactic(auto, using(crate::proofs::Parted::goal_part_opened))]
fn goal_part(
    alloc: Global,
    text: &[u8],
    variables: u64,
    clauses: u64,
    turns: u64,
) -> Result<((Clause, (Log, Outcome)), &[u8]), ReadError>
    requires few { variables < limit }
    requires known { 0 < variables }
    requires clauses { clauses < limit }
    requires turns { turns < limit }
    requires length { length text.now ≤ 2 ^ 30 }
    ensures gives { GivesBy (goal_part_read variables turns clauses) (λ x. (x.0.0, (x.0.1.0, ending_of x.0.1.1))) (λ x. x.1.now) result text.now }
{
    match clause_and(alloc, text, variables, b"\n") {
        Ok((goal, rest)) => match label_part(alloc, rest, variables, clauses, turns) {
            Ok((tail, rest)) => Ok(((goal, tail), rest)),
            Err(fault) => Err(fault),
        },
        Err(fault) => Err(fault),
    }
}

// From the goal on.
#[tactic(auto, using(crate::proofs::Parted::lower_parted))]
fn lower(
    alloc: Global,
    text: &[u8],
    variables: u64,
    clauses: u64,
    turns: u64,
) -> Result<((Clause, (Log, Outcome)), &[u8]), ReadError>
    requires few { variables < limit }
    requires known { 0 < variables }
    requires clauses { clauses < limit }
    requires turns { turns < limit }
    requires length { length text.now ≤ 2 ^ 30 }
    ensures gives { GivesBy (lower_read variables turns clauses) (λ x. (x.0.0, (x.0.1.0, ending_of x.0.1.1))) (λ x. x.1.now) result text.now }
{
    match keyword(text, b"goal") {
        Ok(rest) => goal_part(alloc, rest, variables, clauses, turns),
        Err(fault) => Err(fault),
    }
}

// A word, a space and a number from low to below high, to the end of the line.
#[tactic(auto, using(crate::proofs::Parted::named_number_opened))]
fn named_number<'a>(
    text: &'a [u8],
    name: &[u8],
    low: u64,
    high: u64,
) -> Result<(u64, &'a [u8]), ReadError<'a>>
    requires { high ≤ limit }
    ensures gives { GivesBy (named_number_read name.now low high) (λ x. x.0) (λ x. x.1.now) result text.now }
    ensures within { IfOk result (λ x. (low ≤ x.0) × (x.0 < high)) }
    ensures shorter { IfOk result (λ x. length x.1.now < length text.now) }
{
    match keyword(text, name) {
        Ok(rest) => number_line(rest, low, high),
        Err(fault) => Err(fault),
    }
}

// From the number of clauses on.
#[tactic(auto, using(crate::proofs::Parted::middle_parted))]
fn middle(
    alloc: Global,
    text: &[u8],
    turns: u64,
    variables: u64,
) -> Result<((Formula, (Clause, (Log, Outcome))), &[u8]), ReadError>
    requires few { variables < limit }
    requires known { 0 < variables }
    requires turns { turns < limit }
    requires length { length text.now ≤ 2 ^ 30 }
    ensures gives { GivesBy (middle_read turns variables) (λ x. (x.0.0.clauses, (x.0.1.0, (x.0.1.1.0, ending_of x.0.1.1.1)))) (λ x. x.1.now) result text.now }
    ensures variables { IfOk result (λ x. x.0.0.variables ≡ variables) }
{
    let (count, rest) = match named_number(text, b"clauses", 0, 1 << 63) {
        Ok(found) => found,
        Err(fault) => return Err(fault),
    };
    match clauses(alloc, rest, variables, count) {
        Ok((formula, rest)) => match lower(alloc, rest, variables, count, turns) {
            Ok((tail, rest)) => Ok(((formula, tail), rest)),
            Err(fault) => Err(fault),
        },
        Err(fault) => Err(fault),
    }
}

// The words of the first line.
#[tactic(auto, using(crate::proofs::Whole::title_parted))]
fn title(text: &[u8]) -> Result<&[u8], ReadError>
    ensures gives { GivesBy title_read (λ _. tt) (λ r. r.now) result text.now }
    ensures shorter { IfOk result (λ r. length r.now < length text.now) }
{
    match keyword(text, b"oschk") {
        Ok(rest) => keyword(rest, b"certificate"),
        Err(fault) => Err(fault),
    }
}

// The number of the first line, and the word of the second.
#[tactic(auto, using(crate::proofs::Whole::version_parted))]
fn version(text: &[u8]) -> Result<&[u8], ReadError>
    ensures gives { GivesBy version_read (λ _. tt) (λ r. r.now) result text.now }
    ensures shorter { IfOk result (λ r. length r.now < length text.now) }
{
    match last_word(text, b"1") {
        Ok(rest) => keyword(rest, b"bounds"),
        Err(fault) => Err(fault),
    }
}

#[tactic(auto, using(crate::proofs::Whole::opening_split))]
fn opening(text: &[u8]) -> Result<&[u8], ReadError>
    ensures gives { GivesBy opening_read (λ _. tt) (λ r. r.now) result text.now }
    ensures shorter { IfOk result (λ r. length r.now < length text.now) }
{
    match title(text) {
        Ok(rest) => version(rest),
        Err(fault) => Err(fault),
    }
}

// The lines of the budget and of the number of variables.
#[tactic(auto, using(crate::proofs::Parted::sizes_opened))]
fn sizes(text: &[u8]) -> Result<((u64, u64), &[u8]), ReadError>
    ensures gives { GivesBy sizes_read (λ x. x.0) (λ x. x.1.now) result text.now }
    ensures variables { IfOk result (λ x. (0 < x.0.1) × (x.0.1 < limit)) }
    ensures shorter { IfOk result (λ x. length x.1.now < length text.now) }
{
    let (budget, rest) = match named_number(text, b"budget", 0, 1 << 63) {
        Ok(found) => found,
        Err(fault) => return Err(fault),
    };
    match named_number(rest, b"variables", 1, 1 << 63) {
        Ok((variables, rest)) => Ok(((budget, variables), rest)),
        Err(fault) => Err(fault),
    }
}

// A number and a space.
fn spaced_number(text: &[u8]) -> Result<(u64, &[u8]), ReadError>
    ensures gives { Gives (spaced any_number) (λ x. x.0) (λ x. x.1.now) result text.now }
    ensures below { IfOk result (λ x. x.0 < limit) }
    ensures shorter { IfOk result (λ x. length x.1.now < length text.now) }
{
    match number(text, 0, 1 << 63) {
        Ok((number, rest)) => match word(rest, b" ") {
            Ok(rest) => Ok((number, rest)),
            Err(fault) => Err(fault),
        },
        Err(fault) => Err(fault),
    }
}

// The numbers of the lines before the clauses, of which the arrivals are not kept.
#[tactic(auto, using(crate::proofs::Parted::counts_opened))]
fn counts(text: &[u8]) -> Result<((u64, (u64, u64)), &[u8]), ReadError>
    ensures gives { GivesBy counts_read (λ x. x.0) (λ x. x.1.now) result text.now }
    ensures turns { IfOk result (λ x. x.0.0 < limit) }
    ensures variables { IfOk result (λ x. (0 < x.0.1.1) × (x.0.1.1 < limit)) }
    ensures shorter { IfOk result (λ x. length x.1.now < length text.now) }
{
    let (turns, rest) = match spaced_number(text) {
        Ok(found) => found,
        Err(fault) => return Err(fault),
    };
    let rest = match number_line(rest, 0, 1 << 63) {
        Ok((_, rest)) => rest,
        Err(fault) => return Err(fault),
    };
    match sizes(rest) {
        Ok((sizes, rest)) => Ok(((turns, sizes), rest)),
        Err(fault) => Err(fault),
    }
}

// The lines before the clauses.
#[tactic(auto, using(crate::proofs::Parted::header_parted))]
fn header(text: &[u8]) -> Result<((u64, (u64, u64)), &[u8]), ReadError>
    ensures gives { GivesBy header_read (λ x. x.0) (λ x. x.1.now) result text.now }
    ensures turns { IfOk result (λ x. x.0.0 < limit) }
    ensures variables { IfOk result (λ x. (0 < x.0.1.1) × (x.0.1.1 < limit)) }
    ensures shorter { IfOk result (λ x. length x.1.now < length text.now) }
{
    match opening(text) {
        Ok(rest) => counts(rest),
        Err(fault) => Err(fault),
    }
}

// The parts of the certificate with which the text begins, and what follows it.
#[tactic(auto, using(crate::proofs::Whole::certificate_opened))]
fn certificate(alloc: Global, text: &[u8]) -> Result<(Parts, &[u8]), ReadError>
    requires { length text.now ≤ 2 ^ 30 }
    ensures gives { GivesBy certificate_read (λ x. (x.0.budget, (x.0.formula.variables, (x.0.formula.clauses, (x.0.goal, (x.0.log, ending_of x.0.outcome)))))) (λ x. x.1.now) result text.now }
{
    let ((turns, (budget, variables)), rest) = match header(text) {
        Ok(found) => found,
        Err(fault) => return Err(fault),
    };
    match middle(alloc, rest, turns, variables) {
        Ok(((formula, (goal, (log, outcome))), rest)) => {
            let parts = Parts {
                budget,
                formula,
                goal,
                log,
                outcome,
            };
            Ok((parts, rest))
        }
        Err(fault) => Err(fault),
    }
}

/// Why a text gives no certificate.
#[derive(Drop)]
pub enum Stop {
    Memory,
    /// The token that begins at this offset is the first fault.
    Token(usize),
    /// The text is cut off.
    End,
}

/// The parts that are kept of the certificate whose text this is.
pub fn read(alloc: Global, text: &[u8]) -> Result<Parts, Stop>
    requires { length text.now ≤ 2 ^ 30 }
    ensures whole { IfOk result (IsReadAs text.now) }
    ensures stop { IfErr result (IsStop text.now) }
{
    match certificate(alloc, text) {
        Ok((parts, rest)) => {
            if rest.is_empty() {
                Ok(parts)
            } else {
                Err(Stop::Token(text.len() - rest.len()))
            }
        }
        Err(ReadError::Memory) => Err(Stop::Memory),
        Err(ReadError::At(rest)) => {
            if rest.is_empty() {
                Err(Stop::End)
            } else {
                Err(Stop::Token(text.len() - rest.len()))
            }
        }
    }
}

// Whether a certificate's text may have this byte.
fn is_byte(byte: u8) -> bool
    ensures { result ≡ is_byte byte }
{
    is_of_word(byte) || byte == b' ' || byte == b'\n'
}

/// The offset of the first byte that no certificate's text may have.
#[tactic(auto, using(crate::proofs::Outcomes::are_bytes_more, crate::proofs::Outcomes::are_bytes_all))]
pub fn strange_byte(text: &[u8]) -> Option<usize>
    ensures found { IfSome result (λ i. IsStrange text.now i) }
    ensures none { IfNone result (are_bytes text.now ≡ true) }
{
    for (i, byte) in text.iter().enumerate() {
        if !is_byte(*byte) {
            return Some(i);
        }
    }
    None
}
