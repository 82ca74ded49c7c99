// Readers of what stands after the log: the verdict, and the model where it fails.
ghost use Rattle.std.specs.Prelude.{◌≡◌, ◌<◌, ◌≤◌, ◌∷◌, [], ℕ, ◌+◌, length, IfOk};
ghost use Rattle.format.specs.Format.{times};
ghost use Rattle.cert_form.specs.Words.{value_token, spaced, limit, lf, words};
ghost use Rattle.cert_form.specs.Verdicts.{word_of_verdict, value_of, ending_of};
ghost use Rattle.cert_form.specs.Parts.{outcome_end_read, values_end_read};
ghost use Rattle.cert_form.specs.Texts.{Gives, GivesBy};
ghost use Rattle.cert_form.specs.Certificate.{end_word, model as model_format, chosen, end_rest, ending as ending_format};

use crate::one_token::{ReadError, is_decimal, keyword, last_word, skip, word};
use crate::splitting::split;
use answers::verdict::Verdict;
use clause_form::assignment::Assignment;
use std::alloc::Global;

#[tactic(auto, using(crate::proofs::Readers::end_holds, crate::proofs::Readers::end_fails, crate::proofs::Readers::end_undecided, crate::proofs::Readers::end_stuck))]
fn read_verdict(text: &[u8]) -> Result<(Verdict, &[u8]), ReadError>
    ensures gives { Gives end_word (λ x. word_of_verdict x.0) (λ x. x.1.now) result text.now }
    ensures shorter { IfOk result (λ x. length x.1.now < length text.now) }
{
    if let Some(rest) = skip(text, b"holds") {
        return Ok((Verdict::Holds, rest));
    }
    if let Some(rest) = skip(text, b"fails") {
        return Ok((Verdict::Fails, rest));
    }
    if let Some(rest) = skip(text, b"undecided") {
        return Ok((Verdict::Undecided, rest));
    }
    Err(ReadError::At(text))
}

// The value that a token gives a variable.
#[tactic(auto, using(crate::proofs::Readers::minus_none, crate::proofs::Readers::minus_word, crate::proofs::Readers::minus_other))]
fn value_in(word: &[u8], variable: u64) -> Option<bool>
    requires { variable < limit }
    ensures { result ≡ value_of variable word.now }
{
    if is_decimal(word, variable) {
        return Some(true);
    }
    if word.is_empty() || word[0] != b'-' {
        return None;
    }
    let (_, digits) = word.split_at(1);
    if is_decimal(digits, variable) {
        Some(false)
    } else {
        None
    }
}

#[tactic(auto, using(crate::proofs::Readers::value_empty, crate::proofs::Readers::value_got, crate::proofs::Readers::value_stuck))]
fn value(text: &[u8], variable: u64) -> Result<(bool, &[u8]), ReadError>
    requires { variable < limit }
    ensures gives { Gives (value_token variable) (λ x. x.0) (λ x. x.1.now) result text.now }
    ensures shorter { IfOk result (λ x. length x.1.now < length text.now) }
{
    if text.is_empty() {
        return Err(ReadError::At(text));
    }
    let (first, rest) = split(text);
    match value_in(first, variable) {
        Some(value) => Ok((value, rest)),
        None => Err(ReadError::At(text)),
    }
}

fn spaced_value(text: &[u8], variable: u64) -> Result<(bool, &[u8]), ReadError>
    requires { variable < limit }
    ensures gives { Gives (spaced (value_token variable)) (λ x. x.0) (λ x. x.1.now) result text.now }
    ensures shorter { IfOk result (λ x. length x.1.now < length text.now) }
{
    match value(text, variable) {
        Ok((value, rest)) => match word(rest, b" ") {
            Ok(rest) => Ok((value, rest)),
            Err(fault) => Err(fault),
        },
        Err(fault) => Err(fault),
    }
}

// The values of all variables.
#[tactic(auto, using(crate::proofs::Readers::values_start, crate::proofs::Readers::times_more, crate::proofs::Readers::times_stuck, crate::proofs::Readers::times_done))]
fn values(alloc: Global, text: &[u8], variables: u64) -> Result<(Assignment, &[u8]), ReadError>
    requires { variables < limit }
    ensures gives { Gives (times (λ v. spaced (value_token v)) 1 variables) (λ x. x.0) (λ x. x.1.now) result text.now }
{
    let mut values = Assignment::new(alloc);
    let mut rest = text;
    for variable in 1..variables + 1 {
        let (value, after) = spaced_value(rest, variable)?;
        values.push(value)?;
        rest = after;
    }
    Ok((values, rest))
}

// The values of all variables, and the end of their line.
#[tactic(auto, using(crate::proofs::Endings::values_end_opened))]
fn values_end(alloc: Global, text: &[u8], variables: u64) -> Result<(Assignment, &[u8]), ReadError>
    requires { variables < limit }
    ensures gives { GivesBy (values_end_read variables) (λ x. x.0) (λ x. x.1.now) result text.now }
{
    match values(alloc, text, variables) {
        Ok((values, rest)) => match last_word(rest, b"0") {
            Ok(rest) => Ok((values, rest)),
            Err(fault) => Err(fault),
        },
        Err(fault) => Err(fault),
    }
}

#[tactic(auto, using(crate::proofs::Endings::model_opened))]
fn model(alloc: Global, text: &[u8], variables: u64) -> Result<(Assignment, &[u8]), ReadError>
    requires { variables < limit }
    ensures gives { Gives (model_format variables) (λ x. x.0) (λ x. x.1.now) result text.now }
{
    match keyword(text, b"model") {
        Ok(rest) => values_end(alloc, rest, variables),
        Err(fault) => Err(fault),
    }
}

// The end of the verdict's line, and the model.
fn model_after(alloc: Global, text: &[u8], variables: u64) -> Result<(Assignment, &[u8]), ReadError>
    requires { variables < limit }
    ensures gives { Gives (words (lf ∷ []) (model_format variables)) (λ x. x.0) (λ x. x.1.now) result text.now }
{
    match word(text, b"\n") {
        Ok(rest) => match model(alloc, rest, variables) {
            Ok((values, rest)) => Ok((values, rest)),
            Err(fault) => Err(fault),
        },
        Err(fault) => Err(fault),
    }
}

#[derive(Drop)]
pub enum Outcome {
    Holds,
    Fails(Assignment),
    Undecided,
}

// What stands after the verdict's word, without the last line.
fn after_verdict(
    alloc: Global,
    text: &[u8],
    variables: u64,
    verdict: Verdict,
) -> Result<(Outcome, &[u8]), ReadError>
    requires { variables < limit }
    ensures gives { Gives (end_rest variables (word_of_verdict verdict)) (λ x. ending_of x.0) (λ x. x.1.now) result text.now }
{
    match verdict {
        Verdict::Holds => match word(text, b"\n") {
            Ok(rest) => Ok((Outcome::Holds, rest)),
            Err(fault) => Err(fault),
        },
        Verdict::Fails => match model_after(alloc, text, variables) {
            Ok((values, rest)) => Ok((Outcome::Fails(values), rest)),
            Err(fault) => Err(fault),
        },
        Verdict::Undecided => match word(text, b"\n") {
            Ok(rest) => Ok((Outcome::Undecided, rest)),
            Err(fault) => Err(fault),
        },
    }
}

#[tactic(auto, using(crate::proofs::Readers::chosen_opened, crate::proofs::Readers::chosen_stuck))]
pub(crate) fn read_outcome(
    alloc: Global,
    text: &[u8],
    variables: u64,
) -> Result<(Outcome, &[u8]), ReadError>
    requires { variables < limit }
    ensures gives { Gives (chosen variables) (λ x. ending_of x.0) (λ x. x.1.now) result text.now }
{
    match read_verdict(text) {
        Ok((verdict, rest)) => match after_verdict(alloc, rest, variables, verdict) {
            Ok((outcome, rest)) => Ok((outcome, rest)),
            Err(fault) => Err(fault),
        },
        Err(fault) => Err(fault),
    }
}

// The verdict's word, its model, and the last line.
#[tactic(auto, using(crate::proofs::Endings::outcome_end_opened))]
fn outcome_end(alloc: Global, text: &[u8], variables: u64) -> Result<(Outcome, &[u8]), ReadError>
    requires { variables < limit }
    ensures gives { GivesBy (outcome_end_read variables) (λ x. ending_of x.0) (λ x. x.1.now) result text.now }
{
    match read_outcome(alloc, text, variables) {
        Ok((outcome, rest)) => match last_word(rest, b"end") {
            Ok(rest) => Ok((outcome, rest)),
            Err(fault) => Err(fault),
        },
        Err(fault) => Err(fault),
    }
}

// The verdict, its model, and the last line.
#[tactic(auto, using(crate::proofs::Endings::ending_opened))]
pub(crate) fn ending(
    alloc: Global,
    text: &[u8],
    variables: u64,
) -> Result<(Outcome, &[u8]), ReadError>
    requires { variables < limit }
    ensures gives { Gives (ending_format variables) (λ x. ending_of x.0) (λ x. x.1.now) result text.now }
{
    match word(text, b" ") {
        Ok(rest) => outcome_end(alloc, rest, variables),
        Err(fault) => Err(fault),
    }
}
