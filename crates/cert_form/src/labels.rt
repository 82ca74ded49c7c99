// Readers of labels, of which nothing is kept.
ghost use Rattle.std.specs.Prelude.{◌≡◌, ◌<◌, ◌≤◌, ◌∷◌, [], ℕ, length, IfOk};
ghost use Rattle.std.specs.Fmt.{decimal};
ghost use Rattle.format.specs.Format.{nothing};
ghost use Rattle.cert_form.specs.Parts.{arrive_read, idle_read, label_read, label_rest_read, labels_read, name_read, step_read};
ghost use Rattle.cert_form.specs.Texts.{Gives, GivesBy};
ghost use Rattle.cert_form.specs.Words.{are_of_name, is_name, limit, sp, words};

use crate::one_token::{ReadError, fixed, keyword, number_line, skip, word};
use crate::splitting::{is_digit, is_first_of_name, split};

// Whether each byte may stand in a name.
fn are_of_name(bytes: &[u8]) -> bool
    ensures { result ≡ are_of_name bytes.now }
{
    for byte in bytes {
        if !(is_first_of_name(*byte) || is_digit(*byte)) {
            return false;
        }
    }
    true
}

#[tactic(auto, using(crate::proofs::LabelParts::name_nothing, crate::proofs::LabelParts::name_some))]
fn is_name(word: &[u8]) -> bool
    ensures { result ≡ is_name word.now }
{
    if word.is_empty() {
        return false;
    }
    let (_, rest) = word.split_at(1);
    is_first_of_name(word[0]) && are_of_name(rest)
}

#[tactic(auto, using(crate::proofs::LabelParts::name_empty, crate::proofs::LabelParts::name_got, crate::proofs::LabelParts::name_stuck))]
fn name(text: &[u8]) -> Result<&[u8], ReadError>
    ensures gives { GivesBy name_read (λ _. tt) (λ r. r.now) result text.now }
    ensures shorter { IfOk result (λ r. length r.now < length text.now) }
{
    if text.is_empty() {
        return Err(ReadError::At(text));
    }
    let (first, rest) = split(text);
    if is_name(first) {
        Ok(rest)
    } else {
        Err(ReadError::At(text))
    }
}

// What stands after `idle`.
#[tactic(auto, using(crate::proofs::LabelParts::idle_opened))]
fn idle(text: &[u8]) -> Result<&[u8], ReadError>
    ensures gives { GivesBy idle_read (λ _. tt) (λ r. r.now) result text.now }
    ensures shorter { IfOk result (λ r. length r.now < length text.now) }
{
    word(text, b"\n")
}

// What stands after `arrive`.
#[tactic(auto, using(crate::proofs::LabelParts::arrive_opened))]
fn arrive(text: &[u8]) -> Result<&[u8], ReadError>
    ensures gives { GivesBy arrive_read (λ _. tt) (λ r. r.now) result text.now }
    ensures shorter { IfOk result (λ r. length r.now < length text.now) }
{
    let rest = match word(text, b" ") {
        Ok(rest) => rest,
        Err(fault) => return Err(fault),
    };
    match name(rest) {
        Ok(rest) => word(rest, b"\n"),
        Err(fault) => Err(fault),
    }
}

// What stands after `step`.
#[tactic(auto, using(crate::proofs::LabelParts::step_opened))]
fn step(text: &[u8]) -> Result<&[u8], ReadError>
    ensures gives { GivesBy step_read (λ _. tt) (λ r. r.now) result text.now }
    ensures shorter { IfOk result (λ r. length r.now < length text.now) }
{
    let rest = match word(text, b" ") {
        Ok(rest) => rest,
        Err(fault) => return Err(fault),
    };
    let rest = match name(rest) {
        Ok(rest) => rest,
        Err(fault) => return Err(fault),
    };
    let rest = match word(rest, b" ") {
        Ok(rest) => rest,
        Err(fault) => return Err(fault),
    };
    match number_line(rest, 0, 1 << 63) {
        Ok((_, rest)) => Ok(rest),
        Err(fault) => Err(fault),
    }
}

#[tactic(auto, using(crate::proofs::LabelParts::label_idle, crate::proofs::LabelParts::label_arrive, crate::proofs::LabelParts::label_step, crate::proofs::LabelParts::label_stuck))]
fn label_rest(text: &[u8]) -> Result<&[u8], ReadError>
    ensures gives { GivesBy label_rest_read (λ _. tt) (λ r. r.now) result text.now }
    ensures shorter { IfOk result (λ r. length r.now < length text.now) }
{
    if let Some(rest) = skip(text, b"idle") {
        return idle(rest);
    }
    if let Some(rest) = skip(text, b"arrive") {
        return arrive(rest);
    }
    if let Some(rest) = skip(text, b"step") {
        return step(rest);
    }
    Err(ReadError::At(text))
}

// A word, a space, a number that is given, and a space.
pub(crate) fn front<'a>(
    text: &'a [u8],
    first: &[u8],
    number: u64,
) -> Result<&'a [u8], ReadError<'a>>
    requires { number < limit }
    ensures gives { GivesBy (words (first.now ∷ sp ∷ decimal number ∷ sp ∷ []) nothing).read (λ _. tt) (λ r. r.now) result text.now }
    ensures shorter { IfOk result (λ r. length r.now < length text.now) }
{
    let rest = match keyword(text, first) {
        Ok(rest) => rest,
        Err(fault) => return Err(fault),
    };
    let rest = match fixed(rest, number) {
        Ok(rest) => rest,
        Err(fault) => return Err(fault),
    };
    word(rest, b" ")
}

#[tactic(auto, using(crate::proofs::LabelParts::label_opened))]
fn label(text: &[u8], number: u64) -> Result<&[u8], ReadError>
    requires { number < limit }
    ensures gives { GivesBy (label_read number) (λ _. tt) (λ r. r.now) result text.now }
    ensures shorter { IfOk result (λ r. length r.now < length text.now) }
{
    match front(text, b"label", number) {
        Ok(rest) => label_rest(rest),
        Err(fault) => Err(fault),
    }
}

#[tactic(auto, using(crate::proofs::LabelParts::labels_start, crate::proofs::LabelParts::labels_more, crate::proofs::LabelParts::labels_stuck, crate::proofs::LabelParts::labels_done))]
pub(crate) fn labels(text: &[u8], count: u64) -> Result<&[u8], ReadError>
    requires { count ≤ limit }
    ensures gives { GivesBy (labels_read 0 count) (λ _. tt) (λ r. r.now) result text.now }
    ensures shorter { IfOk result (λ r. length r.now ≤ length text.now) }
{
    let mut rest = text;
    for number in 0..count {
        rest = label(rest, number)?;
    }
    Ok(rest)
}
