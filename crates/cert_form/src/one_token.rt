// Readers of one token, and of a word or a number with what separates it.
ghost use Rattle.std.specs.Prelude.{◌≡◌, ◌<◌, ◌≤◌, ◌∷◌, [], false, ℕ, ◌+◌, ◌^◌, true, length, IfOk, IfSome, IfNone};
ghost use Rattle.std.specs.Fmt.{decimal};
ghost use Rattle.std.specs.Str.{bytes_eq};
ghost use Rattle.format.specs.Format.{nothing};
ghost use Rattle.cert_form.specs.Words.{words, lined, word as word_format, literal as literal_format, between, literal_of, sp, lf, number as number_format, number_of, in_range, limit};
ghost use Rattle.cert_form.specs.Texts.{Gives, GivesBy, starts, tokens};
ghost use Rattle.clause_form.specs.Literals.{variable};
ghost use Rattle.cert_form.specs.declared.one_token.ReadError.TheVariants.{Memory};

use crate::splitting::{number_of, split};
use clause_form::lit::Lit;
use std::alloc::AllocError;

/// Why a reader stopped: at the first token of this text, or at the end if it is empty.
#[derive(Drop)]
pub enum ReadError<'a> {
    Memory,
    At(&'a [u8]),
}

impl From<AllocError> for ReadError<'_> {
    ghost from_gives = { λ _ e. e ≡ Memory };

    fn from(_e: AllocError) -> Self {
        ReadError::Memory
    }
}

#[tactic(auto, using(crate::proofs::Readers::word_empty, crate::proofs::Readers::word_fits, crate::proofs::Readers::word_differs))]
pub(crate) fn word<'a>(text: &'a [u8], word: &[u8]) -> Result<&'a [u8], ReadError<'a>>
    ensures gives { Gives (word_format word.now) (λ _. tt) (λ r. r.now) result text.now }
    ensures shorter { IfOk result (λ r. length r.now < length text.now) }
{
    if text.is_empty() {
        return Err(ReadError::At(text));
    }
    let (first, rest) = split(text);
    if first == word {
        Ok(rest)
    } else {
        Err(ReadError::At(text))
    }
}

// What follows the word, if the text begins with it.
#[tactic(auto, using(crate::proofs::Readers::starts_empty, crate::proofs::Readers::starts_first, crate::proofs::Readers::starts_word))]
pub(crate) fn skip<'a>(text: &'a [u8], word: &[u8]) -> Option<&'a [u8]>
    ensures found { IfSome result (λ rest. tokens text.now ≡ word.now ∷ tokens rest.now) }
    ensures none { IfNone result (starts word.now (tokens text.now) ≡ false) }
    ensures shorter { IfSome result (λ rest. length rest.now < length text.now) }
{
    if text.is_empty() {
        return None;
    }
    let (first, rest) = split(text);
    if first == word { Some(rest) } else { None }
}

// The number that a token spells, where it is from low to below high.
#[tactic(auto, using(crate::proofs::Readers::range_narrows, crate::proofs::Readers::range_none))]
fn number_in(word: &[u8], low: u64, high: u64) -> Option<u64>
    requires { high ≤ limit }
    ensures is { result ≡ in_range low high (number_of word.now) }
    ensures within { IfSome result (λ x. (low ≤ x) × (x < high)) }
{
    let number = number_of(word)?;
    if number < low || high <= number {
        return None;
    }
    Some(number)
}

#[tactic(auto, using(crate::proofs::Readers::number_empty, crate::proofs::Readers::number_got, crate::proofs::Readers::number_stuck))]
pub(crate) fn number(text: &[u8], low: u64, high: u64) -> Result<(u64, &[u8]), ReadError>
    requires { high ≤ limit }
    ensures gives { Gives (number_format low high) (λ x. x.0) (λ x. x.1.now) result text.now }
    ensures within { IfOk result (λ x. (low ≤ x.0) × (x.0 < high)) }
    ensures shorter { IfOk result (λ x. length x.1.now < length text.now) }
{
    if text.is_empty() {
        return Err(ReadError::At(text));
    }
    let (first, rest) = split(text);
    match number_in(first, low, high) {
        Some(number) => Ok((number, rest)),
        None => Err(ReadError::At(text)),
    }
}

// The literal that a token spells, where its variable is above the first number and at most the second.
#[tactic(auto, using(crate::proofs::Readers::literal_nothing, crate::proofs::Readers::literal_minus, crate::proofs::Readers::literal_plain))]
fn literal_in(word: &[u8], above: u64, variables: u64) -> Option<Lit>
    requires few { variables < limit }
    requires above { above ≤ variables }
    ensures { result ≡ between above variables (literal_of word.now) }
{
    if word.is_empty() {
        return None;
    }
    if word[0] == b'-' {
        let (_, digits) = word.split_at(1);
        let variable = number_in(digits, above + 1, variables + 1)?;
        return Some(Lit(2 * variable + 1));
    }
    let variable = number_in(word, above + 1, variables + 1)?;
    Some(Lit(2 * variable))
}

#[tactic(auto, using(crate::proofs::Readers::literal_empty, crate::proofs::Readers::literal_got, crate::proofs::Readers::literal_stuck, crate::proofs::Readers::between_parts))]
pub(crate) fn literal(text: &[u8], above: u64, variables: u64) -> Result<(Lit, &[u8]), ReadError>
    requires few { variables < limit }
    requires above { above ≤ variables }
    ensures gives { Gives (literal_format above variables) (λ x. x.0) (λ x. x.1.now) result text.now }
    ensures between { IfOk result (λ x. (above < variable x.0) × (variable x.0 ≤ variables)) }
    ensures shorter { IfOk result (λ x. length x.1.now < length text.now) }
{
    if text.is_empty() {
        return Err(ReadError::At(text));
    }
    let (first, rest) = split(text);
    match literal_in(first, above, variables) {
        Some(lit) => Ok((lit, rest)),
        None => Err(ReadError::At(text)),
    }
}

#[tactic(auto, using(crate::proofs::Readers::fixed_some, crate::proofs::Readers::fixed_none))]
pub(crate) fn is_decimal(word: &[u8], number: u64) -> bool
    requires { number < limit }
    ensures { result ≡ bytes_eq word.now (decimal number) }
{
    match number_of(word) {
        Some(found) => found == number,
        None => false,
    }
}

// The word that is the number in decimal.
#[tactic(auto, using(crate::proofs::Readers::word_empty, crate::proofs::Readers::word_fits, crate::proofs::Readers::word_differs))]
pub(crate) fn fixed(text: &[u8], number: u64) -> Result<&[u8], ReadError>
    requires { number < limit }
    ensures gives { Gives (word_format (decimal number)) (λ _. tt) (λ r. r.now) result text.now }
    ensures shorter { IfOk result (λ r. length r.now < length text.now) }
{
    if text.is_empty() {
        return Err(ReadError::At(text));
    }
    let (first, rest) = split(text);
    if is_decimal(first, number) {
        Ok(rest)
    } else {
        Err(ReadError::At(text))
    }
}

// A word and a space.
pub(crate) fn keyword<'a>(text: &'a [u8], keyword: &[u8]) -> Result<&'a [u8], ReadError<'a>>
    ensures gives { Gives (words (keyword.now ∷ sp ∷ []) nothing) (λ _. tt) (λ r. r.now) result text.now }
    ensures shorter { IfOk result (λ r. length r.now < length text.now) }
{
    match word(text, keyword) {
        Ok(rest) => word(rest, b" "),
        Err(fault) => Err(fault),
    }
}

// A word at the end of a line.
pub(crate) fn last_word<'a>(text: &'a [u8], last: &[u8]) -> Result<&'a [u8], ReadError<'a>>
    ensures gives { Gives (words (last.now ∷ lf ∷ []) nothing) (λ _. tt) (λ r. r.now) result text.now }
    ensures shorter { IfOk result (λ r. length r.now < length text.now) }
{
    match word(text, last) {
        Ok(rest) => word(rest, b"\n"),
        Err(fault) => Err(fault),
    }
}

pub(crate) fn number_line(text: &[u8], low: u64, high: u64) -> Result<(u64, &[u8]), ReadError>
    requires { high ≤ limit }
    ensures gives { Gives (lined (number_format low high)) (λ x. x.0) (λ x. x.1.now) result text.now }
    ensures within { IfOk result (λ x. (low ≤ x.0) × (x.0 < high)) }
    ensures shorter { IfOk result (λ x. length x.1.now < length text.now) }
{
    match number(text, low, high) {
        Ok((number, rest)) => match word(rest, b"\n") {
            Ok(rest) => Ok((number, rest)),
            Err(fault) => Err(fault),
        },
        Err(fault) => Err(fault),
    }
}
