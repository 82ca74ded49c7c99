// The longest piece that a text begins with: a blank, a comment or a token.
ghost use Rattle.std.specs.Prelude.{◌≡◌, ◌<◌, ◌≤◌, true, false, length, get_or, IfSome, IfNone};
ghost use Rattle.oil_text.specs.Bytes.{is_blank, is_digit, is_letter};
ghost use Rattle.oil_text.specs.Pieces.{is_piece, is_exponent, is_fraction, is_hexadecimal_number, is_string_end, is_comment_end, name_kind, BeginsWith, IsLongest, NonePasses};

use crate::bytes::{
    ByteClass, begins_with, is_blank, is_digit, is_e, is_letter, is_sign, is_word, is_x, mark_of,
    run,
};
use crate::token::{Kind, Piece};

fn name_kind(bytes: &[u8]) -> Kind
    ensures { result ≡ name_kind bytes.now }
{
    if is_word(bytes, b"OIL_VERSION") {
        Kind::Version
    } else if is_word(bytes, b"IMPLEMENTATION") {
        Kind::Implementation
    } else if is_word(bytes, b"CPU") {
        Kind::Cpu
    } else {
        Kind::OtherName
    }
}

#[tactic(auto, using(crate::proofs::PieceLaws::name_begins))]
fn name(text: &[u8]) -> (Piece, usize)
    requires not_empty { 0 < length text.now }
    requires blank { is_blank (get_or text.now 0 0) ≡ false }
    requires letter { is_letter (get_or text.now 0 0) ≡ true }
    ensures { BeginsWith text.now result.0 result.1 }
{
    let (_, rest) = text.split_at(1);
    let len = run(rest, ByteClass::Name) + 1;
    (Piece::Spelled(name_kind(&text[..len])), len)
}

/// How many bytes an exponent has, and 0 where none stands at the front.
#[tactic(auto, using(crate::proofs::PieceLaws::with_exponent, crate::proofs::PieceLaws::no_exponent_short, crate::proofs::PieceLaws::no_exponent, crate::proofs::PieceLaws::no_exponent_digits))]
fn exponent(bytes: &[u8]) -> usize
    ensures { IsLongest is_exponent bytes.now result }
{
    if bytes.len() < 2 {
        return 0;
    }
    let (_, rest) = bytes.split_at(2);
    let digits = run(rest, ByteClass::Digit);
    if is_e(bytes[0]) && is_sign(bytes[1]) && digits > 0 {
        digits + 2
    } else {
        0
    }
}

/// How many bytes a point with its digits and its exponent has, if one stands at the front.
#[tactic(auto, using(crate::proofs::PieceLaws::with_fraction, crate::proofs::PieceLaws::no_fraction_empty, crate::proofs::PieceLaws::no_fraction, crate::proofs::PieceLaws::no_fraction_digits))]
fn fraction(bytes: &[u8]) -> Option<usize>
    ensures found { IfSome result (λ n. IsLongest is_fraction bytes.now n) }
    ensures none { IfNone result (NonePasses is_fraction bytes.now) }
{
    if bytes.is_empty() || bytes[0] != b'.' {
        return None;
    }
    let (_, rest) = bytes.split_at(1);
    let digits = run(rest, ByteClass::Digit);
    if digits == 0 {
        return None;
    }
    let (_, rest) = rest.split_at(digits);
    Some(exponent(rest) + digits + 1)
}

/// How many bytes a hexadecimal number has, if one stands at the front.
#[tactic(auto, using(crate::proofs::PieceLaws::with_hexadecimal, crate::proofs::PieceLaws::no_hexadecimal_short, crate::proofs::PieceLaws::no_hexadecimal, crate::proofs::PieceLaws::no_hexadecimal_digits))]
fn hexadecimal(bytes: &[u8]) -> Option<usize>
    ensures found { IfSome result (λ n. IsLongest is_hexadecimal_number bytes.now n) }
    ensures none { IfNone result (NonePasses is_hexadecimal_number bytes.now) }
{
    if bytes.len() < 2 || bytes[0] != b'0' || !is_x(bytes[1]) {
        return None;
    }
    let (_, rest) = bytes.split_at(2);
    let digits = run(rest, ByteClass::Hexadecimal);
    if digits == 0 {
        return None;
    }
    Some(digits + 2)
}

fn number(text: &[u8]) -> (Piece, usize)
    requires not_empty { 0 < length text.now }
    requires blank { is_blank (get_or text.now 0 0) ≡ false }
    requires letter { is_letter (get_or text.now 0 0) ≡ false }
    requires digit { is_digit (get_or text.now 0 0) ≡ true }
    ensures { BeginsWith text.now result.0 result.1 }
{
    match hexadecimal(text) {
        Some(len) => (Piece::Spelled(Kind::Integer), len),
        None => decimal(text),
    }
}

fn decimal(text: &[u8]) -> (Piece, usize)
    requires not_empty { 0 < length text.now }
    requires blank { is_blank (get_or text.now 0 0) ≡ false }
    requires letter { is_letter (get_or text.now 0 0) ≡ false }
    requires digit { is_digit (get_or text.now 0 0) ≡ true }
    requires no_hexadecimal { NonePasses is_hexadecimal_number text.now }
    ensures { BeginsWith text.now result.0 result.1 }
{
    let digits = run(text, ByteClass::Digit);
    let (_, rest) = text.split_at(digits);
    match fraction(rest) {
        Some(len) => (Piece::Spelled(Kind::Point), digits + len),
        None => (Piece::Spelled(Kind::Integer), digits),
    }
}

/// How many bytes there are up to and with the quotation mark that ends a string.
fn string_end(bytes: &[u8]) -> Option<usize>
    ensures found { IfSome result (λ n. IsLongest is_string_end bytes.now n) }
    ensures none { IfNone result (NonePasses is_string_end bytes.now) }
{
    for (i, byte) in bytes.iter().enumerate() {
        if *byte == b'"' {
            return Some(i + 1);
        }
        if *byte == b'\n' {
            return None;
        }
    }
    None
}

#[tactic(auto, using(crate::proofs::PieceLaws::string_begins, crate::proofs::PieceLaws::string_none))]
fn string(text: &[u8]) -> Option<(Piece, usize)>
    requires not_empty { 0 < length text.now }
    requires quote { get_or text.now 0 0 ≡ 34 }
    ensures found { IfSome result (λ x. BeginsWith text.now x.0 x.1) }
    ensures none { IfNone result (NonePasses is_piece text.now) }
{
    let (_, rest) = text.split_at(1);
    match string_end(rest) {
        Some(len) => Some((Piece::Spelled(Kind::Quoted), len + 1)),
        None => None,
    }
}

#[tactic(auto, using(crate::proofs::PieceLaws::include_begins, crate::proofs::PieceLaws::include_none))]
fn include(text: &[u8]) -> Option<(Piece, usize)>
    requires not_empty { 0 < length text.now }
    requires hash { get_or text.now 0 0 ≡ 35 }
    ensures found { IfSome result (λ x. BeginsWith text.now x.0 x.1) }
    ensures none { IfNone result (NonePasses is_piece text.now) }
{
    let (_, rest) = text.split_at(1);
    if !begins_with(rest, b"include") {
        return None;
    }
    let (_, rest) = rest.split_at(7);
    Some((
        Piece::Spelled(Kind::Include),
        run(rest, ByteClass::Line) + 8,
    ))
}

/// How many bytes there are up to and with the first `*/`.
fn comment_end(bytes: &[u8]) -> Option<usize>
    ensures found { IfSome result (λ n. IsLongest is_comment_end bytes.now n) }
    ensures none { IfNone result (NonePasses is_comment_end bytes.now) }
{
    let mut at = 0;
    while at + 1 < bytes.len() {
        if bytes[at] == b'*' && bytes[at + 1] == b'/' {
            return Some(at + 2);
        }
        at += 1;
    }
    None
}

#[tactic(auto, using(crate::proofs::PieceLaws::line_comment, crate::proofs::PieceLaws::block_comment, crate::proofs::PieceLaws::block_none, crate::proofs::PieceLaws::slash_alone, crate::proofs::PieceLaws::slash_other))]
fn comment(text: &[u8]) -> Option<(Piece, usize)>
    requires not_empty { 0 < length text.now }
    requires slash { get_or text.now 0 0 ≡ 47 }
    ensures found { IfSome result (λ x. BeginsWith text.now x.0 x.1) }
    ensures none { IfNone result (NonePasses is_piece text.now) }
{
    if text.len() < 2 {
        return None;
    }
    let (_, rest) = text.split_at(2);
    if text[1] == b'/' {
        return Some((Piece::Skipped, run(rest, ByteClass::Line) + 2));
    }
    if text[1] != b'*' {
        return None;
    }
    match comment_end(rest) {
        Some(len) => Some((Piece::Skipped, len + 2)),
        None => None,
    }
}

#[tactic(auto, using(crate::proofs::PieceLaws::mark_begins, crate::proofs::PieceLaws::mark_none))]
fn mark(text: &[u8]) -> Option<(Piece, usize)>
    requires not_empty { 0 < length text.now }
    requires blank { is_blank (get_or text.now 0 0) ≡ false }
    requires letter { is_letter (get_or text.now 0 0) ≡ false }
    requires digit { is_digit (get_or text.now 0 0) ≡ false }
    requires quote { get_or text.now 0 0 ≡ 34 → ⊥ }
    requires hash { get_or text.now 0 0 ≡ 35 → ⊥ }
    requires slash { get_or text.now 0 0 ≡ 47 → ⊥ }
    ensures found { IfSome result (λ x. BeginsWith text.now x.0 x.1) }
    ensures none { IfNone result (NonePasses is_piece text.now) }
{
    match mark_of(text[0]) {
        Some(mark) => Some((Piece::Spelled(Kind::Mark(mark)), 1)),
        None => None,
    }
}

#[tactic(auto, using(crate::proofs::PieceLaws::blank_begins))]
fn blank(text: &[u8]) -> (Piece, usize)
    requires not_empty { 0 < length text.now }
    requires blank { is_blank (get_or text.now 0 0) ≡ true }
    ensures { BeginsWith text.now result.0 result.1 }
{
    (Piece::Skipped, 1)
}

/// The longest piece that the text begins with, and how many bytes it has.
pub(crate) fn piece(text: &[u8]) -> Option<(Piece, usize)>
    requires { 0 < length text.now }
    ensures found { IfSome result (λ x. BeginsWith text.now x.0 x.1) }
    ensures none { IfNone result (NonePasses is_piece text.now) }
{
    let first = text[0];
    if is_blank(first) {
        return Some(blank(text));
    }
    if is_letter(first) {
        return Some(name(text));
    }
    if is_digit(first) {
        return Some(number(text));
    }
    match first {
        b'"' => string(text),
        b'#' => include(text),
        b'/' => comment(text),
        _ => mark(text),
    }
}
