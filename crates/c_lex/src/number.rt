// Integer constants.
ghost use Rattle.std.specs.Prelude.{◌≡◌, ◌≤◌, ◌<◌, ◌*◌, ◌^◌, min, true, length, take, drop, Some, None, if◌then◌else◌};
ghost use Rattle.std.specs.List.{prefix_len};
ghost use Rattle.c_lex.specs.Numbers.{is_digit_of, digit_value, radix, value, is_u, is_l, is_suffix, has_u, is_decimal, fits, is_unsigned, number_with, number_in, number_of};

use crate::bytes::{begins, begins_two, is_digit};
use crate::token::TokenKind;

// The base of a number.
#[derive(Clone, Copy, PartialEq, Eq, Debug)]
enum Base {
    Decimal,
    Octal,
    Hexadecimal,
}

fn radix(base: Base) -> u64
    ensures { result ≡ radix base }
{
    match base {
        Base::Decimal => 10,
        Base::Octal => 8,
        Base::Hexadecimal => 16,
    }
}

fn is_digit_of(base: Base, byte: u8) -> bool
    ensures { result ≡ is_digit_of base byte }
{
    match base {
        Base::Decimal => is_digit(byte),
        Base::Octal => b'0' <= byte && byte <= b'7',
        Base::Hexadecimal => {
            is_digit(byte) || (b'a' <= byte && byte <= b'f') || (b'A' <= byte && byte <= b'F')
        }
    }
}

// The value of a digit.
fn digit_value(byte: u8) -> u64
    ensures value { result ≡ digit_value byte }
    ensures small { result ≤ 255 }
{
    if is_digit(byte) {
        (byte - b'0') as u64
    } else if b'a' <= byte {
        (byte - 87) as u64
    } else {
        byte.saturating_sub(55) as u64
    }
}

fn is_u(byte: u8) -> bool
    ensures { result ≡ is_u byte }
{
    byte == b'u' || byte == b'U'
}

fn is_l(byte: u8) -> bool
    ensures { result ≡ is_l byte }
{
    byte == b'l' || byte == b'L'
}

fn is_suffix(suffix: &[u8]) -> bool
    ensures { result ≡ is_suffix suffix.now }
{
    match suffix {
        [] => true,
        [byte] => is_u(*byte) || is_l(*byte),
        [first, second] => { (is_u(*first) && is_l(*second)) || (is_l(*first) && is_u(*second)) }
        _ => false,
    }
}

// A number with one more digit's room: ten, eight or sixteen times as much.
fn shifted(base: Base, value: u64) -> u64
    requires { value ≤ 2 ^ 32 }
    ensures value { result ≡ value * radix base }
    ensures small { result ≤ 2 ^ 36 }
{
    match base {
        Base::Decimal => value * 10,
        Base::Octal => value * 8,
        Base::Hexadecimal => value * 16,
    }
}

// The value of the digits, or 2^32 if it is more.
#[tactic(auto, using(crate::proofs::Values::capped_more))]
fn value(base: Base, digits: &[u8]) -> u64
    ensures { result ≡ min (2 ^ 32) (value (radix base) digits.now) }
{
    let mut value = 0u64;
    for digit in digits {
        value = (shifted(base, value) + digit_value(*digit)).min(1 << 32);
    }
    value
}

fn has_u(suffix: &[u8]) -> bool
    ensures { result ≡ has_u suffix.now }
{
    suffix.iter().any(|byte| is_u(*byte))
}

fn fits(base: Base, asks_unsigned: bool, bits: u64) -> bool
    ensures fits { result ≡ fits base asks_unsigned bits }
    ensures small { result ≡ true → bits < 2 ^ 32 }
{
    bits < 1 << 32 && (base != Base::Decimal || asks_unsigned || bits <= 2_147_483_647)
}

fn is_unsigned(base: Base, asks_unsigned: bool, bits: u64) -> bool
    ensures { result ≡ is_unsigned base asks_unsigned bits }
{
    asks_unsigned || (base != Base::Decimal && bits > 2_147_483_647)
}

// The number of these digits and this suffix, if they are those of one.
#[tactic(auto, using(crate::proofs::Values::with_capped))]
fn number_with(base: Base, digits: &[u8], suffix: &[u8]) -> Option<TokenKind>
    ensures { result ≡ number_with base digits.now suffix.now }
{
    let bits = value(base, digits);
    let asks_unsigned = has_u(suffix);
    if !digits.is_empty() && is_suffix(suffix) && fits(base, asks_unsigned, bits) {
        Some(TokenKind::Number {
            bits: bits as u32,
            unsigned: is_unsigned(base, asks_unsigned, bits),
        })
    } else {
        None
    }
}

// How many digits of this base stand at the front.
fn digits_length(base: Base, run: &[u8]) -> usize
    ensures count { result ≡ prefix_len (is_digit_of base) run.now }
    ensures within { result ≤ length run.now }
{
    run.iter()
        .take_while(|byte| is_digit_of(base, **byte))
        .count()
}

// The number of a run of digits of this base, as many as there are, and of a suffix.
fn number_in(base: Base, run: &[u8]) -> Option<TokenKind>
    ensures { result ≡ number_in base run.now }
{
    let (digits, suffix) = run.split_at(digits_length(base, run));
    number_with(base, digits, suffix)
}

/// The number that a run of digits, letters and `_` is, if it is one.
pub fn number_of(run: &[u8]) -> Option<TokenKind>
    ensures { result ≡ number_of run.now }
{
    if begins_two(b'0', b'x', run) || begins_two(b'0', b'X', run) {
        return number_in(Base::Hexadecimal, &run[2..]);
    }
    if begins(b'0', run) {
        return number_in(Base::Octal, run);
    }
    number_in(Base::Decimal, run)
}
