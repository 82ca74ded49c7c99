// Classes of bytes.
ghost use Rattle.std.specs.Prelude.{◌≡◌, ◌≤◌, true, length};
ghost use Rattle.std.specs.List.{prefix_len};
ghost use Rattle.oil_text.specs.Bytes.{is_blank, is_digit, is_hexadecimal, is_letter, is_x, is_e, is_sign, mark_of};
ghost use Rattle.oil_text.specs.Pieces.{after_bytes, is_end};
ghost use Rattle.oil_text.specs.ByteClass.{test_of};

use crate::token::Mark;

pub(crate) fn is_blank(byte: u8) -> bool
    ensures { result ≡ is_blank byte }
{
    byte == b' ' || byte == b'\t' || byte == b'\r' || byte == b'\n'
}

pub(crate) fn is_digit(byte: u8) -> bool
    ensures { result ≡ is_digit byte }
{
    b'0' <= byte && byte <= b'9'
}

fn is_hexadecimal(byte: u8) -> bool
    ensures { result ≡ is_hexadecimal byte }
{
    is_digit(byte) || (b'A' <= byte && byte <= b'F') || (b'a' <= byte && byte <= b'f')
}

pub(crate) fn is_letter(byte: u8) -> bool
    ensures { result ≡ is_letter byte }
{
    (b'A' <= byte && byte <= b'Z') || (b'a' <= byte && byte <= b'z') || byte == b'_'
}

pub(crate) fn is_x(byte: u8) -> bool
    ensures { result ≡ is_x byte }
{
    byte == b'x' || byte == b'X'
}

pub(crate) fn is_e(byte: u8) -> bool
    ensures { result ≡ is_e byte }
{
    byte == b'e' || byte == b'E'
}

pub(crate) fn is_sign(byte: u8) -> bool
    ensures { result ≡ is_sign byte }
{
    byte == b'+' || byte == b'-'
}

/// Classes of which many bytes may stand one after another.
#[derive(Clone, Copy, PartialEq, Eq, Debug)]
pub(crate) enum ByteClass {
    Name,
    Digit,
    Hexadecimal,
    Line,
}

fn belongs(byte: u8, class: ByteClass) -> bool
    ensures { result ≡ test_of class byte }
{
    match class {
        ByteClass::Name => is_letter(byte) || is_digit(byte),
        ByteClass::Digit => is_digit(byte),
        ByteClass::Hexadecimal => is_hexadecimal(byte),
        ByteClass::Line => byte != b'\n',
    }
}

/// How many bytes of the class stand at the front.
#[tactic(auto, using(crate::proofs::Longest::prefix_le))]
pub(crate) fn run(bytes: &[u8], class: ByteClass) -> usize
    ensures count { result ≡ prefix_len (test_of class) bytes.now }
    ensures within { result ≤ length bytes.now }
{
    for (i, byte) in bytes.iter().enumerate() {
        if !belongs(*byte, class) {
            return i;
        }
    }
    bytes.len()
}

pub(crate) fn mark_of(byte: u8) -> Option<Mark>
    ensures { result ≡ mark_of byte }
{
    match byte {
        b'=' => Some(Mark::Equals),
        b';' => Some(Mark::Semicolon),
        b'{' => Some(Mark::OpeningBrace),
        b'}' => Some(Mark::ClosingBrace),
        b':' => Some(Mark::Colon),
        b'[' => Some(Mark::OpeningBracket),
        b']' => Some(Mark::ClosingBracket),
        b',' => Some(Mark::Comma),
        b'.' => Some(Mark::Dot),
        b'<' => Some(Mark::Less),
        b'>' => Some(Mark::Greater),
        b'+' => Some(Mark::Plus),
        b'-' => Some(Mark::Minus),
        _ => None,
    }
}

/// Do the bytes begin with the word?
#[tactic(auto, using(crate::proofs::Longest::word_in_front))]
pub(crate) fn begins_with(bytes: &[u8], word: &[u8]) -> bool
    ensures { result ≡ after_bytes word.now (λ more. true) bytes.now }
{
    bytes.starts_with(word)
}

/// Are the bytes the word?
#[tactic(auto, using(crate::proofs::Longest::word_is))]
pub(crate) fn is_word(bytes: &[u8], word: &[u8]) -> bool
    ensures { result ≡ after_bytes word.now is_end bytes.now }
{
    word == bytes
}
