// Bytes of words, and the front of a text.
ghost use Rattle.std.specs.Prelude.{◌≡◌, ◌≤◌, ◌<◌, ◌+◌, true, length, take, drop};
ghost use Rattle.std.specs.List.{prefix_len};
ghost use Rattle.c_lex.specs.Blanks.{begins, begins_two};
ghost use Rattle.c_lex.specs.Numbers.{is_digit};
ghost use Rattle.c_lex.specs.Pieces.{is_letter, is_of_word, word_of, after_word, is_name, begins_digit};

pub fn is_digit(byte: u8) -> bool
    ensures { result ≡ is_digit byte }
{
    b'0' <= byte && byte <= b'9'
}

pub fn is_letter(byte: u8) -> bool
    ensures { result ≡ is_letter byte }
{
    (b'A' <= byte && byte <= b'Z') || (b'a' <= byte && byte <= b'z') || byte == b'_'
}

pub fn is_of_word(byte: u8) -> bool
    ensures { result ≡ is_of_word byte }
{
    is_letter(byte) || is_digit(byte)
}

/// The bytes begin with this one.
pub fn begins(byte: u8, bytes: &[u8]) -> bool
    ensures { result ≡ begins byte bytes.now }
{
    match bytes.first() {
        Some(first) => *first == byte,
        None => false,
    }
}

/// The bytes begin with these two.
#[tactic(auto, using(crate::proofs::Closing::two_long))]
pub fn begins_two(first: u8, second: u8, bytes: &[u8]) -> bool
    ensures begins { result ≡ begins_two first second bytes.now }
    ensures long { result ≡ true → 2 ≤ length bytes.now }
{
    match bytes.split_first() {
        Some((byte, rest)) => *byte == first && begins(second, rest),
        None => false,
    }
}

/// The bytes begin with a letter or `_`.
pub fn is_name(bytes: &[u8]) -> bool
    ensures { result ≡ is_name bytes.now }
{
    match bytes.first() {
        Some(byte) => is_letter(*byte),
        None => false,
    }
}

/// The bytes begin with a digit.
pub fn begins_digit(bytes: &[u8]) -> bool
    ensures { result ≡ begins_digit bytes.now }
{
    match bytes.first() {
        Some(byte) => is_digit(*byte),
        None => false,
    }
}

// How many letters, digits and `_` stand at the front.
fn word_length(bytes: &[u8]) -> usize
    ensures count { result ≡ prefix_len is_of_word bytes.now }
    ensures within { result ≤ length bytes.now }
{
    bytes.iter().take_while(|byte| is_of_word(**byte)).count()
}

/// The longest run of letters, digits and `_` at the front, and what stands after it.
pub fn split_word(bytes: &[u8]) -> (&[u8], &[u8])
    ensures word { result.0.now ≡ word_of bytes.now }
    ensures rest { result.1.now ≡ after_word bytes.now }
    ensures all { length result.0.now + length result.1.now ≡ length bytes.now }
{
    bytes.split_at(word_length(bytes))
}
