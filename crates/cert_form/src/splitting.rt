// Texts into tokens, one after another.
ghost use Rattle.std.specs.Prelude.{◌≡◌, ◌<◌, ◌≤◌, ◌+◌, ◌-◌, ◌*◌, ◌∷◌, ℕ, true, length, take, drop};
ghost use Rattle.std.specs.Str.{all_ascii_digits};
ghost use Rattle.cert_form.specs.Words.{is_first_of_name, is_digit, is_number, number_of, in_range, limit};
ghost use Rattle.cert_form.specs.Texts.{is_of_word, run, tokens};

pub(crate) fn is_first_of_name(byte: u8) -> bool
    ensures { result ≡ is_first_of_name byte }
{
    (b'A' <= byte && byte <= b'Z') || (b'a' <= byte && byte <= b'z') || byte == b'_'
}

pub(crate) fn is_digit(byte: u8) -> bool
    ensures { result ≡ is_digit byte }
{
    b'0' <= byte && byte <= b'9'
}

pub(crate) fn is_of_word(byte: u8) -> bool
    ensures { result ≡ is_of_word byte }
{
    is_first_of_name(byte) || is_digit(byte) || byte == b'-'
}

// How many bytes of a word stand at the front.
#[tactic(auto, using(crate::proofs::Texts::run_le))]
fn run(text: &[u8]) -> usize
    ensures count { result ≡ length (run text.now) }
    ensures within { result ≤ length text.now }
{
    for (i, byte) in text.iter().enumerate() {
        if !is_of_word(*byte) {
            return i;
        }
    }
    text.len()
}

// How many bytes the first token has.
#[tactic(auto, using(crate::proofs::Texts::front_word, crate::proofs::Texts::front_other))]
fn front(text: &[u8]) -> usize
    requires { 0 < length text.now }
    ensures first { tokens text.now ≡ take result text.now ∷ tokens (drop result text.now) }
    ensures some { 0 < result }
    ensures within { result ≤ length text.now }
{
    let len = run(text);
    if len == 0 {
        return 1;
    }
    len
}

// The first token, and what follows it.
pub(crate) fn split(text: &[u8]) -> (&[u8], &[u8])
    requires { 0 < length text.now }
    ensures first { tokens text.now ≡ result.0.now ∷ tokens result.1.now }
    ensures shorter { length result.1.now < length text.now }
{
    text.split_at(front(text))
}

fn all_digits(word: &[u8]) -> bool
    ensures { result ≡ all_ascii_digits word.now }
{
    for byte in word {
        if !is_digit(*byte) {
            return false;
        }
    }
    true
}

#[tactic(auto, using(crate::proofs::Texts::number_none, crate::proofs::Texts::number_zero, crate::proofs::Texts::number_other))]
fn is_number(word: &[u8]) -> bool
    ensures { result ≡ is_number word.now }
{
    if word.is_empty() {
        return false;
    }
    if word[0] == b'0' {
        return word.len() == 1;
    }
    all_digits(word)
}

// The value with one more digit.
fn step(value: u64, byte: u8) -> Option<u64>
    requires digit { is_digit byte ≡ true }
    requires small { value < limit }
    ensures { result ≡ in_range 0 limit (Some (10 * value + (byte - 48))) }
{
    let digit = (byte - b'0') as u64;
    let next = 10 * (value as u128) + (digit as u128);
    if next < (1 << 63) {
        Some(next as u64)
    } else {
        None
    }
}

// The number that a token spells.
#[tactic(auto, using(crate::proofs::Readers::too_large))]
pub(crate) fn number_of(word: &[u8]) -> Option<u64>
    ensures { result ≡ in_range 0 limit (number_of word.now) }
{
    if !is_number(word) {
        return None;
    }
    let mut value: u64 = 0;
    for byte in word {
        match step(value, *byte) {
            Some(next) => value = next,
            None => return None,
        }
    }
    Some(value)
}
