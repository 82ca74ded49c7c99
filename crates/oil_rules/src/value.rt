// Values of attributes.
ghost use Rattle.std.specs.Prelude.{◌≡◌, ◌≤◌, min, codes};
ghost use Rattle.oil_rules.specs.Values.{is_word_form, is_integer_form, is_name, is_word, is_integer, digit_value, number_in, is_hexadecimal, number_of, is_between, has_form};

use crate::kind::same;
use crate::role::Role;
use oil_tree::tree::{Value, ValueForm};

/// Whether it is a name. It takes no memory.
pub fn is_name(value: &Value) -> bool
    ensures { result ≡ is_name value.now }
{
    match value.form {
        ValueForm::Word => true,
        _ => false,
    }
}

/// Whether it is this word. It takes no memory.
#[tactic(auto, unfolding(crate::specs::Values::is_word))]
pub fn is_word(value: &Value, word: &[u8]) -> bool
    ensures { result ≡ is_word value.now word.now }
{
    is_name(value) && same(value.text.as_bytes(), word)
}

/// Whether it is an integer. It takes no memory.
pub fn is_integer(value: &Value) -> bool
    ensures { result ≡ is_integer value.now }
{
    match value.form {
        ValueForm::Integer => true,
        _ => false,
    }
}

fn digit_value(byte: u8) -> u32
    ensures { result ≡ digit_value byte }
{
    let byte = byte as u32;
    if byte < 58 {
        byte.saturating_sub(48)
    } else if byte < 71 {
        byte - 55
    } else {
        byte.saturating_sub(87)
    }
}

// The number, and 1000 for every greater one.
#[tactic(auto, using(crate::proofs::Numbers::number_in_none, crate::proofs::Numbers::number_in_more, crate::proofs::Numbers::capped_decimal))]
fn decimal(digits: &[u8]) -> u32
    ensures { result ≡ min (number_in 10 digits.now) 1000 }
{
    let mut number = 0u32;
    for byte in digits {
        number = (number * 10 + digit_value(*byte)).min(1000);
    }
    number
}

// The same of hexadecimal digits.
#[tactic(auto, using(crate::proofs::Numbers::number_in_none, crate::proofs::Numbers::number_in_more, crate::proofs::Numbers::capped_hexadecimal))]
fn hexadecimal(digits: &[u8]) -> u32
    ensures { result ≡ min (number_in 16 digits.now) 1000 }
{
    let mut number = 0u32;
    for byte in digits {
        number = (number * 16 + digit_value(*byte)).min(1000);
    }
    number
}

fn is_hexadecimal(text: &[u8]) -> bool
    ensures { result ≡ is_hexadecimal text.now }
{
    match text {
        [zero, mark, ..] => *zero == b'0' && (*mark == b'x' || *mark == b'X'),
        _ => false,
    }
}

/// The number that an integer stands for, without its sign, and 1000 for every greater one. It takes no memory.
#[tactic(auto, unfolding(crate::specs::Values::number_of))]
pub fn capped_number(text: &[u8]) -> u32
    ensures { result ≡ min (number_of text.now) 1000 }
{
    if is_hexadecimal(text) {
        hexadecimal(&text[2..])
    } else {
        decimal(text)
    }
}

/// Whether it is an integer from `least` to `greatest`. It takes no memory.
#[tactic(auto, unfolding(crate::specs::Values::is_between))]
pub fn is_between(least: u32, greatest: u32, value: &Value) -> bool
    requires { greatest ≤ 999 }
    ensures { result ≡ is_between least greatest value.now }
{
    let number = capped_number(value.text.as_bytes());
    is_integer(value) && least <= number && number <= greatest && (!value.negative || number == 0)
}

/// Whether it is of the form that its attribute asks for. It takes no memory.
#[tactic(auto, unfolding(crate::specs::Values::has_form))]
pub fn has_form(role: Role, value: &Value) -> bool
    ensures { result ≡ has_form role value.now }
{
    match role {
        Role::Priority | Role::Activation | Role::Category => is_integer(value),
        Role::Schedule => is_word(value, b"NON") || is_word(value, b"FULL"),
        Role::Status => is_word(value, b"STANDARD") || is_word(value, b"EXTENDED"),
        Role::ResourceProperty => {
            is_word(value, b"STANDARD") || is_word(value, b"LINKED") || is_word(value, b"INTERNAL")
        }
        Role::Resource => is_name(value),
        Role::Event | Role::Message | Role::Vendor => true,
        _ => is_word(value, b"TRUE") || is_word(value, b"FALSE"),
    }
}
