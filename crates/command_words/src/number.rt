// Numbers written in decimal digits, without a sign and without leading zeros.
ghost use Rattle.std.specs.Prelude.{◌≡◌, ℕ, ◌<◌, ◌^◌, decimal, IfSome, IfNone, option_map};
ghost use Rattle.command_words.specs.Asked.{IsSpelled, IsNumber};

use itoa::Buffer;

/// The number that the text is, in decimal digits without a sign and without leading zeros; None where it is none below 2^64.
fn number_of(text: &str) -> Option<u64>
    ensures found { IfSome result (λ n. text.now ≡ decimal n) }
    ensures none { IfNone result ((n : ℕ) → n < 2 ^ 64 → text.now ≡ decimal n → ⊥) }
{
    let Ok(number) = text.parse::<u64>() else {
        return None;
    };
    let mut buffer = Buffer::new();
    if buffer.format(number) == text {
        Some(number)
    } else {
        None
    }
}

// The number that the text is, where it is one from `low` to `high`.
pub fn number_between(text: &str, low: u64, high: u64) -> Option<u64>
    ensures found { IfSome result (IsSpelled low high text.now) }
    ensures none { IfNone result ((n : ℕ) → IsSpelled low high text.now n → ⊥) }
{
    let number = number_of(text)?;
    if number < low {
        return None;
    }
    if high < number {
        return None;
    }
    Some(number)
}

/// The number that the text is, where one is given that is a number from `low` to `high`.
pub fn number_within(text: Option<&str>, low: u64, high: u64) -> Option<u64>
    ensures found { IfSome result (IsNumber low high (option_map (λ t. t.now) text.entry)) }
    ensures none { IfNone result ((n : ℕ) → IsNumber low high (option_map (λ t. t.now) text.entry) n → ⊥) }
{
    match text {
        None => None,
        Some(text) => number_between(text, low, high),
    }
}
