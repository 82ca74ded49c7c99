// Numbers in a schedule, and the words that have them as values.
ghost use Rattle.std.specs.Prelude.{◌≡◌, ◌<◌, ◌^◌, ℤ, pos, IfSome, IfNone, slice_get};
ghost use Rattle.std.specs.Fmt.{signed_decimal};
ghost use Rattle.std.specs.Int.Signed.{mag};
ghost use Rattle.std.specs.Option.{option_copied};
ghost use Rattle.chk_base.specs.Widths.{PlainWord, limit_of, reading_of};
ghost use Rattle.replay.specs.ScheduleText.{IsValue, type_in, type_of};
ghost use Rattle.step_ir.specs.Points.{cells_of, own_cells};

use chk_base::word::{Width, Word};
use itoa::Buffer;
use step_ir::code::{CellName, Code, EntityCode};

/// The type of a value: its number of bits, and whether it is read as a signed one (ISO/IEC 9899:1999, 6.2.6.2).
#[derive(Clone, Copy, PartialEq, Eq, Debug)]
pub struct ValueType {
    pub width: Width,
    pub signed: bool,
}

// The whole number that the text is, in decimal digits with `-` before a negative one and without leading zeros; None where it is none of
// 64 bits.
fn number_of(text: &[u8]) -> Option<i64>
    ensures found { IfSome result (λ n. (text.now ≡ signed_decimal n) × (mag n < 2 ^ 63)) }
    ensures none { IfNone result ((z : ℤ) → mag z < 2 ^ 63 → text.now ≡ signed_decimal z → ⊥) }
{
    let Ok(digits) = str::from_utf8(text) else {
        return None;
    };
    let Ok(number) = digits.parse::<i64>() else {
        return None;
    };
    let mut buffer = Buffer::new();
    if buffer.format(number).as_bytes() == text {
        Some(number)
    } else {
        None
    }
}

// How many values there are of this width.
fn limit_of(width: Width) -> i64
    ensures { result ≡ pos (limit_of width) }
{
    match width {
        Width::W1 => 2,
        Width::W8 => 0x100,
        Width::W16 => 0x1_0000,
        Width::W32 => 0x1_0000_0000,
    }
}

// The word of this type whose value the number is.
fn word_of(of: ValueType, number: i64) -> Option<Word>
    ensures found { IfSome result (λ w. (w.width ≡ of.width) × (reading_of of.signed w ≡ number)) }
    ensures none { IfNone result ((w : PlainWord) → w.bits < limit_of w.width
        → w.width ≡ of.width → reading_of of.signed w ≡ number → ⊥) }
{
    let bits = if number < 0 {
        number + limit_of(of.width)
    } else {
        number
    };
    let Ok(bits) = u32::try_from(bits) else {
        return None;
    };
    let word = Word::new(of.width, bits)?;
    if word.reading(of.signed) == number {
        Some(word)
    } else {
        None
    }
}

/// The word that digits spell by the type of the input; without an input they spell one of 32 bits.
pub fn word_in(input: Option<ValueType>, digits: &[u8]) -> Option<Word>
    ensures found { IfSome result (λ w. IsValue input digits.now w) }
    ensures none { IfNone result ((w : PlainWord) → w.bits < limit_of w.width → IsValue input digits.now w → ⊥) }
{
    let number = number_of(digits)?;
    let of = match input {
        Some(of) => of,
        None => ValueType {
            width: Width::W32,
            signed: number < 0,
        },
    };
    word_of(of, number)
}

// The cell with this number among those of these entities.
fn own_name(entities: &[EntityCode], cell: usize) -> Option<&CellName>
    ensures { option_copied result ≡ slice_get (own_cells entities.now) cell }
{
    let (entity, others) = entities.split_first()?;
    if let Some(name) = entity.names.get(cell) {
        return Some(name);
    }
    own_name(others, cell - entity.names.len())
}

// The cell with this number.
fn cell_name(code: &Code, cell: u16) -> Option<&CellName>
    ensures { option_copied result ≡ slice_get (cells_of code.now) cell }
{
    let cell = cell as usize;
    if let Some(name) = code.globals.get(cell) {
        return Some(name);
    }
    own_name(code.entities.items(), cell - code.globals.len())
}

/// The type of this cell.
pub fn type_in(code: &Code, cell: Option<u16>) -> Option<ValueType>
    ensures { result ≡ type_in code.now cell }
{
    let name = cell_name(code, cell?)?;
    Some(ValueType {
        width: name.width,
        signed: name.signed,
    })
}
