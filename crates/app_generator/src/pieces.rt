// The pieces that the texts are put together from.
ghost use Rattle.std.specs.Prelude.{◌++◌, decimal};
ghost use Rattle.app_generator.specs.Generated.{line};
ghost use Rattle.app_generator.specs.Puts.{Puts};

use chk_base::text::Text;
use itoa::Buffer;
use std::alloc::AllocError;

/// These bytes.
pub fn put(text: &mut Text, piece: &[u8]) -> Result<(), AllocError>
    ensures { Puts text.old text.new piece.now result }
{
    text.append(piece)
}

/// A number in decimal digits.
pub fn put_number(text: &mut Text, number: u32) -> Result<(), AllocError>
    ensures { Puts text.old text.new (decimal number) result }
{
    let mut buffer = Buffer::new();
    put(text, buffer.format(number).as_bytes())
}

/// A line of a number between two pieces.
pub fn put_line(
    text: &mut Text,
    before: &[u8],
    number: u32,
    behind: &[u8],
) -> Result<(), AllocError>
    ensures { Puts text.old text.new (line (before.now ++ decimal number ++ behind.now)) result }
{
    put(text, before)?;
    put_number(text, number)?;
    put(text, behind)?;
    put(text, b"\n")
}
