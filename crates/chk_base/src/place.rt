// Places in a text.
ghost use Rattle.std.specs.Prelude.{◌≡◌, ◌≤◌, ◌^◌, length, take, count_by, not};
ghost use Rattle.std.specs.List.{suffix_len};
ghost use Rattle.chk_base.specs.Places.{is_line_feed, place_after};

use crate::text::Text;

/// A place in a text: line and column from 1 and offset from 0, all in bytes. A line ends after a line feed.
#[derive(Clone, Copy, PartialEq, Eq, Debug)]
pub struct Place {
    pub line: u32,
    pub column: u32,
    pub offset: u32,
}

// How many bytes stand after the last line feed.
fn since_line_feed(before: &[u8]) -> u32
    requires { length before.now ≤ 2 ^ 30 }
    ensures count { result ≡ suffix_len (λ b. not (is_line_feed b)) before.now }
    ensures few { result ≤ length before.now }
{
    let mut count = 0u32;
    for byte in before {
        count = if *byte == b'\n' { 0 } else { count + 1 };
    }
    count
}

// How many line feeds there are.
fn line_feeds(before: &[u8]) -> usize
    ensures { result ≡ count_by is_line_feed before.now }
{
    before.iter().filter(|byte| **byte == b'\n').count()
}

/// The place of the byte with this offset, or of the text's end. It takes no memory.
pub fn place_of(text: &Text, offset: u32) -> Place
    requires within { offset ≤ length text.now }
    requires length { length text.now ≤ 2 ^ 30 }
    ensures { result ≡ place_after (take offset text.now) }
{
    let before = &text.as_bytes()[..offset as usize];
    Place {
        line: line_feeds(before) as u32 + 1,
        column: since_line_feed(before) + 1,
        offset,
    }
}
