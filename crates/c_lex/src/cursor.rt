// Where a text is read on.
ghost use Rattle.std.specs.Prelude.{◌≡◌, ◌≤◌, ◌<◌, ◌+◌, ◌^◌, ◌∷◌, [], ◌++◌, List, ℕ, length, take};
ghost use Rattle.c_lex.specs.Cursor.{cursor_after};

use crate::blanks::is_blank;
use chk_base::place::Place;

/// A place in a text, and whether only blanks stand before it on its line.
#[derive(Clone, Copy, PartialEq, Eq, Debug)]
pub struct Cursor {
    pub place: Place,
    pub bare: bool,
}

impl Cursor {
    /// The start of a text.
    pub fn start() -> Cursor
        ensures { result ≡ cursor_after [] }
    {
        Cursor {
            place: Place {
                line: 1,
                column: 1,
                offset: 0,
            },
            bare: true,
        }
    }

    // After one more byte.
    #[tactic(auto, using(crate::proofs::Cursors::after_line_feed, crate::proofs::Cursors::after_other))]
    fn after(self, byte: u8) -> Cursor
        requires line { self.place.line < 2 ^ 31 }
        requires column { self.place.column < 2 ^ 31 }
        requires offset { self.place.offset < 2 ^ 31 }
        ensures { (before : List ℕ) → self ≡ cursor_after before → result ≡ cursor_after (before ++ byte ∷ []) }
    {
        let Place {
            line,
            column,
            offset,
        } = self.place;
        if byte == b'\n' {
            Cursor {
                place: Place {
                    line: line + 1,
                    column: 1,
                    offset: offset + 1,
                },
                bare: true,
            }
        } else {
            Cursor {
                place: Place {
                    line,
                    column: column + 1,
                    offset: offset + 1,
                },
                bare: is_blank(byte) && self.bare,
            }
        }
    }

    /// After so many more bytes of the text.
    pub fn advance(self, text: &[u8], size: usize) -> Cursor
        requires at { self ≡ cursor_after (take self.place.offset text.now) }
        requires within { self.place.offset + size ≤ length text.now }
        requires short { length text.now ≤ 2 ^ 30 }
        ensures { result ≡ cursor_after (take (self.place.offset + size) text.now) }
    {
        let from = self.place.offset as usize;
        let mut cursor = self;
        for at in from..from + size {
            cursor = cursor.after(text[at]);
        }
        cursor
    }
}
