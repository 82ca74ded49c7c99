// The tokens of an OIL text.

use chk_base::place::Place;
use chk_base::text::Text;

/// A mark of one byte.
#[derive(Clone, Copy, PartialEq, Eq, Debug)]
pub enum Mark {
    Equals,
    Semicolon,
    OpeningBrace,
    ClosingBrace,
    Colon,
    OpeningBracket,
    ClosingBracket,
    Comma,
    Dot,
    Less,
    Greater,
    Plus,
    Minus,
}

/// What a token is. The three words that the grammar names, OIL_VERSION, IMPLEMENTATION and CPU, are names as well.
#[derive(Clone, Copy, PartialEq, Eq, Debug)]
pub enum Kind {
    Version,
    Implementation,
    Cpu,
    OtherName,
    Integer,
    Point,
    Quoted,
    Include,
    Mark(Mark),
}

/// A token. `text` is the bytes of a name or number, what stands between the quotation marks of a string, and empty for other tokens;
/// `place` is that of the token's first byte.
#[derive(Drop)]
pub struct Token {
    pub kind: Kind,
    pub text: Text,
    pub place: Place,
}

/// What a longest piece of a text is: a blank or a comment, which is skipped, or a token.
#[derive(Clone, Copy, PartialEq, Eq, Debug)]
pub enum Piece {
    Skipped,
    Spelled(Kind),
}
