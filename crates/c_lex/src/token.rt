// Tokens of C.
use chk_base::place::Place;
use chk_base::text::Text;

/// What a token is. `Word` is a reserved word: a keyword (ISO/IEC 9899:1999, 6.4.1), or another word of this profile that is no name. A
/// number has its value, and whether its type is unsigned (6.4.4.1). A mark is a punctuator (6.4.6).
#[derive(Clone, Copy, PartialEq, Eq, Debug)]
pub enum TokenKind {
    Word,
    Name,
    Number { bits: u32, unsigned: bool },
    Mark,
}

/// A token with the place of its first byte and the bytes that stand there.
#[derive(Drop)]
pub struct Token {
    pub kind: TokenKind,
    pub place: Place,
    pub text: Text,
}
