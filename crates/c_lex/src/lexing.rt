// A text to its tokens, a piece after another.
ghost use Rattle.std.specs.Prelude.{◌≡◌, ◌≤◌, ◌<◌, ◌+◌, ◌^◌, ◌∷◌, [], ◌++◌, true, false, IfOk, IfErr, OnOk, OnErr, Ok, length, take, None};
ghost use Rattle.c_lex.specs.Cursor.{cursor_after};
ghost use Rattle.c_lex.specs.CText.{Reading, IsCTokens, IsFirstFault};
ghost use Rattle.c_lex.specs.Known.{plain_number, plain_known};
ghost use Rattle.c_lex.specs.Pieces.{meaning};
ghost use Rattle.c_lex.specs.Steps.{state_of, IsAt, ReadsOn, IsFaultOn, IsEndOn};

use crate::cursor::Cursor;
use crate::fault::LexFault;
use crate::piece::{Known, NumberToken, Piece, read_piece};
use crate::token::{Token, TokenKind};
use crate::tokens::Tokens;
use chk_base::place::Place;
use chk_base::text::Text;
use indexmap::IndexMap;
use std::alloc::{AllocError, Global};

// What is known after the first pieces of a text: the names that are defined, the tokens so far, and where the next piece begins.
#[derive(Drop)]
struct Lexer<'a> {
    known: Known<'a>,
    tokens: Tokens,
    cursor: Cursor,
}

// Defines a name.
#[tactic(auto, using(crate::proofs::Names::one_more))]
fn define<'a>(
    known: &mut Known<'a>,
    name: &'a [u8],
    number: NumberToken<'a>,
) -> Result<(), AllocError>
    requires { meaning (plain_known known.old.entries) name.now ≡ None }
    ensures { OnOk result (plain_known known.new.entries ≡ plain_known known.old.entries ++ (name.now, plain_number number.entry) ∷ []) }
{
    match known.insert(name, number) {
        Ok(_) => Ok(()),
        Err(_) => Err(AllocError),
    }
}

// Puts a token after the others.
fn push(
    alloc: Global,
    tokens: &mut Tokens,
    kind: TokenKind,
    place: Place,
    text: &[u8],
) -> Result<(), AllocError>
    ensures { OnOk result (tokens.new ≡ record tokens.old { items = tokens.old.items ++ record { kind = kind; place = place; text = text.now } ∷ [] }) }
{
    let text = Text::from_bytes(alloc, text)?;
    tokens.push(Token { kind, place, text })?;
    Ok(())
}

impl<'a> Lexer<'a> {
    // Reads one piece, if the text isn't at its end, and answers whether it did.
    fn step(&mut self, alloc: Global, text: &'a [u8]) -> Result<bool, LexFault>
        requires short { length text.now ≤ 2 ^ 30 }
        requires at { IsAt text.now self.old }
        ensures at { OnOk result (IsAt text.now self.new) }
        ensures goes { (whole : Reading) → result ≡ Ok true → ReadsOn text.now (state_of self.new) whole → ReadsOn text.now (state_of self.old) whole }
        ensures longer { result ≡ Ok true → self.old.cursor.place.offset < self.new.cursor.place.offset }
        ensures ends { result ≡ Ok false → IsEndOn text.now self.old self.new }
        ensures fault { IfErr result (IsFaultOn text.now (state_of self.old)) }
    {
        let place = self.cursor.place;
        let (_, rest) = text.split_at(place.offset as usize);
        match read_piece(&self.known, self.cursor.bare, rest) {
            Piece::End => Ok(false),
            Piece::Space(size) => {
                self.cursor = self.cursor.advance(text, size);
                Ok(true)
            }
            Piece::Defined { size, name, number } => {
                define(&mut self.known, name, number)?;
                self.cursor = self.cursor.advance(text, size);
                Ok(true)
            }
            Piece::Spelled {
                size,
                kind,
                text: bytes,
            } => {
                push(alloc, &mut self.tokens, kind, place, bytes)?;
                self.cursor = self.cursor.advance(text, size);
                Ok(true)
            }
            Piece::BadByte => Err(LexFault::Byte(place)),
            Piece::BadDirective => Err(LexFault::Directive(place)),
            Piece::BadNumber(offset) => {
                Err(LexFault::Number(self.cursor.advance(text, offset).place))
            }
        }
    }

    // The tokens, where the text is at its end.
    fn finish(self) -> Tokens
        ensures { result ≡ record { items = self.entry.tokens.items; end = self.entry.cursor.place } }
    {
        let mut tokens = self.tokens;
        tokens.set_end(self.cursor.place);
        tokens
    }
}

/// The tokens of a text of C, or its first fault by place. A defined name is its number token at the place of its use.
///
/// `Byte` is the first byte where no blank, comment, directive or token begins, or a comment that doesn't end. `Directive` is the `#`
/// of a line that neither includes nor defines a name that is new and not reserved as an integer. `Number` is the first byte of a run
/// of letters, digits and `_` that begins with a digit and is no integer constant (ISO/IEC 9899:1999, 6.4.4.1) below 2^32.
pub fn lex(alloc: Global, text: &Text) -> Result<Tokens, LexFault>
    requires { length text.now ≤ 262144 }
    ensures tokens { IfOk result (IsCTokens text.now) }
    ensures fault { IfErr result (IsFirstFault text.now) }
{
    let bytes = text.as_bytes();
    let mut lexer = Lexer {
        known: IndexMap::new(alloc),
        tokens: Tokens::new(alloc),
        cursor: Cursor::start(),
    };
    loop {
        if !lexer.step(alloc, bytes)? {
            return Ok(lexer.finish());
        }
    }
}
