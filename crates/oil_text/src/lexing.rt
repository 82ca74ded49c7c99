// From bytes to tokens with their places.
ghost use Rattle.std.specs.Prelude.{◌≡◌, ◌≤◌, ◌<◌, ◌+◌, ◌^◌, ◌-◌, ◌++◌, Some, length, take, drop, IfOk, IfErr};
ghost use Rattle.chk_base.specs.Places.{place_after};
ghost use Rattle.oil_text.specs.OilTokens.{text_of, token_of, AreTokensOf};
ghost use Rattle.oil_text.specs.Refusals.{RefusesBytes};

use crate::fault::OilFault;
use crate::pieces::piece;
use crate::token::{Kind, Piece, Token};
use chk_base::place::Place;
use chk_base::text::Text;
use std::alloc::{AllocError, Global};

/// The place after one byte more.
fn step(text: &[u8], place: Place) -> Place
    requires short { length text.now ≤ 2 ^ 30 }
    requires within { place.offset < length text.now }
    requires here { place ≡ place_after (take place.offset text.now) }
    ensures { result ≡ place_after (take (place.offset + 1) text.now) }
{
    if text[place.offset as usize] == b'\n' {
        Place {
            line: place.line + 1,
            column: 1,
            offset: place.offset + 1,
        }
    } else {
        Place {
            line: place.line,
            column: place.column + 1,
            offset: place.offset + 1,
        }
    }
}

/// The place after the bytes up to an offset.
#[tactic(auto, using(crate::proofs::Places::offset_is))]
fn advance(text: &[u8], place: Place, end: usize) -> Place
    requires short { length text.now ≤ 2 ^ 30 }
    requires forward { place.offset ≤ end }
    requires within { end ≤ length text.now }
    requires here { place ≡ place_after (take place.offset text.now) }
    ensures { result ≡ place_after (take end text.now) }
{
    let mut place = place;
    while (place.offset as usize) < end {
        place = step(text, place);
    }
    place
}

/// The text of a token.
fn text_of(alloc: Global, kind: Kind, bytes: &[u8]) -> Result<Text, AllocError>
    ensures { IfOk result (λ text. text ≡ text_of kind bytes.now) }
{
    match kind {
        Kind::Quoted => Text::from_bytes(alloc, inner(bytes)),
        Kind::Include | Kind::Mark(_) => Ok(Text::new(alloc)),
        _ => Text::from_bytes(alloc, bytes),
    }
}

/// The bytes but the first and the last.
fn inner(bytes: &[u8]) -> &[u8]
    ensures { result.now ≡ take (length bytes.now - 2) (drop 1 bytes.now) }
{
    if bytes.len() < 2 {
        return &[];
    }
    &bytes[1..bytes.len() - 1]
}

/// Adds the token of a piece, where it is one.
fn keep(
    alloc: Global,
    tokens: &mut Vec<Token>,
    piece: Piece,
    bytes: &[u8],
    place: Place,
) -> Result<(), AllocError>
    ensures { IfOk result (λ _. tokens.new.items ≡ tokens.old.items ++ token_of (Some piece) bytes.now place) }
{
    if let Piece::Spelled(kind) = piece {
        let text = text_of(alloc, kind, bytes)?;
        tokens.push(Token { kind, text, place })?;
    }
    Ok(())
}

/// The tokens of a text, or the first byte where no blank, comment or token begins.
pub(crate) fn tokens(alloc: Global, text: &[u8]) -> Result<Vec<Token>, OilFault>
    requires { length text.now ≤ 2 ^ 30 }
    ensures spelled { IfOk result (λ tokens. AreTokensOf text.now tokens.items) }
    ensures refused { IfErr result (RefusesBytes text.now) }
{
    let mut tokens = Vec::new(alloc);
    let mut place = Place {
        line: 1,
        column: 1,
        offset: 0,
    };
    while (place.offset as usize) < text.len() {
        let at = place.offset as usize;
        let (_, rest) = text.split_at(at);
        let Some((found, len)) = piece(rest) else {
            return Err(OilFault::Byte(place));
        };
        let (bytes, _) = rest.split_at(len);
        keep(alloc, &mut tokens, found, bytes, place)?;
        place = advance(text, place, at + len);
    }
    Ok(tokens)
}
