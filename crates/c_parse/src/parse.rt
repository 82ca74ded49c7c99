// Tokens to a unit.
ghost use Rattle.std.specs.Prelude.{◌≡◌, IfOk, IfErr};
ghost use Rattle.c_parse.specs.Parsed.{IsUnitOf, Refuses, fault_at};

use crate::depth::too_deep;
use crate::externals::externals;
use crate::fault::ParseFault;
use c_expression::stop::Stop;
use c_lex::token::Token;
use c_lex::tokens::Tokens;
use c_unit::unit::Unit;
use std::alloc::Global;

/// The fault where these tokens are left.
fn fault_at(tokens: &Tokens, rest: &[Token]) -> ParseFault
    ensures { result ≡ fault_at tokens.now rest.now }
{
    match rest {
        [bad, ..] => ParseFault::Token(bad.place),
        [] => ParseFault::EndOfText(tokens.end()),
    }
}

/// The unit that the tokens are. `Depth` comes first, at the first token with which more than 64 `{` are open, or more than 64 of `(`, `[`,
/// `?` and the marks of operators stand since the last `;`, `{` or `}`. `Token` comes at the first token with which no unit begins as the
/// tokens up to it, `EndOfText` at the text's end where a unit begins as all tokens and they are none, and `Memory` where there is none.
pub fn parse(alloc: Global, tokens: &Tokens) -> Result<Unit, ParseFault>
    ensures found { IfOk result (IsUnitOf tokens.now) }
    ensures refused { IfErr result (Refuses tokens.now) }
{
    if let Some(place) = too_deep(tokens.items()) {
        return Err(ParseFault::Depth(place));
    }
    let items = tokens.items();
    match externals(alloc, items) {
        Ok((externals, rest)) => {
            if !rest.is_empty() {
                return Err(fault_at(tokens, rest));
            }
            Ok(Unit {
                externals,
                end: tokens.end(),
            })
        }
        Err(Stop::At(rest)) => Err(fault_at(tokens, rest)),
        Err(Stop::Memory) => Err(ParseFault::Memory),
    }
}
