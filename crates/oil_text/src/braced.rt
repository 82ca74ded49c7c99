// What stands between a brace and the one that closes it.
ghost use Rattle.std.specs.Prelude.{◌≡◌, ◌+◌, ◌<◌, ◌≤◌, ◌^◌, length, IfOk};
ghost use Rattle.grammar.specs.Grammar.{Rule};
ghost use Rattle.oil_text.specs.OilGrammar.{Braced};
ghost use Rattle.oil_text.specs.OilReading.{Gives, depth_after};

use crate::reading::token;
use crate::stop::Stop;
use crate::token::{Kind, Mark, Token};

/// How many braces are open after a token.
fn depth_after(kind: Kind, depth: usize) -> usize
    requires some { 0 < depth }
    requires few { depth < 2 ^ 63 }
    ensures depth { result ≡ depth_after kind depth }
    ensures few { result ≤ depth + 1 }
{
    match kind {
        Kind::Mark(Mark::OpeningBrace) => depth + 1,
        Kind::Mark(Mark::ClosingBrace) => depth - 1,
        _ => depth,
    }
}

/// Passes over a brace, any tokens in which braces pair, and the brace that closes it. However deep they nest, it is one loop.
pub(crate) fn braced(tokens: &[Token]) -> Result<&[Token], Stop>
    ensures gives { Gives (λ rest. rest.now) result (Rule Braced) tokens.now }
    ensures shorter { IfOk result (λ rest. length rest.now < length tokens.now) }
{
    let (_, after_first) = token(tokens, Kind::Mark(Mark::OpeningBrace))?;
    let mut rest = after_first;
    let mut depth = 1usize;
    while depth > 0 {
        if rest.is_empty() {
            return Err(Stop::At(rest));
        }
        depth = depth_after(rest[0].kind, depth);
        let (_, after) = rest.split_at(1);
        rest = after;
    }
    Ok(rest)
}
