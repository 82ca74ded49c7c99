// The reader.
ghost use Rattle.std.specs.Prelude.{◌≡◌, ◌≤◌, length, IfOk, IfErr};
ghost use Rattle.oil_text.specs.OilTokens.{AreTokensOf};
ghost use Rattle.oil_text.specs.OilText.{IsOilText, IsRefusedFor, fault_at};

use crate::fault::OilFault;
use crate::lexing::tokens;
use crate::sections::file;
use crate::stop::Stop;
use crate::token::Token;
use chk_base::place::place_of;
use chk_base::text::Text;
use oil_tree::tree::OilTree;
use std::alloc::Global;

/// The fault where these tokens are left.
#[tactic(auto, using(crate::proofs::Whole::end_place))]
fn fault_at(text: &Text, rest: &[Token]) -> OilFault
    requires { length text.now ≤ 262144 }
    ensures { result ≡ fault_at text.now rest.now }
{
    match rest {
        [] => OilFault::EndOfText(place_of(text, text.as_bytes().len() as u32)),
        [bad, ..] => OilFault::Token(bad.place),
    }
}

/// The tree of a text with these tokens.
fn tree_of(alloc: Global, text: &Text, tokens: &[Token]) -> Result<OilTree, OilFault>
    requires short { length text.now ≤ 262144 }
    requires spelled { AreTokensOf text.now tokens.now }
    ensures read { IfOk result (λ tree. IsOilText text.now tree) }
    ensures refused { IfErr result (λ fault. IsRefusedFor text.now fault) }
{
    match file(alloc, tokens) {
        Ok((tree, rest)) => if rest.is_empty() {
            Ok(tree)
        } else {
            Err(fault_at(text, rest))
        },
        Err(Stop::Memory) => Err(OilFault::Memory),
        Err(Stop::At(rest)) => Err(fault_at(text, rest)),
    }
}

/// The tree of an OIL text (OIL 2.5), or its first fault. Bytes are tested over the whole text before the grammar: `Byte` is at the first
/// byte where no blank, comment or token begins; else `Token` is at the first token with which the tokens so far begin no file, and
/// `EndOfText` is at the place after the last byte, where all of them begin one and are none. `Memory` says nothing of the text.
/// Attributes nest at most eight deep. The stack that reading takes does not grow with the text.
#[tactic(auto, using(crate::proofs::Whole::bytes_refused))]
pub fn read_oil(alloc: Global, text: &Text) -> Result<OilTree, OilFault>
    requires { length text.now ≤ 262144 }
    ensures read { IfOk result (λ tree. IsOilText text.now tree) }
    ensures refused { IfErr result (λ fault. IsRefusedFor text.now fault) }
{
    match tokens(alloc, text.as_bytes()) {
        Ok(tokens) => tree_of(alloc, text, tokens.as_slice()),
        Err(fault) => Err(fault),
    }
}
