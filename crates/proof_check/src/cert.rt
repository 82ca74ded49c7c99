// Certificates, read from a text.
ghost use Rattle.std.specs.Prelude.{◌≡◌, ◌≤◌, ◌^◌, length, true, IfErr, IfOk, IfSome};
ghost use Rattle.clause_form.specs.Literals.{is_within};
ghost use Rattle.proof_check.specs.Certs.{HasParts, IsCertOf, IsRefusal, outcome_model, outcome_verdict};

pub use answers::verdict::Verdict;
use cert_form::ending::Outcome;
use cert_form::reading::{Parts, Stop, read, strange_byte};
use chk_base::place::{Place, place_of};
use chk_base::text::Text;
use clause_form::assignment::Assignment;
use clause_form::clause::Clause;
use clause_form::formula::Formula;
use clause_form::line::Log;
use std::alloc::Global;

/// The parts of a certificate that its check needs. Its bounds, labels, depths and turns are read and not kept.
#[derive(Drop)]
pub struct Cert {
    /// The greatest number of lines that the log could have.
    pub budget: u64,
    pub formula: Formula,
    /// The clause that is true where something fails; it has the number after the formula's.
    pub goal: Clause,
    pub log: Log,
    pub verdict: Verdict,
    /// A value for each variable, where the verdict is `Fails`.
    pub model: Option<Assignment>,
}

/// Why a text is refused; but for want of memory exactly in this order.
#[derive(Debug, Drop)]
pub enum CertFault {
    /// The first byte of the text that is no letter, digit, `_`, `-`, space or line feed.
    Byte(Place),
    /// The first token with which the tokens so far begin no certificate's text.
    Token(Place),
    /// The end of a text that begins a certificate's and is none.
    EndOfText(Place),
    /// Memory ran out.
    Memory,
}

/// Reads the certificate whose text this is. The time is linear in the text's length.
#[tactic(auto, using(crate::proofs::Refusals::byte_fault, crate::proofs::Refusals::token_fault, crate::proofs::Refusals::end_fault, crate::proofs::Refusals::cert_from, crate::proofs::Refusals::goal_within, crate::proofs::Refusals::model_length))]
pub fn read_cert(alloc: Global, text: &Text) -> Result<Cert, CertFault>
    requires { length text.now ≤ 2 ^ 30 }
    ensures cert { IfOk result (IsCertOf text.now) }
    ensures refused { IfErr result (IsRefusal text.now) }

    // What the check of a certificate asks of it.
    ensures goal { IfOk result (λ cert. is_within cert.formula.variables cert.goal ≡ true) }
    ensures model { IfOk result (λ cert. IfSome cert.model (λ values. length values ≡ cert.formula.variables)) }
{
    let bytes = text.as_bytes();
    if let Some(offset) = strange_byte(bytes) {
        return Err(CertFault::Byte(place_of(text, offset as u32)));
    }
    match read(alloc, bytes) {
        Ok(parts) => Ok(cert_of(parts)),
        Err(Stop::Memory) => Err(CertFault::Memory),
        Err(Stop::Token(offset)) => Err(CertFault::Token(place_of(text, offset as u32))),
        Err(Stop::End) => Err(CertFault::EndOfText(place_of(text, bytes.len() as u32))),
    }
}

// The verdict, and the model that stands after it.
fn verdict_of(outcome: Outcome) -> (Verdict, Option<Assignment>)
    ensures verdict { result.0 ≡ outcome_verdict outcome }
    ensures model { result.1 ≡ outcome_model outcome }
{
    match outcome {
        Outcome::Holds => (Verdict::Holds, None),
        Outcome::Fails(values) => (Verdict::Fails, Some(values)),
        Outcome::Undecided => (Verdict::Undecided, None),
    }
}

// The certificate of these parts.
fn cert_of(parts: Parts) -> Cert
    ensures { HasParts result parts }
{
    let (verdict, model) = verdict_of(parts.outcome);
    Cert {
        budget: parts.budget,
        formula: parts.formula,
        goal: parts.goal,
        log: parts.log,
        verdict,
        model,
    }
}
