// What is replied to the words of a check.
ghost use Rattle.std.specs.Prelude.{◌≡◌, ◌≤◌, ◌^◌, length, true, IfOk, IfSome};
ghost use Rattle.clause_form.specs.Literals.{is_within};
ghost use Rattle.oschk_cmd.specs.Checks.{IsCheckReply, IsCertReply, IsCheckedReply, answer_told};
ghost use Rattle.oschk_cmd.specs.Fit.{IsFit};

use crate::reply::Reply;
use chk_base::desk::{Desk, FetchFault};
use chk_base::text::Text;
use proof_check::cert::{Cert, CertFault, read_cert};
use proof_check::check::{CertAnswer, check_cert};
use report::reports::{CertReport, Refusal};
use std::alloc::{AllocError, Global};

/// The most bytes that a certificate may have.
const LIMIT: u64 = 1_073_741_824;

fn answer_told(answer: CertAnswer) -> CertReport
    ensures { result ≡ answer_told answer }
{
    match answer {
        CertAnswer::Good(verdict) => CertReport::Good(verdict),
        CertAnswer::BadLine(number) => CertReport::BadLine(number),
        CertAnswer::BadVerdict => CertReport::BadVerdict,
    }
}

// What the check of a certificate tells: how many lines the log has, and the answer.
fn checked(alloc: Global, cert: &Cert) -> Result<Reply, AllocError>
    requires goal { is_within cert.now.formula.variables cert.now.goal ≡ true }
    requires model { IfSome cert.now.model (λ values. length values ≡ cert.now.formula.variables) }
    ensures reply { IfOk result (IsCheckedReply cert.now) }
    ensures fit { IfOk result IsFit }
{
    let answer = check_cert(alloc, cert)?;
    Ok(Reply::Checked {
        lines: cert.log.len() as u64,
        answer: answer_told(answer),
    })
}

// What a certificate's text leads to.
fn reply_to_text(alloc: Global, text: &Text) -> Reply
    requires { length text.now ≤ 2 ^ 30 }
    ensures reply { IsCertReply text.now result }
    ensures fit { IsFit result }
{
    match read_cert(alloc, text) {
        Ok(cert) => match checked(alloc, &cert) {
            Ok(reply) => reply,
            Err(_) => Reply::OutOfMemory,
        },
        Err(CertFault::Byte(place)) => Reply::Refused(Refusal::CertByte(place)),
        Err(CertFault::Token(place)) => Reply::Refused(Refusal::CertToken(place)),
        Err(CertFault::EndOfText(place)) => Reply::Refused(Refusal::CertEnd(place)),
        Err(CertFault::Memory) => Reply::OutOfMemory,
    }
}

/// What is replied to the words of a check of the certificate of this name.
pub fn reply_to_check<D: Desk>(alloc: Global, cert: &Text, desk: &mut D) -> Reply
    ensures reply { IsCheckReply cert.now (D.state desk.old) (D.state desk.new) result }
    ensures fit { IsFit result }
    ensures files { (D.state desk.new).files ≡ (D.state desk.old).files }
    ensures current { (D.state desk.new).current ≡ (D.state desk.old).current }
{
    match desk.fetch(alloc, cert, LIMIT) {
        Ok(text) => reply_to_text(alloc, &text),
        Err(FetchFault::Failed) => Reply::ReadFault,
        Err(FetchFault::TooLong) => Reply::Refused(Refusal::LongCert),
        Err(FetchFault::Memory) => Reply::OutOfMemory,
    }
}
