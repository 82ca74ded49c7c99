// The check of a certificate.
ghost use Rattle.std.specs.Prelude.{◌≡◌, ◌+◌, ◌++◌, ◌∷◌, [], length, None, not, true, IfOk, IfSome, Ok, OnOk};
ghost use Rattle.clause_form.specs.ClauseTruth.{are_true, values_of, HasNoModel};
ghost use Rattle.clause_form.specs.DerivedLine.{ends_empty};
ghost use Rattle.clause_form.specs.LearnedLine.{has_empty};
ghost use Rattle.clause_form.specs.Literals.{are_within, is_within};
ghost use Rattle.proof_check.specs.Answers.{accepts, after};
ghost use Rattle.proof_check.specs.Checks.{HasModel, answer_by, answer_of, clauses_of, first_bad, fits, is_model};

use crate::cert::{Cert, Verdict};
use crate::checker::{Checker, Step, with_goal};
use clause_form::assignment::{Assignment, is_true};
use clause_form::clause::{Clause, Clauses};
use clause_form::formula::Formula;
use clause_form::line::{Line, Log};
use std::alloc::{AllocError, Global};

/// What the check of a certificate answers.
#[derive(Clone, Copy, Debug, PartialEq, Eq)]
pub enum CertAnswer {
    /// All lines are derived, and the verdict fits.
    Good(Verdict),
    /// The number of the first line that isn't derived, from 1.
    BadLine(u64),
    /// All lines are derived, and the verdict doesn't fit.
    BadVerdict,
}

/// Checks a certificate. A verdict fits where it is `Holds` and the log ends with its only empty line, `Fails` and the model makes
/// the formula and the goal true and no line is empty, or `Undecided` and the log has as many lines as the budget says, none empty.
#[tactic(auto, using(crate::proofs::Verdicts::holds_from, crate::proofs::Verdicts::fails_from, crate::proofs::Verdicts::answered_bad, crate::proofs::Verdicts::answered_none))]
pub fn check_cert(alloc: Global, cert: &Cert) -> Result<CertAnswer, AllocError>
    requires goal { is_within cert.now.formula.variables cert.now.goal ≡ true }
    requires model { IfSome cert.now.model (λ values. length values ≡ cert.now.formula.variables) }
    ensures answer { IfOk result (λ answer. answer ≡ answer_of cert.now) }

    // Where it holds no assignment makes the formula and the goal true; where it fails the given values do.
    ensures holds { result ≡ Ok (CertAnswer.Good Verdict.Holds) → HasNoModel (clauses_of cert.now) }
    ensures fails { result ≡ Ok (CertAnswer.Good Verdict.Fails) → HasModel cert.now }
{
    let mut checker = with_goal(alloc, &cert.formula, &cert.goal)?;
    match bad_line(&mut checker, &cert.log)? {
        Some(number) => Ok(CertAnswer::BadLine(number)),
        None => Ok(verdict_answer(cert)),
    }
}

// The answer where all lines are good.
fn verdict_answer(cert: &Cert) -> CertAnswer
    requires goal { is_within cert.now.formula.variables cert.now.goal ≡ true }
    requires model { IfSome cert.now.model (λ values. length values ≡ cert.now.formula.variables) }
    ensures { result ≡ answer_by None cert.now }
{
    if does_fit(cert) {
        CertAnswer::Good(cert.verdict)
    } else {
        CertAnswer::BadVerdict
    }
}

// Whether the line isn't derived; one that is becomes the next clause.
#[tactic(auto, using(crate::proofs::Verdicts::bad_rejected, crate::proofs::Verdicts::good_accepted, crate::proofs::Verdicts::done_accepted))]
fn is_bad(checker: &mut Checker, line: &Line) -> Result<bool, AllocError>
    ensures bad { IfOk result (λ bad. bad ≡ not (accepts checker.old line.now)) }
    ensures next { OnOk result (checker.new ≡ after checker.old line.now) }
{
    match checker.line(line)? {
        Step::Bad => Ok(true),
        Step::Good => Ok(false),
        Step::Done => Ok(false),
    }
}

// The number of the first line that isn't derived.
fn bad_line(checker: &mut Checker, log: &Log) -> Result<Option<u64>, AllocError>
    requires { checker.old.lines ≡ [] }
    ensures { IfOk result (λ number. number ≡ first_bad 1 checker.old.variables checker.old.formula log.now) }
{
    let count = log.len();
    let mut at: usize = 0;
    while let Some(line) = log.get(at) {
        at += 1;
        let bad = is_bad(checker, line)?;
        if bad {
            return Ok(Some(at as u64));
        }
    }
    Ok(None)
}

// Whether the log has an empty line.
fn has_empty_line(log: &Log) -> bool
    ensures { result ≡ has_empty log.now }
{
    let count = log.len();
    let mut at: usize = 0;
    while let Some(line) = log.get(at) {
        at += 1;
        if line.clause.lits().is_empty() {
            return true;
        }
    }
    false
}

// Whether the last line is empty, and no other.
fn ends_with_empty_line(log: &Log) -> bool
    ensures { result ≡ ends_empty log.now }
{
    let count = log.len();
    let mut at: usize = 0;
    while let Some(line) = log.get(at) {
        at += 1;
        if line.clause.lits().is_empty() {
            return at == count;
        }
    }
    false
}

// Whether the values make each clause true.
fn all_true(clauses: &Clauses, values: &Assignment) -> bool
    requires { are_within (length values.now) clauses.now ≡ true }
    ensures { result ≡ are_true (values_of values.now) clauses.now }
{
    let count = clauses.len();
    let mut at: usize = 0;
    while let Some(clause) = clauses.get(at) {
        at += 1;
        if !is_true(clause, values) {
            return false;
        }
    }
    true
}

// Whether there is a model that makes the formula and the goal true.
#[tactic(auto, using(crate::proofs::Verdicts::with_goal_true))]
fn fits_model(model: &Option<Assignment>, formula: &Formula, goal: &Clause) -> bool
    requires goal { is_within formula.now.variables goal.now ≡ true }
    requires model { IfSome model.now (λ values. length values ≡ formula.now.variables) }
    ensures { result ≡ is_model model.now (formula.now.clauses ++ goal.now ∷ []) }
{
    match model {
        Some(values) => all_true(&formula.clauses, values) && is_true(goal, values),
        None => false,
    }
}

// Whether the verdict fits a log of good lines.
fn does_fit(cert: &Cert) -> bool
    requires goal { is_within cert.now.formula.variables cert.now.goal ≡ true }
    requires model { IfSome cert.now.model (λ values. length values ≡ cert.now.formula.variables) }
    ensures { result ≡ fits cert.now.verdict cert.now }
{
    match cert.verdict {
        Verdict::Holds => ends_with_empty_line(&cert.log),
        Verdict::Fails => {
            fits_model(&cert.model, &cert.formula, &cert.goal) && !has_empty_line(&cert.log)
        }
        Verdict::Undecided => { cert.log.len() as u64 == cert.budget && !has_empty_line(&cert.log) }
    }
}
