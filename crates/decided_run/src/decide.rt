// Runs are decided.
ghost use Rattle.std.specs.Prelude.{◌≡◌, ◌≢◌, ◌≤◌, ◌^◌, IfOk, IfErr, true};
ghost use Rattle.one_run.specs.OneRun.{TakesNoInput};
ghost use Rattle.application.specs.InOrder.{IsInOrder};
ghost use Rattle.bounded_check.specs.Verdicts.{IsFailing, Means};
ghost use Rattle.one_stack.specs.TaskForm.{is_task_form};
ghost use Rattle.step_ir.specs.Fits.{Fits};
ghost use Rattle.decided_run.specs.Decided.{DecisionMeans, IsByClauses, IsDecidedRun, IsDecisionOf, IsFailingRun, IsUndone};
ghost use Rattle.decided_run.specs.declared.decision.Decision.TheVariants as decision;

use crate::decision::{Decision, Failing};
use application::app::App;
use bounded_check::decide::Verdict;
use bounded_check::form::is_task_form;
use cert_text::front::Bounds;
use certified_run::certify::decide_and_write;
use chk_base::desk::{Desk, PutFault};
use chk_base::text::Text;
use one_run::inputs::takes_no_input;
use one_run::run::{one_run, steps};
use replay::run::{ReplayFault, replay};
use std::alloc::{AllocError, Global};
use step_ir::code::Code;
use step_ir::event::Choices;
use trace_law::law::same_traces_of_codes;

// The failing run of choices that fail.
fn failing_run(
    alloc: Global,
    app: &App,
    code: &Code,
    bounds: Bounds,
    choices: Choices,
) -> Result<Failing, AllocError>
    requires order { IsInOrder app.now }
    requires fits { Fits app.now code.now }
    requires most { bounds.turns ≤ 512 }
    requires fails { IsFailing app.now code.now bounds.turns bounds.arrivals choices }
    ensures failing { IfOk result (IsFailingRun app.now code.now bounds.turns bounds.arrivals) }
    ensures choices { IfOk result (λ failing. failing.choices ≡ choices) }
{
    same_traces_of_codes();
    match replay(alloc, app, code, &choices) {
        Ok(replayed) => Ok(Failing { replayed, choices }),
        // They are permitted.
        Err(ReplayFault::NotPermitted { .. }) => unreachable!(),
        Err(ReplayFault::Memory) => Err(AllocError),
    }
}

// The decision of a verdict.
fn decision_of(
    alloc: Global,
    app: &App,
    code: &Code,
    bounds: Bounds,
    verdict: Verdict,
) -> Result<Decision, AllocError>
    requires order { IsInOrder app.now }
    requires fits { Fits app.now code.now }
    requires most { bounds.turns ≤ 512 }
    requires means { Means app.now code.now bounds.turns bounds.arrivals verdict }
    ensures is { IfOk result (IsDecisionOf verdict) }
    ensures means { IfOk result (DecisionMeans app.now code.now bounds.turns bounds.arrivals) }
{
    match verdict {
        Verdict::Holds => Ok(Decision::Holds),
        Verdict::Fails(_, choices) => Ok(Decision::Fails(failing_run(
            alloc, app, code, bounds, choices,
        )?)),
        Verdict::Undecided => Ok(Decision::Undecided),
    }
}

// A run by clauses, with its certificate.
fn by_clauses<D: Desk>(
    alloc: Global,
    desk: &mut D,
    app: &App,
    code: &Code,
    bounds: Bounds,
    cert: &Text,
) -> Result<Decision, PutFault>
    requires order { IsInOrder app.now }
    requires fits { Fits app.now code.now }
    requires form { is_task_form app.now code.now ≡ true }
    requires least { 1 ≤ bounds.turns }
    requires most { bounds.turns ≤ 512 }
    requires arrivals { bounds.arrivals ≤ 15 }
    requires budget { bounds.budget ≤ 10 ^ 12 }
    ensures decided { IfOk result (IsByClauses app.now code.now bounds cert.now (D.state desk.old) (D.state desk.new)) }
    ensures means { IfOk result (DecisionMeans app.now code.now bounds.turns bounds.arrivals) }
    ensures undone { IfErr result (IsUndone app.now code.now bounds cert.now (D.state desk.old) (D.state desk.new)) }
{
    desk.begin(cert)?;
    let verdict = decide_and_write(alloc, desk, app, code, bounds)?;
    Ok(decision_of(alloc, app, code, bounds, verdict)?)
}

// A run by the only one that the machine has.
fn by_one_run(alloc: Global, app: &App, code: &Code, turns: u16) -> Result<Decision, AllocError>
    requires order { IsInOrder app.now }
    requires fits { Fits app.now code.now }
    ensures no_input { IfOk result (λ _. TakesNoInput code.now) }
    ensures decided { IfOk result (λ d. d ≢ decision.Undecided) }
    ensures means { IfOk result (DecisionMeans app.now code.now turns 0) }
{
    if !takes_no_input(code) {
        return Err(AllocError);
    }
    let replayed = one_run(alloc, app, code, turns)?;
    if replayed.failure.is_none() {
        return Ok(Decision::Holds);
    }
    let choices = steps(alloc, replayed.events.len())?;
    Ok(Decision::Fails(Failing { replayed, choices }))
}

/// Decides whether a permitted schedule of at most so many events, and without arrivals, fails. In the task form it is decided by clauses: the
/// file of this name is begun, and the text of a certificate is appended to it. Else the machine has only one run, where the code takes no
/// input, and that decides it; no file is written.
///
/// # Errors
///
/// `Failed` only in the task form, where the desk failed at the begin of that file, and then no file has changed, or at an append to it, and then
/// it holds a prefix of a certificate's text. `Memory` is want of memory, and is also answered outside of the task form where the code takes an
/// input.
pub fn decide_run<D: Desk>(
    alloc: Global,
    desk: &mut D,
    app: &App,
    code: &Code,
    bounds: Bounds,
    cert: &Text,
) -> Result<Decision, PutFault>
    requires order { IsInOrder app.now }
    requires fits { Fits app.now code.now }
    requires least { 1 ≤ bounds.turns }
    requires most { bounds.turns ≤ 512 }
    requires arrivals { bounds.arrivals ≡ 0 }
    requires budget { bounds.budget ≤ 10 ^ 12 }
    ensures decided { IfOk result (IsDecidedRun app.now code.now bounds cert.now (D.state desk.old) (D.state desk.new)) }
    ensures undone { IfErr result (IsUndone app.now code.now bounds cert.now (D.state desk.old) (D.state desk.new)) }
{
    if is_task_form(app, code) {
        by_clauses(alloc, desk, app, code, bounds, cert)
    } else {
        Ok(by_one_run(alloc, app, code, bounds.turns)?)
    }
}
