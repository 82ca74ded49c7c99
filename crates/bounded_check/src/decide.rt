// The verdict on an encoding.
ghost use Rattle.std.specs.Prelude.{◌≡◌, ◌≤◌, ◌^◌, true, Ok, IfOk, OnOk, []};
ghost use Rattle.bounded_check.specs.Depicts.{AreListed, ReadsListed};
ghost use Rattle.bounded_check.specs.Verdicts.{IsDecided, IsTold, MeansWhatIsDepicted, with_goal};
ghost use Rattle.clause_form.specs.DerivedLine.{AreDerived};
ghost use Rattle.clause_form.specs.LearnedLine.{IsSpent};
ghost use Rattle.clause_form.specs.Literals.{AreOf};
ghost use Rattle.clause_solver.specs.Answer.{EndsAs, IsAnswer, IsLog};
ghost use Rattle.one_stack.specs.BuildExact.{choices_of};
ghost use Rattle.one_stack.specs.Labelled.{chosen_by};
ghost use Rattle.proof_check.specs.Answers.{accepts, after};
ghost use Rattle.turn_encoding.specs.Encodings.{encoding_of};
ghost use Rattle.turn_unroll.specs.Runs.{pairs_of};

use crate::encode::Encoded;
use crate::lines::Lines;
use clause_form::assignment::Assignment;
use clause_form::formula::Formula;
use clause_form::line::{Line, Log};
use clause_form::list_store::ListStore;
use clause_solver::answer::{Answer, SolveFault};
use clause_solver::solve;
use one_stack::build::{OneStack, choice_of};
use proof_check::checker::{Checker, Step};
use std::alloc::{AllocError, Global};
use step_ir::event::Choices;
use trace_law::law::same_traces_of_codes;
use turn_unroll::encoding::Encoding;
use turn_unroll::run::{Run, run_of};

/// What the runs within the bound come to.
#[derive(Drop)]
pub enum Verdict {
    /// None fails.
    Holds,
    /// One fails: the values of the variables, and its choices.
    Fails(Assignment, Choices),
    /// As many lines were learned as the budget allows, and neither was found.
    Undecided,
}

/// A verdict, and the lines that were learned on the way.
#[derive(Drop)]
pub struct Decided {
    pub verdict: Verdict,
    pub lines: Lines,
}

// Looks for a model.
fn searched(
    alloc: Global,
    formula: &Formula,
    budget: u64,
    lines: &mut Lines,
) -> Result<Answer, AllocError>
    requires lines { lines.old ≡ [] }
    requires budget { budget ≤ 10 ^ 12 }
    ensures answer { IfOk result (IsAnswer formula.now.variables formula.now.clauses) }
    ensures log { IsLog formula.now.variables formula.now.clauses budget lines.new }
    ensures ends { IfOk result (λ answer. EndsAs (Ok answer) lines.new) }
    ensures spent { result ≡ Ok Answer.Spent → IsSpent formula.now.variables formula.now.clauses lines.new budget }
{
    let mut store = ListStore::new(alloc);
    match solve(alloc, formula, &mut store, budget, lines) {
        Ok(answer) => Ok(answer),
        Err(SolveFault::KeepFailed) => unreachable!(),
        Err(SolveFault::Memory) => Err(AllocError),
    }
}

// Looks at a line, which is derived.
fn look_at(checker: &mut Checker, line: &Line) -> Result<(), AllocError>
    requires { accepts checker.old line.now ≡ true }
    ensures { OnOk result (checker.new ≡ after checker.old line.now) }
{
    match checker.line(line)? {
        Step::Bad => unreachable!(),
        Step::Good => Ok(()),
        Step::Done => Ok(()),
    }
}

// Looks at each line a second time; all are derived.
fn look(alloc: Global, formula: &Formula, log: &Log) -> Result<(), AllocError>
    requires { AreDerived formula.now.variables formula.now.clauses log.now }
{
    let mut checker = Checker::new(alloc, formula)?;
    for at in 0..log.len() {
        let Some(line) = log.get(at) else {
            return Ok(());
        };
        look_at(&mut checker, line)?;
    }
    Ok(())
}

// The choices of a run.
fn choices_of(alloc: Global, stack: &OneStack, run: &Run) -> Result<Choices, AllocError>
    requires { AreListed stack.now.labels (pairs_of run.now) }
    ensures { IfOk result (λ choices. choices ≡ choices_of (chosen_by stack.now.labels) (pairs_of run.now)) }
{
    let mut choices = Choices::new(alloc);
    for at in 0..run.len() {
        let Some(turn) = run.get(at) else {
            return Ok(choices);
        };
        choices.push(choice_of(stack, turn.label, &turn.input))?;
    }
    Ok(choices)
}

// The verdict by an answer.
fn verdict_of(
    alloc: Global,
    stack: &OneStack,
    encoding: &Encoding,
    answer: Answer,
) -> Result<Verdict, AllocError>
    requires listed { ReadsListed (encoding_of encoding.now) stack.now.labels }
    requires answer { IsAnswer encoding.now.formula.variables encoding.now.formula.clauses answer }
    ensures { IfOk result (IsTold (encoding_of encoding.now) stack.now.labels answer) }
{
    match answer {
        Answer::Refuted => Ok(Verdict::Holds),
        Answer::Spent => Ok(Verdict::Undecided),
        Answer::Model(values) => {
            let run = run_of(alloc, encoding, &values)?;
            let choices = choices_of(alloc, stack, &run)?;
            Ok(Verdict::Fails(values, choices))
        }
    }
}

/// The verdict on an encoding, after at most so many learned lines, up to 10^12. The encoding is given up. An error is want of memory.
pub fn decide(alloc: Global, encoded: Encoded, budget: u64) -> Result<Decided, AllocError>
    requires listed { ReadsListed (encoding_of encoded.encoding) encoded.stack.labels }
    requires goal { AreOf encoded.encoding.formula.variables encoded.encoding.goal }
    requires budget { budget ≤ 10 ^ 12 }

    // Each line is derived from the formula, the goal and the lines before it, each but an empty one is learned, and there are at most so many.
    ensures log { IfOk result (λ d. IsLog encoded.encoding.formula.variables (with_goal (encoding_of encoded.encoding)) budget d.lines) }
    ensures decided { IfOk result (λ d. IsDecided (encoding_of encoded.encoding) encoded.stack.labels budget d.lines d.verdict) }

    // Of an application that the encoding depicts no permitted schedule within the bounds fails, or the choices are one that fails.
    ensures means { IfOk result (λ d. MeansWhatIsDepicted (encoding_of encoded.encoding) encoded.stack.labels d.verdict) }
{
    same_traces_of_codes();
    let Encoded {
        stack,
        mut encoding,
    } = encoded;
    let goal = encoding.goal.copy(alloc)?;
    encoding.formula.push(goal)?;
    let mut lines = Lines::new(alloc);
    let answer = searched(alloc, &encoding.formula, budget, &mut lines)?;
    look(alloc, &encoding.formula, lines.log())?;
    let verdict = verdict_of(alloc, &stack, &encoding, answer)?;
    Ok(Decided { verdict, lines })
}
