// The checker of lines.
ghost use Rattle.std.specs.Prelude.{◌≡◌, ◌++◌, ◌∷◌, [], Ok, IfOk, OnErr, OnOk, map};
ghost use Rattle.clause_form.specs.ClauseTruth.{HasNoModel};
ghost use Rattle.clause_form.specs.DerivedLine.{closes, is_derived};
ghost use Rattle.proof_check.specs.Answers.{step_of, after};
ghost use Rattle.clause_form.specs.Literals.{is_within, negation};
ghost use Rattle.proof_check.specs.Lefts.{left_at_number};

use crate::left::{Left, left_in};
use clause_form::clause::{Clause, Clauses};
use clause_form::formula::Formula;
use clause_form::line::{Hints, Line};
use clause_form::lit::Lit;
use clause_form::lit_set::LitSet;
use std::alloc::{AllocError, Global};
use std::marker::Model;

/// What a line is: derived, derived and empty, or not derived.
#[derive(Clone, Copy, Debug, PartialEq, Eq)]
pub enum Step {
    Good,
    Done,
    Bad,
}

/// Takes the lines of a log one after another. Each takes time by its own literals and those of the clauses that its hints name.
#[derive(Drop)]
pub struct Checker {
    alloc: Global,
    variables: u64,
    clauses: Vec<Clause>,
    given: usize,
    set: LitSet,
}

impl Model for Checker {
    ghost use Rattle.std.specs.Prelude.{take, drop};
    ghost use Rattle.proof_check.specs.Answers.{Checked};
    ghost use Rattle.proof_check.specs.Checkers.{IsChecking};

    ghost Value = { Checked };

    ghost view = { λ c. record { variables = c.variables; formula = take c.given c.clauses.items; lines = drop c.given c.clauses.items } };

    ghost invariant = { λ c. IsChecking c.clauses.items c.given c.set };
}

impl Checker {
    /// A goal is checked with where it was pushed as the formula's last clause.
    pub fn new(alloc: Global, formula: &Formula) -> Result<Checker, AllocError>
        ensures { IfOk result (λ c. c ≡ record { variables = formula.now.variables; formula = formula.now.clauses; lines = [] }) }
    {
        let clauses = copies(alloc, &formula.clauses)?;
        let given = clauses.len();
        Ok(Checker {
            alloc,
            variables: formula.variables,
            clauses,
            given,
            set: LitSet::new(alloc),
        })
    }

    /// A derived line gets the next number, which later hints may name.
    pub fn line(&mut self, line: &Line) -> Result<Step, AllocError>
        ensures answer { IfOk result (λ step. step ≡ step_of self.old line.now) }
        ensures ok { OnOk result (self.new ≡ after self.old line.now) }
        ensures err { OnErr result (self.new ≡ self.old) }

        // The empty line is derived only where the formula has no model.
        ensures done { result ≡ Ok Step.Done → HasNoModel self.old.formula }
    {
        let derived = derives(&mut self.set, self.variables, self.clauses.as_slice(), line)?;
        if !derived {
            return Ok(Step::Bad);
        }
        let clause = line.clause.copy(self.alloc)?;
        let empty = clause.lits().is_empty();
        self.clauses.push(clause)?;
        Ok(if empty { Step::Done } else { Step::Good })
    }
}

// A checker over the formula's clauses and the goal after them.
pub(crate) fn with_goal(
    alloc: Global,
    formula: &Formula,
    goal: &Clause,
) -> Result<Checker, AllocError>
    ensures { IfOk result (λ c. c ≡ record { variables = formula.now.variables; formula = formula.now.clauses ++ goal.now ∷ []; lines = [] }) }
{
    let mut clauses = copies(alloc, &formula.clauses)?;
    clauses.push(goal.copy(alloc)?)?;
    let given = clauses.len();
    Ok(Checker {
        alloc,
        variables: formula.variables,
        clauses,
        given,
        set: LitSet::new(alloc),
    })
}

// Equal clauses, in order.
fn copies(alloc: Global, clauses: &Clauses) -> Result<Vec<Clause>, AllocError>
    ensures { IfOk result (λ v. v.items ≡ clauses.now) }
{
    let mut all = Vec::new(alloc);
    let mut at: usize = 0;
    while let Some(clause) = clauses.get(at) {
        all.push(clause.copy(alloc)?)?;
        at += 1;
    }
    Ok(all)
}

// The variables are from 1 to this number.
fn within(variables: u64, lits: &[Lit]) -> bool
    ensures { result ≡ is_within variables lits.now }
{
    for lit in lits {
        let variable = lit.variable();
        if variable == 0 || variable > variables {
            return false;
        }
    }
    true
}

// Whether the hints derive the line.
fn derives(
    set: &mut LitSet,
    variables: u64,
    clauses: &[Clause],
    line: &Line,
) -> Result<bool, AllocError>
    requires { set.old ≡ [] }
    ensures answer { IfOk result (λ yes. yes ≡ is_derived variables clauses.now line.now) }
    ensures set { set.new ≡ [] }
{
    if !within(variables, line.clause.lits()) {
        return Ok(false);
    }
    let answer = refutes(set, clauses, line);
    set.clear();
    answer
}

// Whether the hints lead to a false clause where the line is false.
fn refutes(set: &mut LitSet, clauses: &[Clause], line: &Line) -> Result<bool, AllocError>
    requires { set.old ≡ [] }
    ensures { IfOk result (λ yes. yes ≡ closes clauses.now (map negation line.now.clause) line.now.hints) }
{
    deny(set, line.clause.lits())?;
    run(set, clauses, &line.hints)
}

// Makes a clause's literals false.
fn deny(set: &mut LitSet, lits: &[Lit]) -> Result<(), AllocError>
    requires { set.old ≡ [] }
    ensures { OnOk result (set.new ≡ map negation lits.now) }
{
    let mut at = lits.len();
    while at > 0 {
        at -= 1;
        set.add(lits[at].negated())?;
    }
    Ok(())
}

// Goes through the hints.
fn run(set: &mut LitSet, clauses: &[Clause], hints: &Hints) -> Result<bool, AllocError>
    ensures { IfOk result (λ yes. yes ≡ closes clauses.now set.old hints.now) }
{
    let count = hints.len();
    let mut at: usize = 0;
    while let Some(hint) = hints.get(at) {
        at += 1;
        let last = at == count;
        match left_at(set, clauses, *hint) {
            Left::Nothing => return Ok(last),
            Left::One(lit) => {
                if last {
                    return Ok(false);
                }
                set.add(lit)?;
            }
            Left::More => return Ok(false),
        }
    }
    Ok(false)
}

// What is left of the clause with this number; more where there is none.
fn left_at(set: &LitSet, clauses: &[Clause], number: u64) -> Left
    ensures { result ≡ left_at_number set.now clauses.now number }
{
    if number == 0 {
        return Left::More;
    }
    match clauses.get((number - 1) as usize) {
        Some(clause) => left_in(set, clause.lits()),
        None => Left::More,
    }
}
