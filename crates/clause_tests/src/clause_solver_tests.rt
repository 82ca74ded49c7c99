// The answers of small formulas.
ghost use Rattle.std.specs.Prelude.{◌≡◌};

use clause_form::clause::{Clause, Clauses};
use clause_form::formula::Formula;
use clause_form::list_keep::ListKeep;
use clause_form::list_store::ListStore;
use clause_form::lit::Lit;
use clause_solver::answer::{Answer, SolveFault};
use clause_solver::solve;
use std::alloc::{AllocError, Global};
use std::test::Fail;

// `1 2`, `1 -2`, `-1 2` and `-1 -2`.
const FOUR: [&[u64]; 4] = [&[2, 4], &[2, 5], &[3, 4], &[3, 5]];

// `1`, `-1 2` and `-1 -2`.
const THREE: [&[u64]; 3] = [&[2], &[3, 4], &[3, 5]];

#[derive(Clone, Copy, Debug, PartialEq, Eq)]
enum Kind {
    Model,
    Refuted,
    Spent,
}

// Adds a clause of these codes, where they rise by variable within range.
fn add(alloc: Global, formula: &mut Formula, codes: &[u64]) -> Result<(), AllocError>
    ensures { formula.new.variables ≡ formula.old.variables }
{
    let mut clause = Clause::new(alloc);
    let mut last: u64 = 0;
    for code in codes {
        let lit = Lit(*code);
        let variable = lit.variable();
        if variable > last && variable <= formula.variables {
            clause.push(lit)?;
            last = variable;
        }
    }
    formula.push(clause)
}

// The formula of these clauses over two variables.
fn formula_of(alloc: Global, clauses: &[&[u64]]) -> Result<Formula, AllocError> {
    let mut formula = Formula {
        variables: 2,
        clauses: Clauses::new(alloc),
    };
    for codes in clauses {
        add(alloc, &mut formula, codes)?;
    }
    Ok(formula)
}

// The kind of the answer, the number of kept lines, and that of the literals in them.
fn solved(alloc: Global, clauses: &[&[u64]], budget: u64) -> Result<(Kind, usize, usize), Fail> {
    let formula = formula_of(alloc, clauses)?;
    let mut store = ListStore::new(alloc);
    let mut keep = ListKeep::new(alloc);
    let kind = match solve(alloc, &formula, &mut store, budget.min(100), &mut keep)? {
        Answer::Model(_) => Kind::Model,
        Answer::Refuted => Kind::Refuted,
        Answer::Spent => Kind::Spent,
    };
    let mut lits: usize = 0;
    for at in 0..keep.log().len() {
        if let Some(line) = keep.log().get(at) {
            lits = lits.saturating_add(line.clause.lits().len());
        }
    }
    Ok((kind, keep.log().len(), lits))
}

#[test]
fn small_formulas_are_decided_within_the_budget(rt: HostRuntime) -> Result<(), Fail> {
    let alloc = rt.alloc();
    assert_eq!(rt; solved(alloc, &FOUR, 1)?, (Kind::Spent, 1, 1));
    assert_eq!(rt; solved(alloc, &FOUR, 2)?, (Kind::Refuted, 2, 1));
    assert_eq!(rt; solved(alloc, &THREE, 0)?, (Kind::Spent, 0, 0));
    assert_eq!(rt; solved(alloc, &THREE, 1)?, (Kind::Refuted, 1, 0));
    assert_eq!(rt; solved(alloc, &[&[2, 4]], 5)?, (Kind::Model, 0, 0));
    Ok(())
}

#[test]
fn a_keep_that_fails_is_told(rt: HostRuntime) -> Result<(), Fail> {
    let formula = formula_of(rt.alloc(), &THREE)?;
    let mut store = ListStore::new(rt.alloc());
    let mut keep = ListKeep::new(rt.alloc());
    keep.fail_at(1)?;
    let answer = solve(rt.alloc(), &formula, &mut store, 5, &mut keep);
    assert!(rt; matches!(answer, Err(SolveFault::KeepFailed)));
    assert_eq!(rt; keep.log().len(), 0);
    Ok(())
}

#[test]
fn the_faults_have_their_names(rt: HostRuntime) -> Result<(), Fail> {
    let failed = SolveFault::KeepFailed.to_string(rt.alloc())?;
    assert_eq!(rt; failed.as_str(), "KeepFailed");
    let memory = SolveFault::Memory.to_string(rt.alloc())?;
    assert_eq!(rt; memory.as_str(), "Memory");
    Ok(())
}
