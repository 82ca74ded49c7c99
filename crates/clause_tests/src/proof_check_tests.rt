// Lines of two small refutations.
ghost use Rattle.std.specs.Prelude.{◌≡◌, true, IfOk};
ghost use Rattle.clause_form.specs.Literals.{is_within};

use clause_form::clause::{Clause, Clauses};
use clause_form::formula::Formula;
use clause_form::line::{Hints, Line};
use clause_form::lit::Lit;
use proof_check::checker::{Checker, Step};
use std::alloc::{AllocError, Global};
use std::test::Fail;

// The clause of the literals with these codes, but for those that are out of range or don't rise by variable.
fn clause_of(alloc: Global, variables: u64, codes: &[u64]) -> Result<Clause, AllocError>
    ensures { IfOk result (λ c. is_within variables c ≡ true) }
{
    let mut clause = Clause::new(alloc);
    let mut last: u64 = 0;
    for code in codes {
        let lit = Lit(*code);
        if last < lit.variable() && lit.variable() <= variables {
            clause.push(lit)?;
            last = lit.variable();
        }
    }
    Ok(clause)
}

// The formula of these clauses over two variables.
fn formula_of(alloc: Global, clauses: &[&[u64]]) -> Result<Formula, AllocError> {
    let mut formula = Formula {
        variables: 2,
        clauses: Clauses::new(alloc),
    };
    for codes in clauses {
        let clause = clause_of(alloc, formula.variables, codes)?;
        formula.push(clause)?;
    }
    Ok(formula)
}

// A line with these hints.
fn line_of(alloc: Global, codes: &[u64], numbers: &[u64]) -> Result<Line, AllocError> {
    let clause = clause_of(alloc, 3, codes)?;
    let mut hints = Hints::new(alloc);
    for number in numbers {
        hints.push(*number)?;
    }
    Ok(Line { clause, hints })
}

// What a checker answers to lines one after another.
fn answers(
    alloc: Global,
    clauses: &[&[u64]],
    lines: &[(&[u64], &[u64])],
) -> Result<Vec<Step>, AllocError> {
    let mut checker = Checker::new(alloc, &formula_of(alloc, clauses)?)?;
    let mut steps = Vec::new(alloc);
    for (codes, numbers) in lines {
        steps.push(checker.line(&line_of(alloc, codes, numbers)?)?)?;
    }
    Ok(steps)
}

#[test]
fn hints_derive_the_empty_line_or_do_not(rt: HostRuntime) -> Result<(), Fail> {
    // `1`, `-1 2` and the goal `-1 -2`.
    let steps = answers(
        rt.alloc(),
        &[&[2], &[3, 4], &[3, 5]],
        &[
            (&[], &[1, 3]),
            (&[], &[]),
            (&[], &[2, 3]),
            (&[], &[1, 2, 4]),
            (&[], &[0, 1, 2, 3]),
            (&[], &[1, 2, 3, 1]),
            (&[], &[1, 2, 3]),
        ],
    )?;
    assert_eq!(rt;
        steps.as_slice(),
        [
            Step::Bad,
            Step::Bad,
            Step::Bad,
            Step::Bad,
            Step::Bad,
            Step::Bad,
            Step::Done
        ]
        .as_slice()
    );
    Ok(())
}

#[test]
fn good_lines_have_the_next_numbers(rt: HostRuntime) -> Result<(), Fail> {
    // `1 2`, `1 -2`, `-1 2` and `-1 -2`; the variable 3 is out of range.
    let steps = answers(
        rt.alloc(),
        &[&[2, 4], &[2, 5], &[3, 4], &[3, 5]],
        &[
            (&[], &[5, 3, 4]),
            (&[6], &[1, 2]),
            (&[2], &[1, 2]),
            (&[], &[5, 3, 4]),
        ],
    )?;
    assert_eq!(rt;
        steps.as_slice(),
        [Step::Bad, Step::Bad, Step::Good, Step::Done].as_slice()
    );
    Ok(())
}
