// The parts of a line.
ghost use Rattle.std.specs.Prelude.{◌≡◌, true, IfOk, reverse};
ghost use Rattle.clause_form.specs.Literals.{rises_above};
ghost use Rattle.clause_solver.specs.Learning.{AreNew, IsSorted};

use clause_form::clause::Clause;
use clause_form::line::Hints;
use clause_form::lit::Lit;
use std::alloc::{AllocError, Global};

// The clause of these literals, which are put in order.
pub fn clause_of(alloc: Global, lits: &mut Vec<Lit>) -> Result<Clause, AllocError>
    requires { AreNew lits.old.items }
    ensures { IfOk result (IsSorted lits.old.items) }
{
    lits.sort_unstable_by_key(|lit| lit.variable());
    clause_in_order(alloc, lits.as_slice())
}

fn clause_in_order(alloc: Global, lits: &[Lit]) -> Result<Clause, AllocError>
    requires { rises_above 0 lits.now ≡ true }
    ensures { IfOk result (λ clause. clause ≡ lits.now) }
{
    let mut clause = Clause::new(alloc);
    for lit in lits {
        clause.push(*lit)?;
    }
    Ok(clause)
}

// The numbers from the last to the first.
pub fn hints_of(alloc: Global, numbers: &[u64]) -> Result<Hints, AllocError>
    ensures { IfOk result (λ hints. hints ≡ reverse numbers.now) }
{
    let mut hints = Hints::new(alloc);
    for at in (0..numbers.len()).rev() {
        hints.push(numbers[at])?;
    }
    Ok(hints)
}
