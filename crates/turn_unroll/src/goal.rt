// The goal: the failure literals of all turns as a clause.
ghost use Rattle.std.specs.Prelude.{◌≡◌, ◌<◌, ◌++◌, [], ◌∷◌, false, true, IfOk, OnOk};
ghost use Rattle.clause_form.specs.Literals.{has, last_variable, rises_above, variable};
ghost use Rattle.turn_law.specs.Building.{free_of, is_no};
ghost use Rattle.turn_law.specs.Symbol.{no};
ghost use Rattle.turn_unroll.specs.Goals.{failure_with, goal_of, last_with};

use crate::rows::{NO, place};
use clause_form::clause::Clause;
use clause_form::lit::{Lit, Lits};
use std::alloc::{AllocError, Global};

// The failure literal of one more turn; one of an older variable is never true, and so it is the one that is false.
pub(crate) fn failure_with(last: u64, failure: Lit) -> Lit
    ensures { result ≡ failure_with last failure }
{
    if last < failure.variable() {
        failure
    } else {
        NO
    }
}

// The greatest variable of a failure literal, with one more turn.
pub(crate) fn last_with(last: u64, failure: Lit) -> u64
    ensures { result ≡ last_with last failure }
{
    if last < failure.variable() {
        failure.variable()
    } else {
        last
    }
}

// Whether the literal that is false is one of them.
fn has_no(lits: &Lits) -> bool
    ensures { result ≡ has lits.now no }
{
    for i in 0..lits.len() {
        if place(lits, i) == NO {
            return true;
        }
    }
    false
}

// Puts a literal to a clause, if it isn't the one that is false.
fn put_free(goal: &mut Clause, lit: Lit) -> Result<(), AllocError>
    requires { is_no lit ≡ false → last_variable 0 goal.old < variable lit }
    ensures { OnOk result (goal.new ≡ goal.old ++ free_of (lit ∷ [])) }
{
    if lit == NO { Ok(()) } else { goal.push(lit) }
}

// The clause of the failure literals, in which the one that is false stands once.
pub(crate) fn goal_of(alloc: Global, failures: &Lits) -> Result<Clause, AllocError>
    requires { rises_above 1 (free_of failures.now) ≡ true }
    ensures { IfOk result (λ goal. goal ≡ goal_of failures.now) }
{
    let mut goal = Clause::new(alloc);
    if has_no(failures) {
        goal.push(NO)?;
    }
    for i in 0..failures.len() {
        put_free(&mut goal, place(failures, i))?;
    }
    Ok(goal)
}
