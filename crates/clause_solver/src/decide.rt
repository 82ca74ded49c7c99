// The decision, and the model where none is left.
//
// The unset variable of the least number is made true.
ghost use Rattle.std.specs.Prelude.{◌≡◌, ◌<◌, ◌^◌, length, IfNone, IfOk, IfSome};
ghost use Rattle.clause_form.specs.LearnedLine.{is_open};
ghost use Rattle.clause_solver.specs.Decision.{AreAllSet, HasValues, IsChoice};
ghost use Rattle.clause_solver.specs.Trail.{lits_of};

use crate::trail::Trail;
use clause_form::assignment::Assignment;
use clause_form::lit::Lit;
use std::alloc::{AllocError, Global};

// Whether a literal is neither true nor false.
fn is_open(trail: &Trail, lit: Lit) -> bool
    ensures { result ≡ is_open (lits_of trail.now) lit }
{
    !trail.has(lit) && !trail.has(lit.negated())
}

// The literal to set, where a variable is unset.
pub fn choice(trail: &Trail, variables: u64) -> Option<Lit>
    requires { variables < 2 ^ 63 }
    ensures some { IfSome result (IsChoice variables trail.now) }
    ensures none { IfNone result (AreAllSet variables trail.now) }
{
    for at in 0..variables {
        let lit = Lit::positive(at + 1);
        if is_open(trail, lit) {
            return Some(lit);
        }
    }
    None
}

// The values that the set literals give to the variables.
pub fn values(alloc: Global, trail: &Trail, variables: u64) -> Result<Assignment, AllocError>
    requires { variables < 2 ^ 63 }
    ensures count { IfOk result (λ values. length values ≡ variables) }
    ensures same { IfOk result (HasValues variables (lits_of trail.now)) }
{
    let mut values = Assignment::new(alloc);
    for at in 0..variables {
        values.push(trail.has(Lit::positive(at + 1)))?;
    }
    Ok(values)
}
