// The status of a clause under the literals that are set.
//
// A clause is settled by a true literal or by two open ones, which are neither true nor false.
// Otherwise it has one open literal, which is forced, or none, which is a conflict.
ghost use Rattle.clause_solver.specs.Status.{IsStatus};
ghost use Rattle.clause_solver.specs.Trail.{lits_of};

use crate::trail::Trail;
use clause_form::lit::Lit;

#[derive(Clone, Copy)]
pub enum Status {
    // All literals are false.
    Conflict,
    // This literal is open, and all others are false.
    Forced(Lit),
    // A literal is true, or two are open.
    Settled,
}

// The status of a clause.
pub fn status_in(trail: &Trail, clause: &[Lit]) -> Status
    ensures { IsStatus (lits_of trail.now) clause.now result }
{
    let mut found: Option<Lit> = None;
    for lit in clause {
        if trail.has(*lit) {
            return Status::Settled;
        }
        if !trail.has(lit.negated()) {
            if found.is_some() {
                return Status::Settled;
            }
            found = Some(*lit);
        }
    }
    match found {
        Some(lit) => Status::Forced(lit),
        None => Status::Conflict,
    }
}
