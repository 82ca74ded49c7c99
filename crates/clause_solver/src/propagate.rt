// Unit propagation: a literal that a clause leaves alone is set.
//
// By full scans: a scan looks at each clause once, in the order of their numbers, and goes on with
// what it sets. Scans follow one another until one sets nothing or meets a conflict.
ghost use Rattle.std.specs.Prelude.{◌≡◌, ◌<◌, ◌≤◌, true, length, IfNone, IfOk, IfSome, OnOk, Some};
ghost use Rattle.clause_form.specs.LearnedLine.{is_closed};
ghost use Rattle.clause_form.specs.Literals.{are_within};
ghost use Rattle.clause_solver.specs.Numbering.{HasEach, clauses_of};
ghost use Rattle.clause_solver.specs.Propagation.{IsConflict, IsPass};
ghost use Rattle.clause_solver.specs.Trail.{IsTrail, lits_of, unset};

use crate::numbering::Numbering;
use crate::status::{Status, status_in};
use crate::trail::{Entry, Trail};
use clause_form::store::ClauseStore;
use std::alloc::AllocError;

// What a scan comes to.
#[derive(Clone, Copy)]
pub enum Pass {
    // All literals of the clause with this number are false.
    Conflict(u64),
    // Something was set.
    Changed,
    // Nothing can be set.
    Settled,
}

// Looks at each clause once.
fn scan<C: ClauseStore>(
    store: &C,
    numbering: &Numbering,
    trail: &mut Trail,
) -> Result<Pass, AllocError>
    requires { HasEach (C.stored store.now) numbering.now }
    ensures { IfOk result (IsPass (clauses_of (C.stored store.now) numbering.now) trail.old trail.new) }
{
    let mut changed = false;
    for at in 0..numbering.len() {
        let number = at as u64 + 1;
        match status_in(trail, numbering.clause(store, number)) {
            Status::Conflict => return Ok(Pass::Conflict(number)),
            Status::Forced(lit) => {
                let reason = Some(number);
                trail.push(Entry { lit, reason })?;
                changed = true;
            }
            Status::Settled => {}
        }
    }
    Ok(if changed {
        Pass::Changed
    } else {
        Pass::Settled
    })
}

// Sets what is forced, until nothing is. The answer is the number of a clause in conflict, if one is met.
pub fn propagate<C: ClauseStore>(
    store: &C,
    numbering: &Numbering,
    trail: &mut Trail,
    variables: u64,
) -> Result<Option<u64>, AllocError>
    requires each { HasEach (C.stored store.now) numbering.now }
    requires clauses { are_within variables (clauses_of (C.stored store.now) numbering.now) ≡ true }
    requires trail { IsTrail variables (clauses_of (C.stored store.now) numbering.now) trail.old }
    ensures trail { OnOk result (IsTrail variables (clauses_of (C.stored store.now) numbering.now) trail.new) }
    ensures unset { OnOk result (unset variables trail.new ≤ unset variables trail.old) }
    ensures conflict { IfOk result (λ r. IfSome r (IsConflict (clauses_of (C.stored store.now) numbering.now) trail.new)) }
    ensures settled { IfOk result (λ r. IfNone r (is_closed (lits_of trail.new) (clauses_of (C.stored store.now) numbering.now) ≡ true)) }
{
    loop {
        match scan(store, numbering, trail)? {
            Pass::Conflict(number) => return Ok(Some(number)),
            Pass::Changed => {}
            Pass::Settled => return Ok(None),
        }
    }
}
