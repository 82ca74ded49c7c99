// The analysis of a conflict, from the clause in conflict to the line that is learned.
//
// The trail is undone from its end, and each literal of the resolvent that comes out of it is
// replaced by the others of the clause that set it, until one literal of the current level is
// left: the first unique implication point. The hints are the numbers of the clauses that were
// met, in the order in which the literals were set, with the clause in conflict last.
ghost use Rattle.std.specs.Prelude.{ℕ, ◌<◌, ◌≤◌, length, IfOk};
ghost use Rattle.clause_solver.specs.Analysis.{IsAnalysis, IsPoint};
ghost use Rattle.clause_solver.specs.Learning.{IsLearning};
ghost use Rattle.clause_solver.specs.Numbering.{HasEach, clauses_of};
ghost use Rattle.clause_solver.specs.Propagation.{IsConflict};
ghost use Rattle.clause_solver.specs.Trail.{below, decisions, lits_of, IsTrail};

use crate::line::{clause_of, hints_of};
use crate::numbering::Numbering;
use crate::resolvent::Resolvent;
use crate::trail::Trail;
use clause_form::line::Line;
use clause_form::lit::Lit;
use clause_form::store::ClauseStore;
use std::alloc::{AllocError, Global};

// Resolves until one literal of the current level is left, and answers the set literal that makes it false.
fn to_point<C: ClauseStore>(
    store: &C,
    numbering: &Numbering,
    trail: &mut Trail,
    resolvent: &mut Resolvent,
    hints: &mut Vec<u64>,
) -> Result<Lit, AllocError>
    requires each { HasEach (C.stored store.now) numbering.now }
    requires begun { IsAnalysis (clauses_of (C.stored store.now) numbering.now) (lits_of trail.old) (below trail.old) trail.old resolvent.old.seen resolvent.old.lower.items resolvent.old.count hints.old.items }
    ensures { IfOk result (IsPoint (clauses_of (C.stored store.now) numbering.now) (lits_of trail.old) (below trail.old) trail.new resolvent.new.lower.items hints.new.items) }
{
    loop {
        let Some(entry) = trail.pop() else {
            unreachable!();
        };
        if resolvent.seen.has(entry.lit) {
            if resolvent.count == 1 {
                return Ok(entry.lit);
            }
            let Some(number) = entry.reason else {
                unreachable!();
            };
            let clause = numbering.clause(store, number);
            resolvent.count -= 1;
            resolvent.add_all(trail, clause)?;
            hints.push(number)?;
        }
    }
}

// The line that is learned from a conflict. What was set before its point is left on the trail.
pub fn analyze<C: ClauseStore>(
    alloc: Global,
    store: &C,
    numbering: &Numbering,
    trail: &mut Trail,
    resolvent: &mut Resolvent,
    conflict: u64,
) -> Result<Line, AllocError>
    requires each { HasEach (C.stored store.now) numbering.now }
    requires trail { (n : ℕ) × IsTrail n (clauses_of (C.stored store.now) numbering.now) trail.old }
    requires deep { 0 < decisions trail.old }
    requires above { 0 < conflict }
    requires within { conflict ≤ length numbering.now }
    requires conflict { IsConflict (clauses_of (C.stored store.now) numbering.now) trail.old conflict }
    ensures { IfOk result (λ line. IsLearning (clauses_of (C.stored store.now) numbering.now) trail.old line trail.new) }
{
    resolvent.clear();
    let clause = numbering.clause(store, conflict);
    resolvent.add_all(trail, clause)?;
    let mut hints = Vec::new(alloc);
    hints.push(conflict)?;
    let point = to_point(store, numbering, trail, resolvent, &mut hints)?;
    resolvent.lower.push(point.negated())?;
    let clause = clause_of(alloc, &mut resolvent.lower)?;
    let hints = hints_of(alloc, hints.as_slice())?;
    Ok(Line { clause, hints })
}
