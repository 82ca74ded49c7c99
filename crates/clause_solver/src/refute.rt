// The refutation, at a conflict of level zero.
//
// Where nothing was decided, each set literal has a clause that set it. All of them are hints, in
// the order of the trail, and the clause in conflict comes last.
ghost use Rattle.std.specs.Prelude.{◌≡◌, ℕ, [], true, IfOk};
ghost use Rattle.clause_form.specs.DerivedLine.{is_derived};
ghost use Rattle.clause_solver.specs.Propagation.{IsConflict};
ghost use Rattle.clause_solver.specs.Trail.{decisions, IsTrail};

use crate::line::hints_of;
use crate::trail::Trail;
use clause_form::clause::Clause;
use clause_form::line::Line;
use std::alloc::{AllocError, Global};

// The empty line, which uses up the trail.
pub fn refute(alloc: Global, trail: &mut Trail, conflict: u64) -> Result<Line, AllocError>
    requires { decisions trail.old ≡ 0 }
    ensures empty { IfOk result (λ line. line.clause ≡ []) }
    ensures derived { IfOk result (λ line. (n : ℕ) (clauses : _) → IsTrail n clauses trail.old → IsConflict clauses trail.old conflict → is_derived n clauses line ≡ true) }
{
    let mut hints = Vec::new(alloc);
    hints.push(conflict)?;
    while let Some(entry) = trail.pop() {
        let Some(number) = entry.reason else {
            unreachable!();
        };
        hints.push(number)?;
    }
    let hints = hints_of(alloc, hints.as_slice())?;
    let clause = Clause::new(alloc);
    Ok(Line { clause, hints })
}
