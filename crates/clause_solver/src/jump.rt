// The back jump, to the second greatest level in a learned line.
//
// At the greatest one the line has a single literal, which its analysis has taken off the trail,
// so it is the greatest level of those that are left: there, and not before, the line leaves that
// literal alone. A line of one literal leads to level zero.
ghost use Rattle.std.specs.Prelude.{◌≡◌};
ghost use Rattle.clause_solver.specs.Learning.{greatest_level};
ghost use Rattle.clause_solver.specs.Trail.{up_to};

use crate::trail::Trail;
use clause_form::lit::Lit;

// The greatest level at which a literal of the clause became false.
fn jump_level(trail: &Trail, clause: &[Lit]) -> u64
    ensures { result ≡ greatest_level trail.now clause.now }
{
    let mut level = 0;
    for lit in clause {
        level = level.max(trail.level_at(lit.negated()).unwrap_or(0));
    }
    level
}

// Takes out what was set above that level.
pub fn back_jump(trail: &mut Trail, clause: &[Lit])
    ensures { trail.new ≡ up_to (greatest_level trail.old clause.now) trail.old }
{
    let level = jump_level(trail, clause);
    trail.back_to(level);
}
