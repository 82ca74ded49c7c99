// The solver's one call.
ghost use Rattle.std.specs.Prelude.{◌≡◌, ◌≤◌, ◌^◌, [], Err, Ok, IfOk, IfSome, is_some};
ghost use Rattle.clause_form.specs.Keep.{Rose};
ghost use Rattle.clause_form.specs.LearnedLine.{IsSpent};
ghost use Rattle.clause_solver.specs.Answer.{EndsAs, IsAnswer, IsLog};

use crate::answer::{Answer, SolveFault};
use crate::search::Search;
use clause_form::formula::Formula;
use clause_form::keep::Keep;
use clause_form::store::ClauseStore;
use std::alloc::Global;

/// Looks for a model of the formula, and keeps each line that it learns on the way, the empty one
/// of a refutation included. The store then holds the clauses of the formula and of the kept lines
/// but an empty one; after a fault it is given up.
pub fn solve<C: ClauseStore, K: Keep>(
    alloc: Global,
    formula: &Formula,
    store: &mut C,
    budget: u64,
    keep: &mut K,
) -> Result<Answer, SolveFault>
    requires store { C.stored store.old ≡ [] }
    requires keep { IfSome (K.lines keep.old) (λ log. log ≡ []) }
    requires budget { budget ≤ 10 ^ 12 }

    // A model makes every clause true, and a refutation means that no assignment does, whether the keep tells its lines or not.
    ensures answer { IfOk result (IsAnswer formula.now.variables formula.now.clauses) }

    // Whatever the answer is, each kept line is derived, each but an empty one is learned, and there are at most so many.
    ensures lines { IfSome (K.lines keep.new) (IsLog formula.now.variables formula.now.clauses budget) }
    ensures ends { IfSome (K.lines keep.new) (EndsAs result) }
    ensures spent { result ≡ Ok Answer.Spent → IfSome (K.lines keep.new) (λ log. IsSpent formula.now.variables formula.now.clauses log budget) }

    // It fails only where the keep did.
    ensures failed { result ≡ Err SolveFault.KeepFailed → Rose (K.faults keep.old) (K.faults keep.new) }
    ensures later { K.faults keep.old ≤ K.faults keep.new }
    ensures origin { K.origin keep.new ≡ K.origin keep.old }
    ensures told { is_some (K.lines keep.new) ≡ is_some (K.lines keep.old) }
{
    let mut search = Search::new(alloc);
    search.numbering.append_all(store, &formula.clauses)?;
    search.run(formula, store, budget, keep)
}
