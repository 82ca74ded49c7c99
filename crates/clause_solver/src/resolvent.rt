// The resolvent of an analysis: a clause whose literals are all false.
//
// At first it is the clause in conflict. Its literals of the current level are counted, and
// replaced by the analysis until one is left. Those of lower levels stay, and are listed.
ghost use Rattle.std.specs.Prelude.{◌≡◌, [], ◌∷◌, OnOk};
ghost use Rattle.clause_solver.specs.Resolvent.{Adds, IsResolvent};
ghost use Rattle.clause_solver.specs.Trail.{AreFresh};

use crate::trail::Trail;
use clause_form::lit::Lit;
use clause_form::lit_set::LitSet;
use std::alloc::{AllocError, Global};

#[derive(Drop)]
pub struct Resolvent {
    // The negations of the literals that were met so far.
    pub seen: LitSet,
    // The literals of lower levels.
    pub lower: Vec<Lit>,
    // How many literals are of the current level.
    pub count: u64,
}

impl Resolvent {
    pub fn new(alloc: Global) -> Resolvent
        ensures seen { result.seen ≡ [] }
        ensures lower { result.lower.items ≡ [] }
        ensures count { result.count ≡ 0 }
    {
        Resolvent {
            seen: LitSet::new(alloc),
            lower: Vec::new(alloc),
            count: 0,
        }
    }

    // Makes it the clause without literals.
    pub fn clear(&mut self)
        ensures seen { self.new.seen ≡ [] }
        ensures lower { self.new.lower.items ≡ [] }
        ensures count { self.new.count ≡ 0 }
    {
        self.seen.clear();
        self.lower.clear();
        self.count = 0;
    }

    // Adds the false literals of a clause.
    pub fn add_all(&mut self, trail: &Trail, clause: &[Lit]) -> Result<(), AllocError>
        requires fresh { AreFresh trail.now }
        requires resolvent { IsResolvent trail.now self.old.seen self.old.lower.items self.old.count }
        ensures { OnOk result (Adds trail.now self.old.seen self.old.lower.items clause.now self.new.seen self.new.lower.items self.new.count) }
    {
        for lit in clause {
            self.add(trail, *lit)?;
        }
        Ok(())
    }

    fn add(&mut self, trail: &Trail, lit: Lit) -> Result<(), AllocError>
        requires fresh { AreFresh trail.now }
        requires resolvent { IsResolvent trail.now self.old.seen self.old.lower.items self.old.count }
        ensures { OnOk result (Adds trail.now self.old.seen self.old.lower.items (lit ∷ []) self.new.seen self.new.lower.items self.new.count) }
    {
        let set = lit.negated();
        if self.seen.has(set) {
            return Ok(());
        }
        if !trail.has(set) {
            return Ok(());
        }
        self.seen.add(set)?;
        if trail.is_newest(set) {
            self.count += 1;
        } else {
            self.lower.push(lit)?;
        }
        Ok(())
    }
}
