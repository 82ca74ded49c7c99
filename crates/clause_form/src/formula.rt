// Formulas.
ghost use Rattle.std.specs.Prelude.{◌≡◌, ◌<◌, ◌^◌, true, OnErr, OnOk, [], ◌∷◌, ◌++◌};
ghost use Rattle.clause_form.specs.Literals.{are_within, is_within};

use crate::clause::{Clause, Clauses};
use std::alloc::AllocError;

/// Clauses over the variables from 1 to `variables`.
#[derive(Drop)]
pub struct Formula {
    pub variables: u64,
    pub clauses: Clauses,
    ghost few: { variables < 2 ^ 63 },
    ghost within: { are_within variables clauses ≡ true },
}

impl Formula {
    /// Appends a clause; one that is refused is dropped.
    pub fn push(&mut self, clause: Clause) -> Result<(), AllocError>
        requires { is_within self.old.variables clause ≡ true }
        ensures variables { self.new.variables ≡ self.old.variables }
        ensures ok { OnOk result (self.new.clauses ≡ self.old.clauses ++ clause ∷ []) }
        ensures err { OnErr result (self.new.clauses ≡ self.old.clauses) }
    {
        // That the clause rises is known from here on.
        let _ = clause.lits();
        self.clauses.push(clause)
    }
}
