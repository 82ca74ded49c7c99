// Clauses.
ghost use Rattle.std.specs.Prelude.{◌≡◌, ◌<◌, length, slice_get, IfOk, OnErr, OnOk, [], ◌∷◌, ◌++◌};
ghost use Rattle.std.specs.Option.{option_copied};
ghost use Rattle.clause_form.specs.Literals.{IsClause, last_variable, variable};

use crate::lit::Lit;
use std::alloc::{AllocError, Global};
use std::marker::Model;

/// A list of literals that rises strictly by variable.
#[derive(Drop)]
pub struct Clause {
    lits: Vec<Lit>,
}

impl Model for Clause {
    ghost use Rattle.std.specs.Prelude.{List};
    ghost use Rattle.clause_form.specs.declared.lit.Lit.{Lit};
    ghost use Rattle.clause_form.specs.Literals.{IsClause};

    ghost Value = { List Lit };

    ghost view = { λ c. c.lits.items };

    ghost invariant = { λ c. IsClause c.lits.items };
}

impl Clause {
    pub fn new(alloc: Global) -> Clause
        ensures { result ≡ [] }
    {
        Clause {
            lits: Vec::new(alloc),
        }
    }

    /// Appends a literal.
    pub fn push(&mut self, lit: Lit) -> Result<(), AllocError>
        requires { last_variable 0 self.old < variable lit }
        ensures ok { OnOk result (self.new ≡ self.old ++ lit ∷ []) }
        ensures err { OnErr result (self.new ≡ self.old) }
    {
        self.lits.push(lit)?;
        Ok(())
    }

    /// Lends the literals.
    pub fn lits(&self) -> &[Lit]
        ensures lits { result.now ≡ self.now }
        ensures rising { IsClause self.now }
    {
        self.lits.as_slice()
    }

    /// An equal clause.
    pub fn copy(&self, alloc: Global) -> Result<Clause, AllocError>
        ensures { IfOk result (λ c. c ≡ self.now) }
    {
        let lits = Vec::from_slice(alloc, self.lits.as_slice())?;
        Ok(Clause { lits })
    }
}

/// A list of clauses.
#[derive(Drop)]
pub struct Clauses {
    items: Vec<Clause>,
}

impl Model for Clauses {
    ghost use Rattle.std.specs.Prelude.{List};
    ghost use Rattle.clause_form.specs.declared.lit.Lit.{Lit};

    ghost Value = { List (List Lit) };

    ghost view = { λ a. a.items.items };
}

impl Clauses {
    pub fn new(alloc: Global) -> Self
        ensures { result ≡ [] }
    {
        Clauses {
            items: Vec::new(alloc),
        }
    }

    pub fn push(&mut self, item: Clause) -> Result<(), AllocError>
        ensures ok { OnOk result (self.new ≡ self.old ++ item ∷ []) }
        ensures err { OnErr result (self.new ≡ self.old) }
    {
        self.items.push(item)?;
        Ok(())
    }

    pub fn len(&self) -> usize
        ensures { result ≡ length self.now }
    {
        self.items.len()
    }

    pub fn get(&self, at: usize) -> Option<&Clause>
        ensures { option_copied result ≡ slice_get self.now at }
    {
        self.items.get(at)
    }
}
