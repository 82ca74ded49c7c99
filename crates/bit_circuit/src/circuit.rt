// A circuit: its clauses so far, and their variables.
ghost use Rattle.std.specs.Prelude.{◌≡◌, ◌≢◌, ℕ, ◌+◌, ◌-◌, ◌<◌, ◌^◌, [], ◌∷◌, OnErr, OnOk, IfOk};
ghost use Rattle.clause_form.specs.Literals.{AreOf, IsOf, literal, variable};
ghost use Rattle.bit_circuit.specs.Extension.{Extends, ExtendsWith, IsCircuit, formula, ordered, with_clauses};

use clause_form::clause::{Clause, Clauses};
use clause_form::formula::Formula;
use clause_form::lit::Lit;
use std::alloc::{AllocError, Global};
use std::marker::Model;

/// The most variables of a formula.
const MOST: u64 = 0x7fff_ffff_ffff_ffff;

/// Clauses over variables from 1 on, of which variable 1 is true. Each call adds clauses and variables, and takes none away.
/// After a refusal the circuit is given up: it may hold some clauses of a gate.
#[derive(Drop)]
pub struct Circuit {
    alloc: Global,
    variables: u64,
    clauses: Clauses,
}

impl Model for Circuit {
    ghost use Rattle.std.specs.Prelude.{◌<◌, ◌^◌};
    ghost use Rattle.bit_circuit.specs.Extension.{PlainFormula, formula, IsRoomy};

    ghost Value = { PlainFormula };

    ghost view = { λ c. formula c.variables c.clauses };

    ghost invariant = { λ c. IsRoomy (formula c.variables c.clauses) };
}

// The clause of one literal.
fn unit(alloc: Global, lit: Lit) -> Result<Clause, AllocError>
    requires { 0 < variable lit }
    ensures { IfOk result (λ c. c ≡ lit ∷ []) }
{
    let mut clause = Clause::new(alloc);
    clause.push(lit)?;
    Ok(clause)
}

// The clause of two literals.
fn pair(alloc: Global, a: Lit, b: Lit) -> Result<Clause, AllocError>
    requires some { 0 < variable a }
    requires rises { variable a < variable b }
    ensures { IfOk result (λ c. c ≡ a ∷ b ∷ []) }
{
    let mut clause = unit(alloc, a)?;
    clause.push(b)?;
    Ok(clause)
}

// The clause of three literals.
fn triple(alloc: Global, a: Lit, b: Lit, c: Lit) -> Result<Clause, AllocError>
    requires some { 0 < variable a }
    requires rises { variable a < variable b }
    requires last { variable b < variable c }
    ensures { IfOk result (λ r. r ≡ a ∷ b ∷ c ∷ []) }
{
    let mut clause = pair(alloc, a, b)?;
    clause.push(c)?;
    Ok(clause)
}

impl Circuit {
    /// The circuit of variable 1, which its one clause makes true.
    pub fn new(alloc: Global) -> Result<Circuit, AllocError>
        ensures clause { IfOk result (λ c. c ≡ formula 1 ((literal 1 ∷ []) ∷ [])) }
        ensures one { IfOk result (λ c. Extends (formula 0 []) c) }
    {
        let mut clauses = Clauses::new(alloc);
        clauses.push(unit(alloc, Lit(2))?)?;
        Ok(Circuit {
            alloc,
            variables: 1,
            clauses,
        })
    }

    // The literal of variable 1.
    pub(crate) fn truth(&self) -> Lit
        ensures literal { result ≡ literal 1 }
        ensures circuit { IsCircuit self.now }
    {
        let _ = &self.variables;
        Lit(2)
    }

    /// The literal of a new variable, on which no clause speaks yet. It takes no memory; it is refused where there are 2^63 - 1 variables.
    pub fn input(&mut self) -> Result<Lit, AllocError>
        ensures new { IfOk result (λ r. r ≡ literal (self.old.variables + 1)) }
        ensures only { OnOk result (self.new ≡ formula (self.old.variables + 1) self.old.clauses) }
        ensures free { IfOk result (λ r. ExtendsWith self.old self.new (r ∷ [])) }
        ensures full { OnErr result (self.old.variables ≡ 2 ^ 63 - 1) }
        ensures circuit { IsCircuit self.old }
    {
        if self.variables == MOST {
            return Err(AllocError);
        }
        self.variables += 1;
        Ok(Lit(2 * self.variables))
    }

    // What the circuit takes its memory from.
    pub(crate) fn allocator(&self) -> Global {
        self.alloc
    }

    /// The clauses so far. It takes no memory.
    pub fn into_formula(self) -> Formula
        ensures variables { result.variables ≡ self.variables }
        ensures clauses { result.clauses ≡ self.clauses }
    {
        let Circuit {
            alloc: _,
            variables,
            clauses,
        } = self;
        Formula { variables, clauses }
    }

    // One more clause.
    fn add(&mut self, clause: Clause) -> Result<(), AllocError>
        requires { AreOf self.old.variables clause }
        ensures { OnOk result (self.new ≡ with_clauses self.old (clause ∷ [])) }
    {
        let _ = clause.lits();
        self.clauses.push(clause)?;
        Ok(())
    }

    /// Adds the clause of this one literal.
    pub fn require(&mut self, a: Lit) -> Result<(), AllocError>
        requires { IsOf self.old.variables a }
        ensures { OnOk result (self.new ≡ with_clauses self.old ((a ∷ []) ∷ [])) }
    {
        let clause = unit(self.alloc, a)?;
        self.add(clause)
    }

    // Adds the clause of two literals.
    pub(crate) fn require_either(&mut self, a: Lit, last: Lit) -> Result<(), AllocError>
        requires a { IsOf self.old.variables a }
        requires last { IsOf self.old.variables last }
        requires rises { variable a < variable last }
        ensures { OnOk result (self.new ≡ with_clauses self.old ((a ∷ last ∷ []) ∷ [])) }
    {
        let clause = pair(self.alloc, a, last)?;
        self.add(clause)
    }

    // Adds the clause of two literals, in either order, and a last one.
    pub(crate) fn require_any(&mut self, a: Lit, b: Lit, last: Lit) -> Result<(), AllocError>
        requires a { IsOf self.old.variables a }
        requires b { IsOf self.old.variables b }
        requires last { IsOf self.old.variables last }
        requires apart { variable a ≢ variable b }
        requires a_below { variable a < variable last }
        requires b_below { variable b < variable last }
        ensures { OnOk result (self.new ≡ with_clauses self.old (ordered a b last ∷ [])) }
    {
        let clause = if a.variable() < b.variable() {
            triple(self.alloc, a, b, last)?
        } else {
            triple(self.alloc, b, a, last)?
        };
        self.add(clause)
    }
}
