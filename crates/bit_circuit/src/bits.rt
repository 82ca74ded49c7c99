// Lists of literals, one by one.
ghost use Rattle.std.specs.Prelude.{◌≡◌, ℕ, ◌+◌, ◌*◌, IfOk, length, map};
ghost use Rattle.clause_form.specs.Literals.{IsOf, AreOf, negation};
ghost use Rattle.clause_form.specs.ClauseTruth.{is_lit_true};
ghost use Rattle.bit_circuit.specs.Extension.{Makes};
ghost use Rattle.bit_circuit.specs.BusValue.{MakesEach, gate_value, gated, choice, any_true};

use crate::circuit::Circuit;
use clause_form::lit::Lit;
use std::alloc::AllocError;

/// A gate of two literals.
#[derive(Clone, Copy)]
pub(crate) enum Gate {
    And,
    Or,
    Xor,
}

// The other literal of each variable.
pub(crate) fn negate_all(lits: &mut [Lit])
    ensures { lits.new ≡ map negation lits.old }
{
    for lit in lits.iter_mut() {
        *lit = lit.negated();
    }
}

impl Circuit {
    fn gate(&mut self, gate: Gate, a: Lit, b: Lit) -> Result<Lit, AllocError>
        requires a { IsOf self.old.variables a }
        requires b { IsOf self.old.variables b }
        ensures { IfOk result (λ r. Makes self.old self.new r (λ v. gate_value gate (is_lit_true v a) (is_lit_true v b)) 1) }
    {
        match gate {
            Gate::And => self.and(a, b),
            Gate::Or => self.or(a, b),
            Gate::Xor => self.xor(a, b),
        }
    }

    // The gate at each place, in the place of the first list.
    pub(crate) fn gate_into(
        &mut self,
        gate: Gate,
        lits: &mut [Lit],
        b: &[Lit],
    ) -> Result<(), AllocError>
        requires same_length { length lits.old ≡ length b.now }
        requires lits { AreOf self.old.variables lits.old }
        requires b { AreOf self.old.variables b.now }
        ensures { IfOk result (λ _. MakesEach self.old self.new (gated gate) lits.old lits.new b.now (length b.now) (1 * length b.now)) }
    {
        for i in 0..b.len() {
            lits[i] = self.gate(gate, lits[i], b[i])?;
        }
        Ok(())
    }

    // The second list where the literal is true, in the place of the first.
    pub(crate) fn choose_into(
        &mut self,
        c: Lit,
        lits: &mut [Lit],
        b: &[Lit],
    ) -> Result<(), AllocError>
        requires same_length { length lits.old ≡ length b.now }
        requires c { IsOf self.old.variables c }
        requires lits { AreOf self.old.variables lits.old }
        requires b { AreOf self.old.variables b.now }
        ensures { IfOk result (λ _. MakesEach self.old self.new (choice c) lits.old lits.new b.now (length b.now) (1 * length b.now)) }
    {
        for i in 0..b.len() {
            lits[i] = self.choose(c, b[i], lits[i])?;
        }
        Ok(())
    }

    // Whether one of the literals is true.
    pub(crate) fn any(&mut self, lits: &[Lit]) -> Result<Lit, AllocError>
        requires { AreOf self.old.variables lits.now }
        ensures { IfOk result (λ r. Makes self.old self.new r (any_true lits.now) (length lits.now)) }
    {
        let mut some = self.no();
        for i in 0..lits.len() {
            some = self.or(some, lits[i])?;
        }
        Ok(some)
    }
}
