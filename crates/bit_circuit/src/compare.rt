// Comparisons.
ghost use Rattle.std.specs.Prelude.{◌≡◌, ℕ, ◌+◌, ◌*◌, ◌^◌, ◌%◌, ◌≤◌, IfOk, length, not, nat_eq, nat_lt, nat_le};
ghost use Rattle.clause_form.specs.Literals.{IsOf, AreOf};
ghost use Rattle.bit_circuit.specs.Extension.{Makes};
ghost use Rattle.bit_circuit.specs.BusValue.{MakesBus, number, bit};

use crate::bits::Gate;
use crate::bus::Bus;
use crate::circuit::Circuit;
use clause_form::lit::Lit;
use std::alloc::AllocError;

impl Circuit {
    // 1 where the literal is true, and else 0.
    pub(crate) fn flag(&self, a: Lit) -> Bus
        requires { IsOf self.now.variables a }
        ensures { MakesBus self.now self.now result.lits (λ v. bit v a) 0 }
    {
        let mut result = self.constant(0);
        result.lits[0] = a;
        result
    }

    // Whether a bus is not 0.
    pub(crate) fn is_nonzero(&mut self, a: Bus) -> Result<Lit, AllocError>
        requires { AreOf self.old.variables a.lits }
        ensures { IfOk result (λ r. Makes self.old self.new r (λ v. not (nat_eq (number v a.lits) 0)) 32) }
    {
        self.any(&a.lits)
    }

    pub(crate) fn is_equal(&mut self, a: Bus, b: Bus) -> Result<Lit, AllocError>
        requires a { AreOf self.old.variables a.lits }
        requires b { AreOf self.old.variables b.lits }
        ensures { IfOk result (λ r. Makes self.old self.new r (λ v. nat_eq (number v a.lits) (number v b.lits)) 64) }
    {
        let differences = self.each(Gate::Xor, a, b)?;
        Ok(self.is_nonzero(differences)?.negated())
    }

    // Whether the first is below the second.
    pub(crate) fn is_less(&mut self, a: Bus, b: Bus) -> Result<Lit, AllocError>
        requires a { AreOf self.old.variables a.lits }
        requires b { AreOf self.old.variables b.lits }
        ensures { IfOk result (λ r. Makes self.old self.new r (λ v. nat_lt (number v a.lits) (number v b.lits)) 160) }
    {
        let (_, fits) = self.minus(a, b)?;
        Ok(fits.negated())
    }

    // Whether the first is at most the second.
    pub(crate) fn is_at_most(&mut self, a: Bus, b: Bus) -> Result<Lit, AllocError>
        requires a { AreOf self.old.variables a.lits }
        requires b { AreOf self.old.variables b.lits }
        ensures { IfOk result (λ r. Makes self.old self.new r (λ v. nat_le (number v a.lits) (number v b.lits)) 160) }
    {
        let (_, fits) = self.minus(b, a)?;
        Ok(fits)
    }
}
