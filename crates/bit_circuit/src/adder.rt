// Sums of lists of literals.
ghost use Rattle.std.specs.Prelude.{◌≡◌, ℕ, ◌+◌, ◌*◌, IfOk, length};
ghost use Rattle.clause_form.specs.Literals.{IsOf, AreOf};
ghost use Rattle.bit_circuit.specs.BusValue.{Adds, AddsInto};

use crate::circuit::Circuit;
use clause_form::lit::Lit;
use std::alloc::AllocError;

impl Circuit {
    // The sum of three literals, and the carry.
    fn add_bit(&mut self, a: Lit, b: Lit, c: Lit) -> Result<(Lit, Lit), AllocError>
        requires a { IsOf self.old.variables a }
        requires b { IsOf self.old.variables b }
        requires c { IsOf self.old.variables c }
        ensures { IfOk result (λ r. Adds self.old self.new a b c r.0 r.1) }
    {
        let half = self.xor(a, b)?;
        let sum = self.xor(half, c)?;
        let both = self.and(a, b)?;
        let through = self.and(half, c)?;
        let carry = self.or(both, through)?;
        Ok((sum, carry))
    }

    // Adds a list and a carry to another list of that length, in its place, and answers the carry.
    pub(crate) fn add_into(
        &mut self,
        sum: &mut [Lit],
        b: &[Lit],
        carry: Lit,
    ) -> Result<Lit, AllocError>
        requires same_length { length sum.old ≡ length b.now }
        requires sum { AreOf self.old.variables sum.old }
        requires b { AreOf self.old.variables b.now }
        requires carry { IsOf self.old.variables carry }
        ensures { IfOk result (λ r. AddsInto self.old self.new sum.old sum.new b.now carry r (5 * length b.now)) }
    {
        let mut carry = carry;
        for i in 0..b.len() {
            let (digit, next) = self.add_bit(sum[i], b[i], carry)?;
            sum[i] = digit;
            carry = next;
        }
        Ok(carry)
    }
}
