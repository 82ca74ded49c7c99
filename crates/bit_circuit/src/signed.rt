// Buses as signed words.
ghost use Rattle.std.specs.Prelude.{◌≡◌, ℕ, ◌+◌, ◌-◌, ◌*◌, ◌/◌, ◌%◌, ◌^◌, ◌<◌, ◌≤◌, IfOk, ◌++◌, take, replicate, length, nat_eq, nat_lt, nat_le, if◌then◌else◌, false, true};
ghost use Rattle.clause_form.specs.Literals.{IsOf, AreOf};
ghost use Rattle.clause_form.specs.ClauseTruth.{is_lit_true, Values};
ghost use Rattle.chk_base.specs.Operators.{one_if};
ghost use Rattle.bit_circuit.specs.Extension.{Makes, IsModel, xor};
ghost use Rattle.bit_circuit.specs.BusValue.{MakesBus, MakesWhere, number};
ghost use Rattle.bit_circuit.specs.Signed.{is_negative, flipped_if, negated_if, absolute_value, turned_word, is_outside, extended};

use crate::bits::Gate;
use crate::bus::Bus;
use crate::circuit::Circuit;
use clause_form::lit::Lit;
use std::alloc::AllocError;

// The given literal at a place and above.
fn fill_from(lits: &mut [Lit], low: usize, fill: Lit)
    requires { low ≤ length lits.old }
    ensures { lits.new ≡ take low lits.old ++ replicate (length lits.old - low) fill }
{
    lits[low..].fill(fill);
}

impl Circuit {
    // The literal of the sign.
    pub(crate) fn sign(&self, a: Bus) -> Lit
        requires { AreOf self.now.variables a.lits }
        ensures { Makes self.now self.now result (λ v. is_negative (number v a.lits)) 0 }
    {
        a.lits[31]
    }

    // The low bits, and the given literal above them.
    pub(crate) fn extend(&self, a: Bus, low: usize, fill: Lit) -> Bus
        requires a { AreOf self.now.variables a.lits }
        requires fill { IsOf self.now.variables fill }
        requires low { low ≤ 32 }
        ensures { MakesBus self.now self.now result.lits (λ v. extended low (is_lit_true v fill) (number v a.lits)) 0 }
    {
        let mut result = a;
        fill_from(&mut result.lits, low, fill);
        result
    }

    // The highest bit turned.
    pub(crate) fn turn(&self, a: Bus) -> Bus
        requires { AreOf self.now.variables a.lits }
        ensures { MakesBus self.now self.now result.lits (λ v. turned_word (number v a.lits)) 0 }
    {
        let mut result = a;
        result.lits[31] = a.lits[31].negated();
        result
    }

    // All bits turned where the literal is true.
    pub(crate) fn flip_if(&mut self, a: Bus, c: Lit) -> Result<Bus, AllocError>
        requires a { AreOf self.old.variables a.lits }
        requires c { IsOf self.old.variables c }
        ensures { IfOk result (λ r. MakesBus self.old self.new r.lits (λ v. flipped_if (is_lit_true v c) (number v a.lits)) 32) }
    {
        let mask = self.extend(a, 0, c);
        self.each(Gate::Xor, a, mask)
    }

    // The negative where the literal is true.
    pub(crate) fn negate_if(&mut self, a: Bus, c: Lit) -> Result<Bus, AllocError>
        requires a { AreOf self.old.variables a.lits }
        requires c { IsOf self.old.variables c }
        ensures { IfOk result (λ r. MakesBus self.old self.new r.lits (λ v. negated_if (is_lit_true v c) (number v a.lits)) 192) }
    {
        let flipped = self.flip_if(a, c)?;
        let (result, _) = self.sum(flipped, self.constant(0), c)?;
        Ok(result)
    }

    // The absolute value.
    pub(crate) fn absolute(&mut self, a: Bus) -> Result<Bus, AllocError>
        requires { AreOf self.old.variables a.lits }
        ensures { IfOk result (λ r. MakesBus self.old self.new r.lits (λ v. absolute_value (number v a.lits)) 192) }
    {
        self.negate_if(a, self.sign(a))
    }

    // Whether the sum of two signed words leaves their range.
    pub(crate) fn sum_is_outside(&mut self, a: Bus, b: Bus) -> Result<Lit, AllocError>
        requires a { AreOf self.old.variables a.lits }
        requires b { AreOf self.old.variables b.lits }
        ensures { IfOk result (λ r. Makes self.old self.new r (λ v. is_outside (turned_word (number v a.lits) + turned_word (number v b.lits))) 161) }
    {
        let (sum, carry) = self.sum(self.turn(a), self.turn(b), self.no())?;
        Ok(self.xor(carry, self.sign(sum))?.negated())
    }

    // Whether the difference of two signed words leaves their range.
    pub(crate) fn difference_is_outside(&mut self, a: Bus, b: Bus) -> Result<Lit, AllocError>
        requires a { AreOf self.old.variables a.lits }
        requires b { AreOf self.old.variables b.lits }
        ensures { IfOk result (λ r. Makes self.old self.new r (λ v. is_outside (turned_word (number v a.lits) + 2 ^ 32 - turned_word (number v b.lits))) 161) }
    {
        let (difference, fits) = self.minus(self.turn(a), self.turn(b))?;
        Ok(self.xor(fits, self.sign(difference))?.negated())
    }

    // Whether the product of two signed words leaves their range.
    pub(crate) fn product_is_outside(&mut self, a: Bus, b: Bus) -> Result<Lit, AllocError>
        requires a { AreOf self.old.variables a.lits }
        requires b { AreOf self.old.variables b.lits }
        ensures { IfOk result (λ r. Makes self.old self.new r (λ v. nat_le (2 ^ 31 + one_if (xor (is_negative (number v a.lits)) (is_negative (number v b.lits)))) (absolute_value (number v a.lits) * absolute_value (number v b.lits))) 7100) }
    {
        let is_negative = self.xor(self.sign(a), self.sign(b))?;
        let a_absolute = self.absolute(a)?;
        let b_absolute = self.absolute(b)?;
        let (low, high) = self.product(a_absolute, b_absolute)?;
        let bound = self.plus(self.constant(0x8000_0000), self.flag(is_negative))?;
        let is_high = self.is_nonzero(high)?;
        let is_over = self.is_at_most(bound, low)?;
        self.or(is_high, is_over)
    }

    // The quotient of two words by their sizes, with the sign that the literal says.
    pub(crate) fn signed_quotient(&mut self, a: Bus, b: Bus) -> Result<Bus, AllocError>
        requires a { AreOf self.old.variables a.lits }
        requires b { AreOf self.old.variables b.lits }
        ensures { IfOk result (λ r. MakesWhere self.old self.new r.lits (λ v. 0 < number v b.lits) (λ v. negated_if (xor (is_negative (number v a.lits)) (is_negative (number v b.lits))) (absolute_value (number v a.lits) / absolute_value (number v b.lits))) 7000) }
    {
        let is_negative = self.xor(self.sign(a), self.sign(b))?;
        let a_absolute = self.absolute(a)?;
        let b_absolute = self.absolute(b)?;
        let (quotient, _) = self.quotient(a_absolute, b_absolute)?;
        self.negate_if(quotient, is_negative)
    }

    // The rest of two words by their sizes, with the sign of the first.
    pub(crate) fn signed_rest(&mut self, a: Bus, b: Bus) -> Result<Bus, AllocError>
        requires a { AreOf self.old.variables a.lits }
        requires b { AreOf self.old.variables b.lits }
        ensures { IfOk result (λ r. MakesWhere self.old self.new r.lits (λ v. 0 < number v b.lits) (λ v. negated_if (is_negative (number v a.lits)) (absolute_value (number v a.lits) % absolute_value (number v b.lits))) 7000) }
    {
        let a_absolute = self.absolute(a)?;
        let b_absolute = self.absolute(b)?;
        let (_, rest) = self.quotient(a_absolute, b_absolute)?;
        self.negate_if(rest, self.sign(a))
    }
}
