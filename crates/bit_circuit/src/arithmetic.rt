// Products and quotients.
ghost use Rattle.std.specs.Prelude.{◌≡◌, ℕ, IfOk, length, take};
ghost use Rattle.clause_form.specs.Literals.{IsOf, AreOf};
ghost use Rattle.bit_circuit.specs.Arithmetic.{IsWide, MultiplyStep, MakesProduct, DivideStep, MakesQuotient};

use crate::bits::negate_all;
use crate::bus::Bus;
use crate::circuit::Circuit;
use crate::shift::{move_down, move_up};
use clause_form::lit::Lit;
use std::alloc::AllocError;

// The 32 low literals.
fn narrow(wide: [Lit; 33]) -> Bus
    ensures { result.lits ≡ take 32 wide }
{
    let mut lits = [wide[0]; 32];
    lits.copy_from_slice(&wide[..32]);
    Bus { lits }
}

impl Circuit {
    // The literals of a bus, and one above that is false.
    fn wide(&self, a: Bus) -> [Lit; 33]
        requires { AreOf self.now.variables a.lits }
        ensures { IsWide self.now a.lits result }
    {
        let mut lits = [self.no(); 33];
        lits[..32].copy_from_slice(&a.lits);
        lits
    }

    // Adds where the digit is true, and takes the lowest literal from the sum.
    fn multiply_step(&mut self, sum: &mut [Lit], a: &[Lit], digit: Lit) -> Result<Lit, AllocError>
        requires sum_width { length sum.old ≡ 33 }
        requires width { length a.now ≡ 33 }
        requires sum { AreOf self.old.variables sum.old }
        requires a { AreOf self.old.variables a.now }
        requires digit { IsOf self.old.variables digit }
        ensures { IfOk result (λ r. MultiplyStep self.old self.new sum.old sum.new a.now digit r) }
    {
        let mut row = [self.no(); 33];
        self.choose_into(digit, &mut row, a)?;
        self.add_into(sum, &row, self.no())?;
        let low = sum[0];
        move_down(sum, 1, self.no());
        Ok(low)
    }

    // The product, in its low and its high literals.
    pub(crate) fn product(&mut self, a: Bus, b: Bus) -> Result<(Bus, Bus), AllocError>
        requires a { AreOf self.old.variables a.lits }
        requires b { AreOf self.old.variables b.lits }
        ensures { IfOk result (λ r. MakesProduct self.old self.new a.lits b.lits r.0.lits r.1.lits) }
    {
        let wide = self.wide(a);
        let mut sum = [self.no(); 33];
        let mut low = a;
        for i in 0..32 {
            low.lits[i] = self.multiply_step(&mut sum, &wide, b.lits[i])?;
        }
        Ok((low, narrow(sum)))
    }

    // Takes one digit more into the rest, and takes the divisor from it where it goes in.
    fn divide_step(
        &mut self,
        rest: &mut [Lit],
        complement: &[Lit],
        digit: Lit,
    ) -> Result<Lit, AllocError>
        requires rest_width { length rest.old ≡ 33 }
        requires width { length complement.now ≡ 33 }
        requires rest { AreOf self.old.variables rest.old }
        requires complement { AreOf self.old.variables complement.now }
        requires digit { IsOf self.old.variables digit }
        ensures { IfOk result (λ r. DivideStep self.old self.new rest.old rest.new complement.now digit r) }
    {
        move_up(rest, 1, digit);
        let mut trial = [digit; 33];
        trial.copy_from_slice(rest);
        let fits = self.add_into(&mut trial, complement, self.yes())?;
        self.choose_into(fits, rest, &trial)?;
        Ok(fits)
    }

    // The quotient and the rest, where the divisor is not 0.
    pub(crate) fn quotient(&mut self, a: Bus, b: Bus) -> Result<(Bus, Bus), AllocError>
        requires a { AreOf self.old.variables a.lits }
        requires b { AreOf self.old.variables b.lits }
        ensures { IfOk result (λ r. MakesQuotient self.old self.new a.lits b.lits r.0.lits r.1.lits) }
    {
        let mut complement = self.wide(b);
        negate_all(&mut complement);
        let mut rest = [self.no(); 33];
        let mut quotient = a;
        let mut i = 32;
        while i > 0 {
            i -= 1;
            quotient.lits[i] = self.divide_step(&mut rest, &complement, a.lits[i])?;
        }
        Ok((quotient, narrow(rest)))
    }
}
