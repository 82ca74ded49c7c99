// Sums, gates and choices of buses, and constant buses.
ghost use Rattle.std.specs.Prelude.{◌≡◌, ℕ, ◌+◌, ◌^◌, ◌%◌, IfOk, if◌then◌else◌};
ghost use Rattle.clause_form.specs.Literals.{IsOf, AreOf};
ghost use Rattle.clause_form.specs.ClauseTruth.{is_lit_true};
ghost use Rattle.bit_circuit.specs.BusValue.{MakesBus, MakesSum, MakesDifference, number, gate_word};

use crate::bits::{Gate, negate_all};
use crate::bus::Bus;
use crate::circuit::Circuit;
use clause_form::lit::Lit;
use std::alloc::AllocError;

impl Circuit {
    // The sum of two buses and a literal, and the carry.
    pub(crate) fn sum(&mut self, a: Bus, b: Bus, carry: Lit) -> Result<(Bus, Lit), AllocError>
        requires a { AreOf self.old.variables a.lits }
        requires b { AreOf self.old.variables b.lits }
        requires carry { IsOf self.old.variables carry }
        ensures { IfOk result (λ r. MakesSum self.old self.new a.lits b.lits carry r.0.lits r.1 160) }
    {
        let mut sum = a;
        let carry = self.add_into(&mut sum.lits, &b.lits, carry)?;
        Ok((sum, carry))
    }

    // The gate of two buses at each place.
    pub(crate) fn each(&mut self, gate: Gate, a: Bus, b: Bus) -> Result<Bus, AllocError>
        requires a { AreOf self.old.variables a.lits }
        requires b { AreOf self.old.variables b.lits }
        ensures { IfOk result (λ r. MakesBus self.old self.new r.lits (λ v. gate_word gate (number v a.lits) (number v b.lits)) 32) }
    {
        let mut result = a;
        self.gate_into(gate, &mut result.lits, &b.lits)?;
        Ok(result)
    }

    // The second bus where the literal is true, and else the first.
    pub(crate) fn pick(&mut self, c: Lit, a: Bus, b: Bus) -> Result<Bus, AllocError>
        requires c { IsOf self.old.variables c }
        requires a { AreOf self.old.variables a.lits }
        requires b { AreOf self.old.variables b.lits }
        ensures { IfOk result (λ r. MakesBus self.old self.new r.lits (λ v. if is_lit_true v c then number v b.lits else number v a.lits) 32) }
    {
        let mut result = a;
        self.choose_into(c, &mut result.lits, &b.lits)?;
        Ok(result)
    }

    // The bus of a number.
    pub(crate) fn constant(&self, n: u32) -> Bus
        ensures { MakesBus self.now self.now result.lits (λ _. n) 0 }
    {
        let mut lits = [self.no(); 32];
        let mut rest = n;
        for i in 0..32 {
            lits[i] = self.literal_of(rest % 2 == 1);
            rest /= 2;
        }
        Bus { lits }
    }

    // The sum modulo 2^32.
    pub(crate) fn plus(&mut self, a: Bus, b: Bus) -> Result<Bus, AllocError>
        requires a { AreOf self.old.variables a.lits }
        requires b { AreOf self.old.variables b.lits }
        ensures { IfOk result (λ r. MakesBus self.old self.new r.lits (λ v. (number v a.lits + number v b.lits) % 2 ^ 32) 160) }
    {
        let no = self.no();
        let (sum, _) = self.sum(a, b, no)?;
        Ok(sum)
    }

    // The difference modulo 2^32, and whether there is no borrow.
    pub(crate) fn minus(&mut self, a: Bus, b: Bus) -> Result<(Bus, Lit), AllocError>
        requires a { AreOf self.old.variables a.lits }
        requires b { AreOf self.old.variables b.lits }
        ensures { IfOk result (λ r. MakesDifference self.old self.new a.lits b.lits r.0.lits r.1 160) }
    {
        let yes = self.yes();
        let mut complement = b;
        negate_all(&mut complement.lits);
        self.sum(a, complement, yes)
    }
}
