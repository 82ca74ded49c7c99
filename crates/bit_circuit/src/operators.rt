// The operators of expressions.
ghost use Rattle.std.specs.Prelude.{◌≡◌, ℕ, IfOk, ◌<◌, if◌then◌else◌, nat_eq, map};
ghost use Rattle.clause_form.specs.Literals.{AreOf, negation};
ghost use Rattle.chk_base.specs.Operators.{unary_value, binary_value};
ghost use Rattle.chk_base.specs.declared.expr.BinOp.TheVariants.{ShrS};
ghost use Rattle.bit_circuit.specs.BusValue.{MakesBus, MakesWhere, MakesTest, IsDivision, IsTest, number};

use crate::bits::{Gate, negate_all};
use crate::bus::Bus;
use crate::circuit::Circuit;
use crate::shift::Way;
use chk_base::expr::{BinOp, UnOp};
use clause_form::lit::Lit;
use std::alloc::AllocError;

// All bits turned.
fn inverted(a: Bus) -> Bus
    ensures { result.lits ≡ map negation a.lits }
{
    let mut result = a;
    negate_all(&mut result.lits);
    result
}

impl Circuit {
    /// The operator's value at a bus.
    #[tactic(auto, using(crate::proofs::LiteralLaws::literal_laws))]
    pub fn unary(&mut self, op: UnOp, a: Bus) -> Result<Bus, AllocError>
        requires { AreOf self.old.variables a.lits }
        ensures { IfOk result (λ r. MakesBus self.old self.new r.lits (λ v. unary_value op (number v a.lits)) 65536) }
    {
        match op {
            UnOp::Not => {
                let is_true = self.is_nonzero(a)?;
                Ok(self.flag(is_true.negated()))
            }
            UnOp::Neg => self.negate_if(a, self.yes()),
            UnOp::Inv => Ok(inverted(a)),
            UnOp::Low8 => Ok(self.extend(a, 8, self.no())),
            UnOp::Low16 => Ok(self.extend(a, 16, self.no())),
            UnOp::Sign8 => Ok(self.extend(a, 8, a.lits[7])),
            UnOp::Sign16 => Ok(self.extend(a, 16, a.lits[15])),
            UnOp::Bool => {
                let is_true = self.is_nonzero(a)?;
                Ok(self.flag(is_true))
            }
        }
    }

    // 0 where the divisor is 0.
    fn or_zero(&mut self, divisor: Bus, a: Bus) -> Result<Bus, AllocError>
        requires divisor { AreOf self.old.variables divisor.lits }
        requires a { AreOf self.old.variables a.lits }
        ensures { IfOk result (λ r. MakesBus self.old self.new r.lits (λ v. if nat_eq (number v divisor.lits) 0 then 0 else number v a.lits) 64) }
    {
        let is_nonzero = self.is_nonzero(divisor)?;
        let zero = self.constant(0);
        self.pick(is_nonzero, zero, a)
    }

    // The quotient of an operator, or its rest, where the divisor is not 0.
    fn divided(&mut self, op: BinOp, a: Bus, b: Bus) -> Result<Bus, AllocError>
        requires a { AreOf self.old.variables a.lits }
        requires b { AreOf self.old.variables b.lits }
        requires op { IsDivision op }
        ensures { IfOk result (λ r. MakesWhere self.old self.new r.lits (λ v. 0 < number v b.lits) (λ v. binary_value op (number v a.lits) (number v b.lits)) 7000) }
    {
        match op {
            BinOp::DivU => Ok(self.quotient(a, b)?.0),
            BinOp::RemU => Ok(self.quotient(a, b)?.1),
            BinOp::DivS => self.signed_quotient(a, b),
            BinOp::RemS => self.signed_rest(a, b),
            _ => unreachable!(),
        }
    }

    // A division, which gives 0 where the divisor is 0.
    fn division(&mut self, op: BinOp, a: Bus, b: Bus) -> Result<Bus, AllocError>
        requires a { AreOf self.old.variables a.lits }
        requires b { AreOf self.old.variables b.lits }
        requires op { IsDivision op }
        ensures { IfOk result (λ r. MakesBus self.old self.new r.lits (λ v. binary_value op (number v a.lits) (number v b.lits)) 7100) }
    {
        let result = self.divided(op, a, b)?;
        self.or_zero(b, result)
    }

    // A shift down that copies the sign.
    fn shift_signed(&mut self, a: Bus, amount: Bus) -> Result<Bus, AllocError>
        requires a { AreOf self.old.variables a.lits }
        requires amount { AreOf self.old.variables amount.lits }
        ensures { IfOk result (λ r. MakesBus self.old self.new r.lits (λ v. binary_value ShrS (number v a.lits) (number v amount.lits)) 300) }
    {
        let sign = self.sign(a);
        let flipped = self.flip_if(a, sign)?;
        let moved = self.shift_low(Way::Down, flipped, amount)?;
        let result = self.flip_if(moved, sign)?;
        self.near(amount, result)
    }

    // The test that an operator makes of two words.
    fn test(&mut self, op: BinOp, a: Bus, b: Bus) -> Result<Lit, AllocError>
        requires a { AreOf self.old.variables a.lits }
        requires b { AreOf self.old.variables b.lits }
        requires op { IsTest op }
        ensures { IfOk result (λ r. MakesTest self.old self.new r (λ v. binary_value op (number v a.lits) (number v b.lits)) 7100) }
    {
        match op {
            BinOp::Eq => self.is_equal(a, b),
            BinOp::LtU => self.is_less(a, b),
            BinOp::LeU => self.is_at_most(a, b),
            BinOp::LtS => self.is_less(self.turn(a), self.turn(b)),
            BinOp::LeS => self.is_at_most(self.turn(a), self.turn(b)),
            BinOp::AddOver => self.sum_is_outside(a, b),
            BinOp::SubOver => self.difference_is_outside(a, b),
            BinOp::MulOver => self.product_is_outside(a, b),
            _ => unreachable!(),
        }
    }

    /// The operator's value at two buses.
    pub fn binary(&mut self, op: BinOp, a: Bus, b: Bus) -> Result<Bus, AllocError>
        requires a { AreOf self.old.variables a.lits }
        requires b { AreOf self.old.variables b.lits }
        ensures { IfOk result (λ r. MakesBus self.old self.new r.lits (λ v. binary_value op (number v a.lits) (number v b.lits)) 65536) }
    {
        match op {
            BinOp::Add => self.plus(a, b),
            BinOp::Sub => Ok(self.minus(a, b)?.0),
            BinOp::Mul => Ok(self.product(a, b)?.0),
            BinOp::And => self.each(Gate::And, a, b),
            BinOp::Or => self.each(Gate::Or, a, b),
            BinOp::Xor => self.each(Gate::Xor, a, b),
            BinOp::Shl => self.shift(Way::Up, a, b),
            BinOp::ShrU => self.shift(Way::Down, a, b),
            BinOp::ShrS => self.shift_signed(a, b),
            BinOp::DivU | BinOp::DivS | BinOp::RemU | BinOp::RemS => self.division(op, a, b),
            _ => {
                let result = self.test(op, a, b)?;
                Ok(self.flag(result))
            }
        }
    }
}
