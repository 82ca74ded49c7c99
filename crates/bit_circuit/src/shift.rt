// Shifts.
ghost use Rattle.std.specs.Prelude.{◌≡◌, ℕ, ◌+◌, ◌*◌, ◌≤◌, IfOk, length, nat_lt, if◌then◌else◌};
ghost use Rattle.clause_form.specs.Literals.{IsOf, AreOf};
ghost use Rattle.bit_circuit.specs.declared.shift.Way.TheVariants.{Up, Down};
ghost use Rattle.bit_circuit.specs.BusValue.{MakesBus, number, moved, moved_lits, moved_by};

use crate::bus::Bus;
use crate::circuit::Circuit;
use clause_form::lit::Lit;
use std::alloc::AllocError;

/// Which way bits move.
#[derive(Clone, Copy)]
pub(crate) enum Way {
    Up,
    Down,
}

pub(crate) fn move_up(lits: &mut [Lit], by: usize, fill: Lit)
    requires { by ≤ length lits.old }
    ensures { lits.new ≡ moved_lits Up lits.old by fill }
{
    lits.rotate_right(by);
    lits[..by].fill(fill);
}

pub(crate) fn move_down(lits: &mut [Lit], by: usize, fill: Lit)
    requires { by ≤ length lits.old }
    ensures { lits.new ≡ moved_lits Down lits.old by fill }
{
    let rest = lits.len() - by;
    lits.rotate_left(by);
    lits[rest..].fill(fill);
}

// Moves the literals, with another at the places that are left.
fn move_lits(way: Way, lits: &mut [Lit], by: usize, fill: Lit)
    requires { by ≤ length lits.old }
    ensures { lits.new ≡ moved_lits way lits.old by fill }
{
    match way {
        Way::Up => move_up(lits, by, fill),
        Way::Down => move_down(lits, by, fill),
    }
}

impl Circuit {
    // Shifted by the five low bits of the amount.
    pub(crate) fn shift_low(&mut self, way: Way, a: Bus, amount: Bus) -> Result<Bus, AllocError>
        requires a { AreOf self.old.variables a.lits }
        requires amount { AreOf self.old.variables amount.lits }
        ensures { IfOk result (λ r. MakesBus self.old self.new r.lits (moved_by way a.lits amount.lits 5) 160) }
    {
        let mut result = a;
        for i in 0..5 {
            let mut further = result;
            move_lits(way, &mut further.lits, 1 << i, self.no());
            result = self.pick(amount.lits[i], result, further)?;
        }
        Ok(result)
    }

    // Shifted by the amount, and 0 from 32 places on.
    pub(crate) fn shift(&mut self, way: Way, a: Bus, amount: Bus) -> Result<Bus, AllocError>
        requires a { AreOf self.old.variables a.lits }
        requires amount { AreOf self.old.variables amount.lits }
        ensures { IfOk result (λ r. MakesBus self.old self.new r.lits (λ v. if nat_lt (number v amount.lits) 32 then moved way (number v a.lits) (number v amount.lits) else 0) 219) }
    {
        let result = self.shift_low(way, a, amount)?;
        self.near(amount, result)
    }

    // 0 where the amount is 32 or more.
    pub(crate) fn near(&mut self, amount: Bus, a: Bus) -> Result<Bus, AllocError>
        requires amount { AreOf self.old.variables amount.lits }
        requires a { AreOf self.old.variables a.lits }
        ensures { IfOk result (λ r. MakesBus self.old self.new r.lits (λ v. if nat_lt (number v amount.lits) 32 then number v a.lits else 0) 59) }
    {
        let is_far = self.any(&amount.lits[5..])?;
        let zero = self.constant(0);
        self.pick(is_far, a, zero)
    }
}
