// Choices among buses.
ghost use Rattle.std.specs.Prelude.{◌≡◌, ℕ, ◌*◌, IfOk, length, if◌then◌else◌, nat_eq};
ghost use Rattle.clause_form.specs.Literals.{AreOf};
ghost use Rattle.bit_circuit.specs.BusValue.{MakesBus, number};
ghost use Rattle.bit_circuit.specs.Selection.{AreInside, number_at};

use crate::bus::{Bus, Buses};
use crate::circuit::Circuit;
use std::alloc::AllocError;

impl Circuit {
    // The item where the index is its place, and else what was chosen before.
    fn select_one(
        &mut self,
        chosen: Bus,
        item: Bus,
        place: u32,
        index: Bus,
    ) -> Result<Bus, AllocError>
        requires chosen { AreOf self.old.variables chosen.lits }
        requires item { AreOf self.old.variables item.lits }
        requires index { AreOf self.old.variables index.lits }
        ensures { IfOk result (λ r. MakesBus self.old self.new r.lits (λ v. if nat_eq (number v index.lits) place then number v item.lits else number v chosen.lits) 96) }
    {
        let is_here = self.is_equal(index, self.constant(place))?;
        self.pick(is_here, chosen, item)
    }

    /// The item at the index, and 0 outside the list.
    pub fn select(&mut self, items: &Buses, index: Bus) -> Result<Bus, AllocError>
        requires items { AreInside self.old.variables items.now }
        requires index { AreOf self.old.variables index.lits }
        ensures { IfOk result (λ r. MakesBus self.old self.new r.lits (number_at items.now index) (256 * length items.now)) }
    {
        let mut chosen = self.constant(0);
        for i in 0..items.len() {
            let Ok(place) = u32::try_from(i) else {
                break;
            };
            chosen = self.select_one(chosen, items.at(i), place, index)?;
        }
        Ok(chosen)
    }
}
