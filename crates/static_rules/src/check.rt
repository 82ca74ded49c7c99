// Units that are checked.
ghost use Rattle.std.specs.Prelude.{◌≡◌, IfOk, IfErr, MatchOption, []};
ghost use Rattle.application.specs.InOrder.{IsInOrder};
ghost use Rattle.typed_unit.specs.Typed as typed_units;
ghost use Rattle.typed_unit.specs.Views.{unit_of};
ghost use Rattle.c_rules.specs.First.{IsFirst};
ghost use Rattle.static_rules.specs.Rules.{faults};
ghost use Rattle.static_rules.specs.Checked.{Fits, IsRefusal};

use crate::bodies::seeing_bodies;
use crate::chains::first_of_calls;
use crate::collect::function_bodies;
use crate::resources::seeing_resources;
use crate::sizes::seeing_sizes;
use application::app::App;
use c_rules::first::Fault;
use chk_base::place::Place;
use std::alloc::{AllocError, Global};
use std::marker::Model;
use typed_unit::typed::TypedUnit;

/// Why a unit is refused: `Rule` has the number, 1 to 14, and the place of the first rule that is broken, which is that at the least place,
/// and there that with the least number; `Memory` is want of memory.
#[derive(Clone, Copy, PartialEq, Eq, Debug)]
pub enum RuleFault {
    Rule(u8, Place),
    Memory,
}

/// A unit that breaks no rule.
#[derive(Drop)]
pub struct Checked {
    unit: TypedUnit,
}

impl Model for Checked {
    ghost use Rattle.typed_unit.specs.declared.typed.TypedUnit.{TypedUnit};
    ghost use Rattle.typed_unit.specs.contracts.typed.TypedUnit as u;

    ghost Value = { TypedUnit };

    ghost coded = { u.the_row.coded };

    ghost view = { λ c. c.unit };
}

impl Checked {
    /// The unit.
    pub fn unit(&self) -> &TypedUnit
        ensures { result.now ≡ self.now }
    {
        &self.unit
    }
}

// The first fault of a unit: that with the least place, and there of the least rule.
#[tactic(auto, using(c_rules::proofs::Firsts::first_of_append, c_rules::proofs::Least::first_is), unfolding(crate::specs::Rules::faults))]
pub(crate) fn first_fault(
    alloc: Global,
    app: &App,
    unit: &TypedUnit,
) -> Result<Option<Fault>, AllocError>
    ensures { IfOk result (λ fault. MatchOption fault (faults (unit_of unit.now) app.now ≡ []) (IsFirst (faults (unit_of unit.now) app.now))) }
{
    let entities = unit.entities.as_slice();
    let bodies = function_bodies(alloc, unit.functions.as_slice())?;
    let first = first_of_calls(alloc, bodies.as_slice(), entities)?;
    let first = seeing_resources(alloc, first, app, bodies.as_slice(), entities)?;
    let first = seeing_bodies(alloc, first, app, unit)?;
    Ok(seeing_sizes(first, unit).fault)
}

/// The unit, where it breaks no rule for the application.
///
/// # Errors
///
/// `Rule` exactly where a rule is broken, with the first one; `Memory` is want of memory alone. The unit is dropped.
pub fn check_rules(alloc: Global, app: &App, unit: TypedUnit) -> Result<Checked, RuleFault>
    requires order { IsInOrder app.now }
    requires fits { typed_units.Fits app.now (unit_of unit) }
    ensures unit { IfOk result (λ checked. checked ≡ unit) }
    ensures fits { IfOk result (Fits app.now) }
    ensures refused { IfErr result (IsRefusal (unit_of unit) app.now) }
{
    match first_fault(alloc, app, &unit) {
        Ok(None) => Ok(Checked { unit }),
        Ok(Some(Fault { rule, place })) => Err(RuleFault::Rule(rule, place)),
        Err(_) => Err(RuleFault::Memory),
    }
}
