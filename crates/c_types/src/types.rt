// From a C text and an application to the typed unit.
ghost use Rattle.std.specs.Prelude.{◌≡◌, IfOk, IfErr, OnOk, []};
ghost use Rattle.c_rules.specs.UnitRules.{faults};
ghost use Rattle.typed_unit.specs.Views.{unit_of};
ghost use Rattle.typed_unit.specs.Typed.{typed};
ghost use Rattle.c_types.specs.Answers.{IsRefusal};

use crate::units::typed;
use application::app::App;
use c_rules::first::Fault;
use c_rules::rules::{first_fault, read_names};
use c_unit::unit::Unit;
use chk_base::place::Place;
use std::alloc::Global;
use typed_unit::typed::TypedUnit;

/// Why there is no typed unit: `Rule` has the number, 1 to 20, and the place of the first rule that is broken, which is that at the least
/// place, and there that with the least number; `Memory` is want of memory.
#[derive(Clone, Copy, PartialEq, Eq, Debug)]
pub enum TypeFault {
    Rule(u8, Place),
    Memory,
}

/// The typed unit of a C text, for an application.
///
/// # Errors
///
/// `Rule` exactly where a rule is broken, with the first one; `Memory` is want of memory alone.
pub fn type_unit(alloc: Global, unit: &Unit, app: &App) -> Result<TypedUnit, TypeFault>
    ensures typed { IfOk result (λ u. unit_of u ≡ typed unit.now app.now) }
    ensures accepted { OnOk result (faults unit.now app.now ≡ []) }
    ensures refused { IfErr result (IsRefusal unit.now app.now) }
{
    let read = match read_names(alloc, app, unit) {
        Ok(read) => read,
        Err(_) => return Err(TypeFault::Memory),
    };
    match first_fault(alloc, app, unit, &read) {
        Ok(None) => match typed(alloc, app, unit, &read.names) {
            Ok(typed) => Ok(typed),
            Err(_) => Err(TypeFault::Memory),
        },
        Ok(Some(Fault { rule, place })) => Err(TypeFault::Rule(rule, place)),
        Err(_) => Err(TypeFault::Memory),
    }
}
