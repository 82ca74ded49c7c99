// The rules on sizes.
ghost use Rattle.std.specs.Prelude.{◌≡◌, map, option_map};
ghost use Rattle.std.specs.List.{flat_map};
ghost use Rattle.std.specs.Option.{option_copied};
ghost use Rattle.typed_unit.specs.Views.{unit_of, function_of, entity_of};
ghost use Rattle.c_rules.specs.First.{first_of};
ghost use Rattle.static_rules.specs.Rules.{variable_faults, function_faults, local_faults, function_local_faults, entity_local_faults, size_faults};

use c_rules::first::First;
use typed_unit::typed::{GlobalVar, Local, TypedEntity, TypedFunction, TypedUnit};

fn seeing_variable(first: First, variable: Option<&GlobalVar>) -> First
    ensures { result.fault ≡ first_of first.fault (variable_faults (option_copied variable.entry)) }
{
    match variable {
        None => first,
        Some(variable) => first.seeing(true, 12, variable.name.place),
    }
}

fn seeing_function(first: First, function: Option<&TypedFunction>) -> First
    ensures { result.fault ≡ first_of first.fault (function_faults (option_map function_of (option_copied function.entry))) }
{
    match function {
        None => first,
        Some(function) => first.seeing(true, 13, function.name.place),
    }
}

fn seeing_local(first: First, local: Option<&Local>) -> First
    ensures { result.fault ≡ first_of first.fault (local_faults (option_copied local.entry)) }
{
    match local {
        None => first,
        Some(local) => first.seeing(true, 14, local.name.place),
    }
}

// With the faults of the locals of functions.
#[tactic(auto, using(crate::proofs::FaultParts::mapped_more))]
fn seeing_function_locals(first: First, functions: &[TypedFunction]) -> First
    ensures { result.fault ≡ first_of first.fault (flat_map function_local_faults (map function_of functions.now)) }
{
    let mut first = first;
    for function in functions {
        first = seeing_local(first, function.locals.get(32));
    }
    first
}

// With the faults of the locals of bodies of tasks and routines.
#[tactic(auto, using(crate::proofs::FaultParts::mapped_more))]
fn seeing_entity_locals(first: First, entities: &[TypedEntity]) -> First
    ensures { result.fault ≡ first_of first.fault (flat_map entity_local_faults (map entity_of entities.now)) }
{
    let mut first = first;
    for entity in entities {
        first = seeing_local(first, entity.locals.get(32));
    }
    first
}

/// With the faults of what is too many.
#[tactic(auto, using(c_rules::proofs::Firsts::first_of_append), unfolding(crate::specs::Rules::size_faults))]
pub fn seeing_sizes(first: First, unit: &TypedUnit) -> First
    ensures { result.fault ≡ first_of first.fault (size_faults (unit_of unit.now)) }
{
    let first = seeing_variable(first, unit.globals.get(256));
    let first = seeing_function(first, unit.functions.get(64));
    let first = seeing_function_locals(first, unit.functions.as_slice());
    seeing_entity_locals(first, unit.entities.as_slice())
}
