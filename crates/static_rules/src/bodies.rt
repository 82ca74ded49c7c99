// The rules on which bodies there are.
ghost use Rattle.std.specs.Prelude.{◌≡◌, ◌+◌, IfOk, [], map};
ghost use Rattle.std.specs.List.{flat_map};
ghost use Rattle.typed_unit.specs.Views.{unit_of, entity_of};
ghost use Rattle.c_rules.specs.First.{first_of};
ghost use Rattle.static_rules.specs.Rules.{nameless_rule, nameless_faults, is_kind, repeat_faults, is_body_of, has_body, lacks_body, body_faults};

use application::app::App;
use c_rules::first::First;
use c_unit::unit::EntityKind;
use oil_rules::names::Names;
use std::alloc::{AllocError, Global};
use typed_unit::typed::{TypedEntity, TypedUnit};

fn nameless_rule(kind: EntityKind) -> u8
    ensures { result ≡ nameless_rule kind }
{
    match kind {
        EntityKind::Task => 1,
        EntityKind::Isr => 2,
    }
}

fn seeing_nameless(first: First, entity: &TypedEntity) -> First
    ensures { result.fault ≡ first_of first.fault (nameless_faults (entity_of entity.now)) }
{
    first.seeing(
        !entity.entity.is_some(),
        nameless_rule(entity.kind),
        entity.name.place,
    )
}

// With the faults of bodies whose names are no objects.
#[tactic(auto, using(crate::proofs::FaultParts::mapped_more))]
fn seeing_all_nameless(first: First, entities: &[TypedEntity]) -> First
    ensures { result.fault ≡ first_of first.fault (flat_map nameless_faults (map entity_of entities.now)) }
{
    let mut first = first;
    for entity in entities {
        first = seeing_nameless(first, entity);
    }
    first
}

fn is_kind(kind: EntityKind, other: EntityKind) -> bool
    ensures { result ≡ is_kind kind other }
{
    match (kind, other) {
        (EntityKind::Task, EntityKind::Task) => true,
        (EntityKind::Isr, EntityKind::Isr) => true,
        _ => false,
    }
}

// With the faults of bodies of a kind that have the name of an earlier one.
fn seeing_repeats(
    alloc: Global,
    first: First,
    kind: EntityKind,
    entities: &[TypedEntity],
) -> Result<First, AllocError>
    ensures { IfOk result (λ x. x.fault ≡ first_of first.fault (repeat_faults kind (map entity_of entities.now))) }
{
    let mut first = first;
    let mut names = Names::new(alloc);
    for entity in entities {
        if is_kind(kind, entity.kind) {
            let is_new = names.add(entity.name.text.as_bytes())?;
            first = first.seeing(!is_new, 3, entity.name.place);
        }
    }
    Ok(first)
}

fn is_body_of(from: usize, n: usize, entity: &TypedEntity) -> bool
    ensures { result ≡ is_body_of (from + n) (entity_of entity.now) }
{
    match entity.entity {
        None => false,
        Some(x) => {
            let number = x.0 as usize;
            number >= from && number - from == n
        }
    }
}

fn has_body(entities: &[TypedEntity], from: usize, n: usize) -> bool
    ensures { result ≡ has_body (map entity_of entities.now) (from + n) }
{
    let mut has = false;
    for entity in entities {
        has = has || is_body_of(from, n, entity);
    }
    has
}

fn lacks_body(entities: &[TypedEntity], from: usize, count: usize) -> bool
    ensures { result ≡ lacks_body (map entity_of entities.now) from count }
{
    let mut lacks = false;
    for n in 0..count {
        lacks = lacks || !has_body(entities, from, n);
    }
    lacks
}

/// With the faults of bodies that are too many or too few.
#[tactic(auto, using(c_rules::proofs::Firsts::first_of_append), unfolding(crate::specs::Rules::body_faults))]
pub fn seeing_bodies(
    alloc: Global,
    first: First,
    app: &App,
    unit: &TypedUnit,
) -> Result<First, AllocError>
    ensures { IfOk result (λ x. x.fault ≡ first_of first.fault (body_faults app.now (unit_of unit.now))) }
{
    let entities = unit.entities.as_slice();
    let tasks = app.tasks.len();
    let first = seeing_all_nameless(first, entities);
    let first = seeing_repeats(alloc, first, EntityKind::Task, entities)?;
    let first = seeing_repeats(alloc, first, EntityKind::Isr, entities)?;
    let first = first.seeing(lacks_body(entities, 0, tasks), 4, unit.end);
    let lacks_routine = lacks_body(entities, tasks, app.routines.len());
    Ok(first.seeing(lacks_routine, 5, unit.end))
}
