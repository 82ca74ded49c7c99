// The rules on an object, and on what stands in the CPU section.
ghost use Rattle.std.specs.Prelude.{◌≡◌, IfOk, [], codes};
ghost use Rattle.std.specs.Option.{option_copied};
ghost use Rattle.std.specs.List.{flat_map};
ghost use Rattle.oil_rules.specs.Kinds.{kind_of};
ghost use Rattle.oil_rules.specs.Names.{repeats};
ghost use Rattle.oil_rules.specs.First.{first_of};
ghost use Rattle.oil_rules.specs.Rules.{is_unknown, is_event, is_alarm, is_message, is_communication, kind_faults, has_second_category, lacks_attribute, internal_of, single_names, at_names, object_faults, item_faults, is_passed_over};

use crate::attribute::{names_internal, seeing_attributes};
use crate::first::First;
use crate::group::{has_attribute, role_in};
use crate::kind::{Kind, is_scheduler, kind_of};
use crate::known::Known;
use crate::names::Names;
use crate::role::Role;
use crate::value::is_between;
use chk_base::place::Place;
use chk_base::text::{Name, Text};
use oil_tree::tree::{Attribute, Item};
use std::alloc::{AllocError, Global};

impl Kind {
    fn is_unknown(self) -> bool
        ensures { result ≡ is_unknown self }
    {
        match self {
            Kind::Unknown => true,
            _ => false,
        }
    }

    fn is_event(self) -> bool
        ensures { result ≡ is_event self }
    {
        match self {
            Kind::Event => true,
            _ => false,
        }
    }

    fn is_alarm(self) -> bool
        ensures { result ≡ is_alarm self }
    {
        match self {
            Kind::Alarm => true,
            _ => false,
        }
    }

    fn is_message(self) -> bool
        ensures { result ≡ is_message self }
    {
        match self {
            Kind::Message => true,
            _ => false,
        }
    }

    fn is_communication(self) -> bool
        ensures { result ≡ is_communication self }
    {
        match self {
            Kind::Com | Kind::Nm | Kind::NetworkMessage | Kind::Ipdu => true,
            _ => false,
        }
    }
}

#[tactic(auto, using(crate::proofs::Firsts::first_of_append), unfolding(crate::specs::Rules::kind_faults))]
fn seeing_kind(first: First, kind: Kind, place: Place) -> First
    ensures { result.fault ≡ first_of first.fault (kind_faults kind place) }
{
    first
        .seeing(kind.is_unknown(), 1, place)
        .seeing(kind.is_event(), 2, place)
        .seeing(kind.is_alarm(), 3, place)
        .seeing(kind.is_message(), 4, place)
        .seeing(kind.is_communication(), 5, place)
}

/// The first internal resource that an object names. It takes no memory.
pub fn internal_of<'a>(
    known: &Known<'_>,
    kind: Kind,
    attributes: &'a [Attribute],
) -> Option<&'a Text>
    ensures { option_copied result ≡ internal_of known.now kind attributes.now }
{
    match attributes
        .iter()
        .find(|a| names_internal(known, role_in(kind, a), &a.value))
    {
        Some(attribute) => Some(&attribute.value.text),
        None => None,
    }
}

fn has_second_category(kind: Kind, attributes: &[Attribute]) -> bool
    ensures { result ≡ has_second_category kind attributes.now }
{
    attributes.iter().any(|a| role_in(kind, a).is(Role::Category) && is_between(2, 2, &a.value))
}

#[tactic(auto, unfolding(crate::specs::Rules::lacks_attribute))]
fn lacks_attribute(kind: Kind, attributes: &[Attribute]) -> bool
    ensures { result ≡ lacks_attribute kind attributes.now }
{
    match kind {
        Kind::Task => {
            !has_attribute(Kind::Task, Role::Priority, attributes)
                || !has_attribute(Kind::Task, Role::Schedule, attributes)
                || !has_attribute(Kind::Task, Role::Activation, attributes)
                || !has_attribute(Kind::Task, Role::Autostart, attributes)
        }
        Kind::Isr => {
            !has_attribute(Kind::Isr, Role::Category, attributes)
                || (has_second_category(Kind::Isr, attributes)
                    && !has_attribute(Kind::Isr, Role::Priority, attributes))
        }
        Kind::Resource => !has_attribute(Kind::Resource, Role::ResourceProperty, attributes),
        _ => false,
    }
}

// With a fault at each attribute that stands there already and may stand only once.
#[tactic(auto, using(crate::proofs::Firsts::repeats_more))]
fn seeing_twice(
    alloc: Global,
    first: First,
    kind: Kind,
    attributes: &[Attribute],
) -> Result<First, AllocError>
    ensures { IfOk result (λ f. f.fault ≡ first_of first.fault (at_names 11 (repeats [] (single_names kind attributes.now)))) }
{
    let mut first = first;
    let mut names = Names::new(alloc);
    for attribute in attributes {
        if role_in(kind, attribute).is_single() {
            let is_new = names.add(attribute.name.text.as_bytes())?;
            first = first.seeing(!is_new, 11, attribute.name.place);
        }
    }
    Ok(first)
}

#[tactic(auto, using(crate::proofs::Firsts::first_of_append), unfolding(crate::specs::Rules::object_faults))]
fn seeing_object(
    alloc: Global,
    first: First,
    known: &Known<'_>,
    kind: Kind,
    name: &Name,
    attributes: &[Attribute],
) -> Result<First, AllocError>
    ensures { IfOk result (λ f. f.fault ≡ first_of first.fault (object_faults known.now kind name.now attributes.now)) }
{
    let first = first.seeing(lacks_attribute(kind, attributes), 12, name.place);
    let internal = internal_of(known, kind, attributes);
    let first = seeing_attributes(first, known, kind, internal, attributes);
    let first = seeing_twice(alloc, first, kind, attributes)?;
    Ok(first)
}

/// Whether the object is passed over: a RESOURCE named RES_SCHEDULER. It takes no memory.
pub fn is_passed_over(kind: Kind, name: &[u8]) -> bool
    ensures { result ≡ is_passed_over kind name.now }
{
    kind.is_resource() && is_scheduler(name)
}

fn seeing_item(
    alloc: Global,
    first: First,
    known: &Known<'_>,
    item: &Item,
) -> Result<First, AllocError>
    ensures { IfOk result (λ f. f.fault ≡ first_of first.fault (item_faults known.now item.now)) }
{
    match item {
        Item::Include(place) => Ok(first.seeing(true, 6, *place)),
        Item::Object {
            kind,
            name,
            attributes,
        } => {
            let place = kind.place;
            let kind = kind_of(kind.text.as_bytes());
            if is_passed_over(kind, name.text.as_bytes()) {
                Ok(first)
            } else {
                let first = seeing_kind(first, kind, place);
                let first = seeing_object(alloc, first, known, kind, name, attributes.items())?;
                Ok(first)
            }
        }
    }
}

// With the faults of the items, one by one.
#[tactic(auto, using(crate::proofs::Firsts::first_of_more))]
pub(crate) fn seeing_items(
    alloc: Global,
    first: First,
    known: &Known<'_>,
    items: &[Item],
) -> Result<First, AllocError>
    ensures { IfOk result (λ f. f.fault ≡ first_of first.fault (flat_map (item_faults known.now) items.now)) }
{
    let mut first = first;
    for item in items {
        first = seeing_item(alloc, first, known, item)?;
    }
    Ok(first)
}
