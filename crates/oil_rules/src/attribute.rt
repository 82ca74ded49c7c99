// The rules on an attribute.
ghost use Rattle.std.specs.Prelude.{◌≡◌, Option, codes};
ghost use Rattle.std.specs.Option.{option_copied};
ghost use Rattle.std.specs.List.{flat_map, list_any};
ghost use Rattle.oil_tree.specs.Listed.{listed};
ghost use Rattle.oil_rules.specs.First.{first_of};
ghost use Rattle.oil_rules.specs.Rules.{is_first_category, is_out_of_range, value_faults, names_resource, is_no_resource, names_internal, is_second_internal, is_internal_of_routine, is_forbidden_scheduler, resource_faults, is_mode_attribute, mode_faults, starts, start_faults, attribute_faults};

use crate::first::First;
use crate::group::role_in;
use crate::kind::{Kind, is_scheduler, same};
use crate::known::Known;
use crate::role::Role;
use crate::value::{has_form, is_between, is_integer, is_name, is_word};
use chk_base::text::Text;
use oil_tree::tree::{Attribute, Value};

#[tactic(auto, unfolding(crate::specs::Rules::is_out_of_range))]
fn is_out_of_range(kind: Kind, role: Role, value: &Value) -> bool
    ensures { result ≡ is_out_of_range kind role value.now }
{
    match role {
        Role::Priority => {
            is_integer(value)
                && !(if kind.is_task() {
                    is_between(0, 63, value)
                } else {
                    is_between(1, 16, value)
                })
        }
        Role::Activation => is_integer(value) && !is_between(1, 8, value),
        Role::Category => is_integer(value) && !is_between(1, 2, value),
        _ => false,
    }
}

#[tactic(auto, using(crate::proofs::Firsts::first_of_append), unfolding(crate::specs::Rules::value_faults))]
fn seeing_value(first: First, kind: Kind, role: Role, attribute: &Attribute) -> First
    ensures { result.fault ≡ first_of first.fault (value_faults kind role attribute.now) }
{
    let name = attribute.name.place;
    let value = &attribute.value;
    first
        .seeing(role.is(Role::Event), 2, name)
        .seeing(role.is(Role::Message), 4, name)
        .seeing(role.is_hook() && is_word(value, b"TRUE"), 7, value.place)
        .seeing(
            role.is(Role::Category) && is_between(1, 1, value),
            8,
            value.place,
        )
        .seeing(
            role.is(Role::ResourceProperty) && is_word(value, b"LINKED"),
            9,
            value.place,
        )
        .seeing(!has_form(role, value), 13, value.place)
        .seeing(is_out_of_range(kind, role, value), 14, value.place)
}

/// Whether a resource is named. It takes no memory.
pub fn names_resource(role: Role, value: &Value) -> bool
    ensures { result ≡ names_resource role value.now }
{
    role.is(Role::Resource) && is_name(value)
}

/// Whether an internal resource is named. It takes no memory.
pub fn names_internal(known: &Known<'_>, role: Role, value: &Value) -> bool
    ensures { result ≡ names_internal known.now role value.now }
{
    names_resource(role, value) && known.internals.has(value.text.as_bytes())
}

fn is_no_resource(known: &Known<'_>, role: Role, value: &Value) -> bool
    ensures { result ≡ is_no_resource known.now role value.now }
{
    let name = value.text.as_bytes();
    names_resource(role, value) && !known.resources.has(name) && !is_scheduler(name)
}

fn is_second_internal(
    known: &Known<'_>,
    kind: Kind,
    internal: Option<&Text>,
    role: Role,
    value: &Value,
) -> bool
    ensures { result ≡ is_second_internal known.now kind (option_copied internal.entry) role value.now }
{
    match internal {
        None => false,
        Some(internal) => {
            kind.is_task()
                && names_internal(known, role, value)
                && !same(value.text.as_bytes(), internal.as_bytes())
        }
    }
}

fn is_internal_of_routine(known: &Known<'_>, kind: Kind, role: Role, value: &Value) -> bool
    ensures { result ≡ is_internal_of_routine known.now kind role value.now }
{
    kind.is_routine() && names_internal(known, role, value)
}

fn is_forbidden_scheduler(known: &Known<'_>, kind: Kind, role: Role, value: &Value) -> bool
    ensures { result ≡ is_forbidden_scheduler known.now kind role value.now }
{
    names_resource(role, value)
        && is_scheduler(value.text.as_bytes())
        && (kind.is_routine() || known.no_scheduler)
}

#[tactic(auto, using(crate::proofs::Firsts::first_of_append), unfolding(crate::specs::Rules::resource_faults))]
fn seeing_resource(
    first: First,
    known: &Known<'_>,
    kind: Kind,
    internal: Option<&Text>,
    role: Role,
    value: &Value,
) -> First
    ensures { result.fault ≡ first_of first.fault (resource_faults known.now kind (option_copied internal.entry) role value.now) }
{
    first
        .seeing(is_no_resource(known, role, value), 15, value.place)
        .seeing(
            is_second_internal(known, kind, internal, role, value),
            20,
            value.place,
        )
        .seeing(
            is_internal_of_routine(known, kind, role, value),
            21,
            value.place,
        )
        .seeing(
            is_forbidden_scheduler(known, kind, role, value),
            22,
            value.place,
        )
}

/// Whether it names a mode inside AUTOSTART. It takes no memory.
#[tactic(auto, unfolding(crate::specs::Rules::is_mode_attribute))]
pub fn is_mode_attribute(attribute: &Attribute) -> bool
    ensures { result ≡ is_mode_attribute attribute.now }
{
    same(attribute.name.text.as_bytes(), b"APPMODE")
}

#[tactic(auto, using(crate::proofs::Firsts::first_of_append), unfolding(crate::specs::Rules::mode_faults))]
fn seeing_mode(first: First, known: &Known<'_>, attribute: &Attribute) -> First
    ensures { result.fault ≡ first_of first.fault (mode_faults known.now attribute.now) }
{
    let value = &attribute.value;
    let is_mode = is_mode_attribute(attribute);
    let is_named = is_name(value);
    let is_none = is_named && !known.modes.has(value.text.as_bytes());
    first
        .seeing(is_mode && !is_named, 13, value.place)
        .seeing(is_mode && is_none, 16, value.place)
}

#[tactic(auto, using(crate::proofs::Firsts::first_of_more))]
fn seeing_modes(first: First, known: &Known<'_>, attributes: &[Attribute]) -> First
    ensures { result.fault ≡ first_of first.fault (flat_map (mode_faults known.now) attributes.now) }
{
    let mut first = first;
    for attribute in attributes {
        first = seeing_mode(first, known, attribute);
    }
    first
}

fn has_mode(attributes: &[Attribute]) -> bool
    ensures { result ≡ list_any is_mode_attribute attributes.now }
{
    attributes.iter().any(|a| is_mode_attribute(a))
}

/// Whether the attribute starts its task. It takes no memory.
pub fn starts(role: Role, value: &Value) -> bool
    ensures { result ≡ starts role value.now }
{
    role.is(Role::Autostart) && is_word(value, b"TRUE")
}

#[tactic(auto, using(crate::proofs::Firsts::first_of_append), unfolding(crate::specs::Rules::start_faults))]
fn seeing_start(first: First, known: &Known<'_>, role: Role, attribute: &Attribute) -> First
    ensures { result.fault ≡ first_of first.fault (start_faults known.now role attribute.now) }
{
    if starts(role, &attribute.value) {
        let nested = attribute.nested.items();
        let first = first.seeing(!has_mode(nested), 17, attribute.value.place);
        seeing_modes(first, known, nested)
    } else {
        first
    }
}

#[tactic(auto, using(crate::proofs::Firsts::first_of_append), unfolding(crate::specs::Rules::attribute_faults))]
fn seeing_attribute(
    first: First,
    known: &Known<'_>,
    kind: Kind,
    internal: Option<&Text>,
    attribute: &Attribute,
) -> First
    ensures { result.fault ≡ first_of first.fault (attribute_faults known.now kind (option_copied internal.entry) attribute.now) }
{
    let role = role_in(kind, attribute);
    let first = seeing_value(first, kind, role, attribute);
    let first = seeing_resource(first, known, kind, internal, role, &attribute.value);
    seeing_start(first, known, role, attribute)
}

// With the faults of the attributes directly in an object.
#[tactic(auto, using(crate::proofs::Firsts::first_of_more))]
pub(crate) fn seeing_attributes(
    first: First,
    known: &Known<'_>,
    kind: Kind,
    internal: Option<&Text>,
    attributes: &[Attribute],
) -> First
    ensures { result.fault ≡ first_of first.fault (flat_map (attribute_faults known.now kind (option_copied internal.entry)) attributes.now) }
{
    let mut first = first;
    for attribute in attributes {
        first = seeing_attribute(first, known, kind, internal, attribute);
    }
    first
}
