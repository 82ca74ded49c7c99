// What an object declares, by its attributes.
ghost use Rattle.std.specs.Prelude.{◌≡◌, ◌≤◌, IfOk, None, Some, OnOk, [], ◌∷◌, length, min, find};
ghost use Rattle.std.specs.Option.{option_copied};
ghost use Rattle.std.specs.List.{list_any};
ghost use Rattle.oil_tree.specs.Listed.{listed};
ghost use Rattle.oil_rules.specs.Roles.{is_role};
ghost use Rattle.oil_rules.specs.Objects.{role_in};
ghost use Rattle.app_model.specs.Application.{number_set, names_mode, starts_in, resource_number, names_standard, reference, with_number, declares, internal, chosen_mode};

use application::app::Numbers;
use application::levels::has_number;
use chk_base::text::Text;
use oil_rules::attribute::{is_mode_attribute, names_resource, starts};
use oil_rules::group::role_in;
use oil_rules::kind::{Kind, same};
use oil_rules::known::Known;
use oil_rules::object::internal_of;
use oil_rules::role::Role;
use oil_rules::value::capped_number;
use oil_tree::tree::Attribute;
use std::alloc::{AllocError, Global};

fn first_of_role(kind: Kind, role: Role, attributes: &[Attribute]) -> Option<&Attribute>
    ensures { option_copied result ≡ find (λ a. is_role (role_in kind a) role) attributes.now }
{
    attributes.iter().find(|a| role_in(kind, a).is(role))
}

// The number that the first attribute of this role sets, cut at 1000.
pub(crate) fn number_set(kind: Kind, role: Role, attributes: &[Attribute]) -> u32
    ensures { result ≡ min (number_set kind role attributes.now) 1000 }
{
    match first_of_role(kind, role, attributes) {
        Some(attribute) => capped_number(attribute.value.text.as_bytes()),
        None => 0,
    }
}

fn names_mode(mode: &[u8], attribute: &Attribute) -> bool
    ensures { result ≡ names_mode mode.now attribute.now }
{
    is_mode_attribute(attribute) && same(attribute.value.text.as_bytes(), mode)
}

fn has_mode(mode: &[u8], attributes: &[Attribute]) -> bool
    ensures { result ≡ list_any (names_mode mode.now) attributes.now }
{
    attributes.iter().any(|a| names_mode(mode, a))
}

fn starts_in(kind: Kind, mode: &[u8], attribute: &Attribute) -> bool
    ensures { result ≡ starts_in kind mode.now attribute.now }
{
    starts(role_in(kind, attribute), &attribute.value) && has_mode(mode, attribute.nested.items())
}

// The task starts in this mode.
pub(crate) fn is_started(kind: Kind, mode: &[u8], attributes: &[Attribute]) -> bool
    ensures { result ≡ list_any (starts_in kind mode.now) attributes.now }
{
    attributes.iter().any(|a| starts_in(kind, mode, a))
}

fn resource_number(known: &Known<'_>, name: &[u8]) -> u8
    requires { length known.now.resources ≤ 16 }
    ensures { result ≡ resource_number known.now name.now }
{
    match known.resources.number(name) {
        Some(number) => number as u8,
        None => known.resources.len() as u8,
    }
}

fn reference(known: &Known<'_>, kind: Kind, attribute: &Attribute) -> Option<u8>
    requires { length known.now.resources ≤ 16 }
    ensures none { result ≡ None → reference known.now kind attribute.now ≡ [] }
    ensures some { (n : _) → result ≡ Some n → reference known.now kind attribute.now ≡ n ∷ [] }
{
    let name = attribute.value.text.as_bytes();
    if names_resource(role_in(kind, attribute), &attribute.value) && !known.internals.has(name) {
        Some(resource_number(known, name))
    } else {
        None
    }
}

fn add_number(numbers: &mut Numbers, number: u8) -> Result<(), AllocError>
    ensures { OnOk result (numbers.new ≡ with_number numbers.old number) }
{
    if !has_number(numbers.items(), number) {
        numbers.push(number)?;
    }
    Ok(())
}

// The numbers of the standard resources that the object names.
#[tactic(auto, unfolding(crate::specs::Application::declares))]
pub(crate) fn declares(
    alloc: Global,
    known: &Known<'_>,
    kind: Kind,
    attributes: &[Attribute],
) -> Result<Numbers, AllocError>
    requires { length known.now.resources ≤ 16 }
    ensures { IfOk result (λ numbers. numbers ≡ declares known.now kind attributes.now) }
{
    let mut numbers = Numbers::new(alloc);
    for attribute in attributes {
        if let Some(number) = reference(known, kind, attribute) {
            add_number(&mut numbers, number)?;
        }
    }
    Ok(numbers)
}

// The number of the internal resource that the object names.
pub(crate) fn internal(known: &Known<'_>, kind: Kind, attributes: &[Attribute]) -> Option<u8>
    requires { length known.now.resources ≤ 16 }
    ensures { result ≡ internal known.now kind attributes.now }
{
    match internal_of(known, kind, attributes) {
        None => None,
        Some(name) => Some(resource_number(known, name.as_bytes())),
    }
}

// The mode that is asked for, and else the first one.
pub(crate) fn chosen_mode(
    alloc: Global,
    known: &Known<'_>,
    mode: Option<&Text>,
) -> Result<Text, AllocError>
    ensures { IfOk result (λ text. text ≡ chosen_mode known.now (option_copied mode.entry)) }
{
    match mode {
        Some(mode) => mode.copy(alloc),
        None => match known.modes.first() {
            Some(name) => Text::from_bytes(alloc, name),
            None => Ok(Text::new(alloc)),
        },
    }
}
