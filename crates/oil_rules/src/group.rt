// Groups of objects, and their names.
ghost use Rattle.std.specs.Prelude.{◌≡◌, IfOk, None, Some, drop, codes, [], ◌∷◌};
ghost use Rattle.std.specs.Option.{option_copied};
ghost use Rattle.std.specs.List.{list_any};
ghost use Rattle.oil_tree.specs.Listed.{listed};
ghost use Rattle.oil_rules.specs.Kinds.{kind_of};
ghost use Rattle.oil_rules.specs.Names.{distinct, repeats};
ghost use Rattle.oil_rules.specs.Objects.{role_in, sets, has_set, has_attribute, is_resource, is_in, name_in, names_in, texts_in, lacks_scheduler};
ghost use Rattle.oil_rules.specs.First.{first_of};
ghost use Rattle.oil_rules.specs.Rules.{at_names};

use crate::first::First;
use crate::kind::{Kind, is_scheduler, kind_of};
use crate::names::Names;
use crate::role::{Role, role_of};
use crate::value::is_word;
use chk_base::text::Name;
use oil_tree::tree::{Attribute, Item};
use std::alloc::{AllocError, Global};

/// Which objects are asked for: resources but RES_SCHEDULER, the internal ones among them, tasks and routines, all of those that share one
/// space of names, modes, systems.
#[derive(Clone, Copy, PartialEq, Eq, Debug)]
pub enum Group {
    Resources,
    Internals,
    Entities,
    Named,
    Modes,
    Systems,
}

/// What an attribute sets in an object of this kind. It takes no memory.
pub fn role_in(kind: Kind, attribute: &Attribute) -> Role
    ensures { result ≡ role_in kind attribute.now }
{
    role_of(kind, attribute.name.text.as_bytes())
}

fn sets(kind: Kind, role: Role, word: &[u8], attribute: &Attribute) -> bool
    ensures { result ≡ sets kind role word.now attribute.now }
{
    role_in(kind, attribute).is(role) && is_word(&attribute.value, word)
}

/// Whether some attribute directly in the object sets this word. It takes no memory.
pub fn has_set(kind: Kind, role: Role, word: &[u8], attributes: &[Attribute]) -> bool
    ensures { result ≡ has_set kind role word.now attributes.now }
{
    attributes.iter().any(|a| sets(kind, role, word, a))
}

/// Whether some attribute directly in the object has this role. It takes no memory.
pub fn has_attribute(kind: Kind, role: Role, attributes: &[Attribute]) -> bool
    ensures { result ≡ has_attribute kind role attributes.now }
{
    attributes.iter().any(|a| role_in(kind, a).is(role))
}

/// Whether it is a resource but RES_SCHEDULER. It takes no memory.
pub fn is_resource(kind: Kind, name: &[u8]) -> bool
    ensures { result ≡ is_resource kind name.now }
{
    kind.is_resource() && !is_scheduler(name)
}

#[tactic(auto, unfolding(crate::specs::Objects::is_in))]
fn is_in(group: Group, kind: Kind, name: &[u8], attributes: &[Attribute]) -> bool
    ensures { result ≡ is_in group kind name.now attributes.now }
{
    match group {
        Group::Resources => is_resource(kind, name),
        Group::Internals => {
            is_resource(kind, name)
                && has_set(kind, Role::ResourceProperty, b"INTERNAL", attributes)
        }
        Group::Entities => kind.is_task() || kind.is_routine(),
        Group::Named => kind.is_task() || kind.is_routine() || is_resource(kind, name),
        Group::Modes => kind.is_mode(),
        Group::Systems => kind.is_system(),
    }
}

/// The name of the item, where it is an object of the group. It takes no memory.
pub fn name_in(group: Group, item: &Item) -> Option<&Name>
    ensures none { result ≡ None → name_in group item.now ≡ [] }
    ensures some { (name : _) → result ≡ Some name → name_in group item.now ≡ name.now ∷ [] }
{
    match item {
        Item::Object {
            kind,
            name,
            attributes,
        } => {
            if is_in(
                group,
                kind_of(kind.text.as_bytes()),
                name.text.as_bytes(),
                attributes.items(),
            ) {
                Some(name)
            } else {
                None
            }
        }
        Item::Include(_) => None,
    }
}

/// The names of the objects of a group, each once, in the order of the text.
pub fn distinct_names<'a>(
    alloc: Global,
    group: Group,
    items: &'a [Item],
) -> Result<Names<'a>, AllocError>
    ensures { IfOk result (λ names. names ≡ distinct (texts_in group items.now)) }
{
    let mut names = Names::new(alloc);
    for item in items {
        if let Some(name) = name_in(group, item) {
            names.add(name.text.as_bytes())?;
        }
    }
    Ok(names)
}

fn lacks_scheduler(item: &Item) -> bool
    ensures { result ≡ lacks_scheduler item.now }
{
    match item {
        Item::Object {
            kind,
            name: _,
            attributes,
        } => {
            let kind = kind_of(kind.text.as_bytes());
            kind.is_system() && has_set(kind, Role::UseResScheduler, b"FALSE", attributes.items())
        }
        Item::Include(_) => false,
    }
}

/// Whether USERESSCHEDULER is FALSE. It takes no memory.
pub(crate) fn some_lacks_scheduler(items: &[Item]) -> bool
    ensures { result ≡ list_any lacks_scheduler items.now }
{
    items.iter().any(|item| lacks_scheduler(item))
}

// With the faults of a rule at the names of the group that are taken.
pub(crate) fn seeing_repeats(
    alloc: Global,
    first: First,
    rule: u8,
    group: Group,
    items: &[Item],
) -> Result<First, AllocError>
    ensures { IfOk result (λ f. f.fault ≡ first_of first.fault (at_names rule (repeats [] (names_in group items.now)))) }
{
    let mut first = first;
    let mut names = Names::new(alloc);
    for item in items {
        if let Some(name) = name_in(group, item) {
            let is_new = names.add(name.text.as_bytes())?;
            first = first.seeing(!is_new, rule, name.place);
        }
    }
    Ok(first)
}

// With the faults of a rule at the names of the group beyond the first `limit`.
#[tactic(auto, using(crate::proofs::Firsts::beyond_more))]
pub(crate) fn seeing_beyond(
    first: First,
    rule: u8,
    limit: usize,
    group: Group,
    items: &[Item],
) -> First
    ensures { result.fault ≡ first_of first.fault (at_names rule (drop limit (names_in group items.now))) }
{
    let mut first = first;
    let mut left = limit;
    for item in items {
        if let Some(name) = name_in(group, item) {
            first = first.seeing(left == 0, rule, name.place);
            left = left.saturating_sub(1);
        }
    }
    first
}
