// What is passed over in an OIL text.
ghost use Rattle.std.specs.Prelude.{◌≡◌, IfOk, OnOk, [], ◌∷◌, ◌++◌, filter, not, nat_lt, codes, if◌then◌else◌};
ghost use Rattle.std.specs.List.{flat_map};
ghost use Rattle.oil_tree.specs.Listed.{listed};
ghost use Rattle.app_model.specs.Application.{note_if, is_counter, has_attributes, attribute_notes, object_notes, item_notes, include_notes, head_notes};

use application::app::{Note, Notes};
use chk_base::place::Place;
use oil_rules::group::role_in;
use oil_rules::kind::{Kind, kind_of};
use oil_rules::object::is_passed_over;
use oil_rules::role::Role;
use oil_rules::value::is_word;
use oil_tree::tree::{Attribute, Item, OilTree};
use std::alloc::{AllocError, Global};

fn note_if(notes: &mut Notes, noted: bool, number: u8, place: Place) -> Result<(), AllocError>
    ensures { OnOk result (notes.new ≡ notes.old ++ note_if noted number place) }
{
    if noted {
        notes.push(Note { number, place })
    } else {
        Ok(())
    }
}

fn is_counter(kind: Kind) -> bool
    ensures { result ≡ is_counter kind }
{
    match kind {
        Kind::Counter => true,
        _ => false,
    }
}

fn has_attributes(kind: Kind) -> bool
    ensures { result ≡ has_attributes kind }
{
    match kind {
        Kind::Os | Kind::Task | Kind::Isr | Kind::Resource | Kind::Appmode => true,
        _ => false,
    }
}

#[tactic(auto, unfolding(crate::specs::Application::attribute_notes))]
fn note_attribute(notes: &mut Notes, kind: Kind, attribute: &Attribute) -> Result<(), AllocError>
    ensures { OnOk result (notes.new ≡ notes.old ++ attribute_notes kind attribute.now) }
{
    let role = role_in(kind, attribute);
    let value = &attribute.value;
    note_if(notes, role.is(Role::Vendor), 2, attribute.name.place)?;
    let is_standard = role.is(Role::Status) && is_word(value, b"STANDARD");
    note_if(notes, is_standard, 6, value.place)
}

fn note_attributes(
    notes: &mut Notes,
    kind: Kind,
    attributes: &[Attribute],
) -> Result<(), AllocError>
    ensures { OnOk result (notes.new ≡ notes.old ++ flat_map (attribute_notes kind) attributes.now) }
{
    for attribute in attributes {
        note_attribute(notes, kind, attribute)?;
    }
    Ok(())
}

#[tactic(auto, unfolding(crate::specs::Application::object_notes))]
fn note_object(
    notes: &mut Notes,
    kind: Kind,
    place: Place,
    name: &[u8],
    attributes: &[Attribute],
) -> Result<(), AllocError>
    ensures { OnOk result (notes.new ≡ notes.old ++ object_notes kind place name.now attributes.now) }
{
    note_if(notes, is_counter(kind), 1, place)?;
    note_if(notes, is_passed_over(kind, name), 5, place)?;
    if has_attributes(kind) {
        note_attributes(notes, kind, attributes)
    } else {
        Ok(())
    }
}

fn note_item(notes: &mut Notes, item: &Item) -> Result<(), AllocError>
    ensures { OnOk result (notes.new ≡ notes.old ++ item_notes item.now) }
{
    match item {
        Item::Object {
            kind,
            name,
            attributes,
        } => {
            let place = kind.place;
            let kind = kind_of(kind.text.as_bytes());
            note_object(notes, kind, place, name.text.as_bytes(), attributes.items())
        }
        Item::Include(_) => Ok(()),
    }
}

fn note_items(notes: &mut Notes, items: &[Item]) -> Result<(), AllocError>
    ensures { OnOk result (notes.new ≡ notes.old ++ flat_map item_notes items.now) }
{
    for item in items {
        note_item(notes, item)?;
    }
    Ok(())
}

fn note_includes(notes: &mut Notes, includes: &[Place]) -> Result<(), AllocError>
    ensures { OnOk result (notes.new ≡ notes.old ++ include_notes includes.now) }
{
    for place in includes {
        notes.push(Note {
            number: 3,
            place: *place,
        })?;
    }
    Ok(())
}

// Notes the includes that stand before this place, or those that don't.
fn note_side(
    notes: &mut Notes,
    includes: &[Place],
    offset: u32,
    before: bool,
) -> Result<(), AllocError>
    ensures { OnOk result (notes.new ≡ notes.old ++ include_notes (filter (λ p. if before then nat_lt p.offset offset else not (nat_lt p.offset offset)) includes.now)) }
{
    for place in includes {
        if (place.offset < offset) == before {
            notes.push(Note {
                number: 3,
                place: *place,
            })?;
        }
    }
    Ok(())
}

fn note_head(
    notes: &mut Notes,
    includes: &[Place],
    implementation: Option<Place>,
) -> Result<(), AllocError>
    ensures { OnOk result (notes.new ≡ notes.old ++ head_notes includes.now implementation) }
{
    match implementation {
        None => note_includes(notes, includes),
        Some(place) => {
            note_side(notes, includes, place.offset, true)?;
            notes.push(Note { number: 4, place })?;
            note_side(notes, includes, place.offset, false)
        }
    }
}

// The notes of a tree, in the order of the text.
pub(crate) fn notes_of(alloc: Global, tree: &OilTree) -> Result<Notes, AllocError>
    ensures { IfOk result (λ notes. notes ≡ head_notes tree.now.includes tree.now.implementation ++ flat_map item_notes tree.now.items) }
{
    let mut notes = Notes::new(alloc);
    note_head(&mut notes, tree.includes.items(), tree.implementation)?;
    note_items(&mut notes, tree.items.items())?;
    Ok(notes)
}
