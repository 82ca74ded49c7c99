// The cells of a unit with their names.
ghost use Rattle.std.specs.Prelude.{◌≡◌, ◌+◌, ◌++◌, [], ◌∷◌, OnOk, IfOk, None, map, slice_get};
ghost use Rattle.typed_unit.specs.Views.{unit_of};
ghost use Rattle.lower_law.specs.Layout.{or_none, element_names, variable_names, global_names, local_names, called_names, value_names, function_names};
ghost use Rattle.unit_counts.specs.Cells.{locals_or_none, things_or_none, names_in};
ghost use Rattle.unit_counts.specs.Tallies.{function_size};

use crate::tally::BodySize;
use crate::things::ThingSize;
use chk_base::text::Text;
use chk_base::word::Width;
use std::alloc::{AllocError, Global};
use step_ir::code::{CellName, CellNames};
use typed_unit::typed::{GlobalVar, Local, TypedUnit};

// The value of a start list, and 0 behind its end.
fn start_at(g: &GlobalVar, at: usize) -> u32
    ensures { result ≡ or_none (slice_get g.now.start at) }
{
    match g.start.get(at) {
        None => 0,
        Some(n) => *n,
    }
}

// Puts a cell of a variable at the end.
fn push_element(
    alloc: Global,
    names: &mut CellNames,
    g: &GlobalVar,
    element: Option<u8>,
    at: usize,
) -> Result<(), AllocError>
    ensures { OnOk result (names.new ≡ names.old ++ record { text = g.now.name.text; element = element; width = g.now.ctype.width; signed = g.now.ctype.signed; start = or_none (slice_get g.now.start at) } ∷ []) }
{
    let text = g.name.text.copy(alloc)?;
    names.push(CellName {
        text,
        element,
        width: g.ctype.width,
        signed: g.ctype.signed,
        start: start_at(g, at),
    })
}

// Puts the cells of an array of this length at the end.
#[tactic(auto, using(crate::proofs::NameParts::element_more, crate::proofs::NameParts::no_element))]
fn push_elements(
    alloc: Global,
    names: &mut CellNames,
    g: &GlobalVar,
    len: u8,
) -> Result<(), AllocError>
    ensures { OnOk result (names.new ≡ names.old ++ element_names g.now 0 len) }
{
    for at in 0..len {
        push_element(alloc, names, g, Some(at), at as usize)?;
    }
    Ok(())
}

// Puts the cells of a variable at the end.
fn push_variable(alloc: Global, names: &mut CellNames, g: &GlobalVar) -> Result<(), AllocError>
    ensures { OnOk result (names.new ≡ names.old ++ variable_names g.now g.now.len) }
{
    match g.len {
        None => push_element(alloc, names, g, None, 0),
        Some(len) => push_elements(alloc, names, g, len),
    }
}

/// The cells of all variables.
#[tactic(auto, using(crate::proofs::NameParts::variable_more))]
pub fn global_names(alloc: Global, globals: &[GlobalVar]) -> Result<CellNames, AllocError>
    ensures { IfOk result (λ names. names ≡ global_names globals.now) }
{
    let mut names = CellNames::new(alloc);
    for g in globals {
        push_variable(alloc, &mut names, g)?;
    }
    Ok(names)
}

fn push_local(alloc: Global, names: &mut CellNames, l: &Local) -> Result<(), AllocError>
    ensures { OnOk result (names.new ≡ names.old ++ record { text = l.now.name.text; element = None; width = l.now.ctype.width; signed = l.now.ctype.signed; start = 0 } ∷ []) }
{
    let text = l.name.text.copy(alloc)?;
    names.push(CellName {
        text,
        element: None,
        width: l.ctype.width,
        signed: l.ctype.signed,
        start: 0,
    })
}

// Puts the cells of locals at the end.
#[tactic(auto, using(crate::proofs::NameParts::local_more))]
pub(crate) fn push_locals(
    alloc: Global,
    names: &mut CellNames,
    locals: &[Local],
) -> Result<(), AllocError>
    ensures { OnOk result (names.new ≡ names.old ++ local_names locals.now) }
{
    for l in locals {
        push_local(alloc, names, l)?;
    }
    Ok(())
}

// Puts a cell for a value read at the end.
fn push_value(alloc: Global, names: &mut CellNames) -> Result<(), AllocError>
    ensures { OnOk result (names.new ≡ names.old ++ value_names 1) }
{
    names.push(CellName {
        text: Text::new(alloc),
        element: None,
        width: Width::W32,
        signed: false,
        start: 0,
    })
}

// Puts the cells for values read at the end.
#[tactic(auto, using(crate::proofs::NameParts::value_more))]
pub(crate) fn push_values(
    alloc: Global,
    names: &mut CellNames,
    reads: u64,
) -> Result<(), AllocError>
    ensures { OnOk result (names.new ≡ names.old ++ value_names reads) }
{
    for _value in 0..reads {
        push_value(alloc, names)?;
    }
    Ok(())
}

// The locals of a function.
fn locals_of(unit: &TypedUnit, f: usize) -> &[Local]
    ensures { result.now ≡ locals_or_none (slice_get unit.now.functions f) }
{
    match unit.functions.get(f) {
        None => &[],
        Some(function) => function.locals.as_slice(),
    }
}

// The things of a function.
fn things_in(sizes: &[BodySize], f: usize) -> &[ThingSize]
    ensures { result.now ≡ things_or_none (slice_get sizes.now f) }
{
    match sizes.get(f) {
        None => &[],
        Some(size) => size.things.as_slice(),
    }
}

// Puts the cells of a call at the end, where calls nest less than so deep.
#[cycle(calls)]
#[tactic(auto, using(crate::proofs::NameParts::function_cells))]
fn push_function(
    alloc: Global,
    names: &mut CellNames,
    unit: &TypedUnit,
    sizes: &[BodySize],
    depth: u8,
    f: usize,
) -> Result<(), AllocError>
    requires { sizes.now ≡ map function_size unit.now.functions }
    ensures { OnOk result (names.new ≡ names.old ++ function_names (unit_of unit.now) depth f) }
{
    if depth == 0 {
        return Ok(());
    }
    push_locals(alloc, names, locals_of(unit, f))?;
    push_calls(alloc, names, unit, sizes, depth - 1, things_in(sizes, f))
}

// Puts the cells of a call, if there is one.
#[cycle(calls)]
fn push_called(
    alloc: Global,
    names: &mut CellNames,
    unit: &TypedUnit,
    sizes: &[BodySize],
    depth: u8,
    function: Option<usize>,
) -> Result<(), AllocError>
    requires { sizes.now ≡ map function_size unit.now.functions }
    ensures { OnOk result (names.new ≡ names.old ++ called_names (function_names (unit_of unit.now) depth) function) }
{
    match function {
        None => Ok(()),
        Some(f) => push_function(alloc, names, unit, sizes, depth, f),
    }
}

// Puts the cells of the calls in things at the end.
#[cycle(calls)]
#[tactic(auto, using(crate::proofs::NameParts::call_more))]
pub(crate) fn push_calls(
    alloc: Global,
    names: &mut CellNames,
    unit: &TypedUnit,
    sizes: &[BodySize],
    depth: u8,
    things: &[ThingSize],
) -> Result<(), AllocError>
    requires { sizes.now ≡ map function_size unit.now.functions }
    ensures { OnOk result (names.new ≡ names.old ++ names_in (function_names (unit_of unit.now) depth) things.now) }
{
    for thing in things {
        push_called(alloc, names, unit, sizes, depth, thing.calls)?;
    }
    Ok(())
}
