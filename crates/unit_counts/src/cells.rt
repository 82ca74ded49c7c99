// The cells of a unit, and where those of each variable and of each entity stand.
ghost use Rattle.std.specs.Prelude.{◌≡◌, ◌≤◌, ◌+◌, ◌++◌, IfOk, length, map};
ghost use Rattle.typed_unit.specs.Views.{entity_of, unit_of};
ghost use Rattle.lower_law.specs.Counts.{bit_total, call_depth, entity_reads, things_in};
ghost use Rattle.lower_law.specs.Layout.{body_names, call_names, cells_before, entity_names, function_names, global_names, layout, local_names};
ghost use Rattle.lower_law.specs.Translated.{cell_count, entity_body};
ghost use Rattle.unit_counts.specs.Cells.{cells_of_entity, entity_cells, global_cells};
ghost use Rattle.unit_counts.specs.Tallies.{function_size, tallies_to};

use crate::counts::{body_of, elements};
use crate::names::{global_names, push_calls, push_locals, push_values};
use crate::tally::{BodySize, Tally, entity_size, function_sizes, tallies, tally_of};
use sqlite_items::Items;
use std::alloc::{AllocError, Global};
use step_ir::code::CellNames;
use typed_unit::typed::{GlobalVar, TypedEntity, TypedUnit};

/// The cells of an entity: the first is the cell of its first local, or of what stands there where it has none, and those from `temp` on
/// are for values read.
#[derive(Drop)]
pub struct EntityCells {
    pub names: CellNames,
    pub first: u16,
    pub temp: u16,
}

/// The cells of the variables, the first cell of each of them, and the cells of the entities.
#[derive(Drop)]
pub struct UnitCells {
    pub globals: CellNames,
    pub bases: Items<u16>,
    pub entities: Items<EntityCells>,
}

// The cells of a body, and how many of them stand before those for values read.
#[derive(Drop)]
struct BodyCells {
    names: CellNames,
    before: usize,
}

// The first cell of each variable.
#[tactic(auto, using(crate::proofs::CellParts::cell_next, crate::proofs::CellParts::cell_within))]
fn first_cells(alloc: Global, globals: &[GlobalVar]) -> Result<Items<u16>, AllocError>
    requires { cell_count globals.now ≤ 8192 }
    ensures { IfOk result (λ cells. cells ≡ global_cells globals.now (length globals.now)) }
{
    let mut cells = Items::new(alloc);
    let mut at: u16 = 0;
    for i in 0..globals.len() {
        cells.push(at)?;
        at += elements(globals[i].len) as u16;
    }
    Ok(cells)
}

// The cells of a body.
fn body_cells(
    alloc: Global,
    unit: &TypedUnit,
    sizes: &[BodySize],
    calls: &[Tally],
    body: &TypedEntity,
) -> Result<BodyCells, AllocError>
    requires sizes { sizes.now ≡ map function_size unit.now.functions }
    requires calls { calls.now ≡ tallies_to sizes.now call_depth }
    requires few { entity_reads (unit_of unit.now) (entity_of body.now) ≤ 8192 }
    ensures names { IfOk result (λ cells. cells.names ≡ body_names (unit_of unit.now) (entity_of body.now)) }
    ensures before { IfOk result (λ cells. cells.before ≡ length (local_names body.now.locals ++ call_names (function_names (unit_of unit.now) call_depth) (things_in (entity_of body.now).body))) }
{
    let size = entity_size(alloc, body)?;
    let reads = tally_of(calls, &size).reads;
    let mut names = CellNames::new(alloc);
    push_locals(alloc, &mut names, body.locals.as_slice())?;
    push_calls(alloc, &mut names, unit, sizes, 16, size.things.as_slice())?;
    let before = names.len();
    push_values(alloc, &mut names, reads)?;
    Ok(BodyCells { names, before })
}

// The cells of the entity with this number, which stand from `first` on.
#[tactic(auto, using(crate::proofs::CellParts::no_cells, crate::proofs::CellParts::own_few))]
fn entity_cells(
    alloc: Global,
    unit: &TypedUnit,
    sizes: &[BodySize],
    calls: &[Tally],
    number: usize,
    first: u16,
) -> Result<EntityCells, AllocError>
    requires sizes { sizes.now ≡ map function_size unit.now.functions }
    requires calls { calls.now ≡ tallies_to sizes.now call_depth }
    requires first { first ≡ cells_before (unit_of unit.now) number }
    requires few { cells_before (unit_of unit.now) (number + 1) ≤ 8192 }
    ensures { IfOk result (λ cells. cells ≡ cells_of_entity (unit_of unit.now) number) }
{
    match body_of(unit, number) {
        None => Ok(EntityCells {
            names: CellNames::new(alloc),
            first,
            temp: first,
        }),
        Some(body) => {
            let BodyCells { names, before } = body_cells(alloc, unit, sizes, calls, body)?;
            Ok(EntityCells {
                names,
                first,
                temp: first + before as u16,
            })
        }
    }
}

// The cells of all entities, of which the first stands at `first`.
fn all_cells(
    alloc: Global,
    unit: &TypedUnit,
    sizes: &[BodySize],
    first: u16,
    entities: usize,
) -> Result<Items<EntityCells>, AllocError>
    requires sizes { sizes.now ≡ map function_size unit.now.functions }
    requires first { first ≡ cells_before (unit_of unit.now) 0 }
    requires few { bit_total (unit_of unit.now) entities ≤ 8192 }
    ensures { IfOk result (λ cells. cells ≡ entity_cells (unit_of unit.now) entities) }
{
    let calls = tallies(alloc, sizes)?;
    let mut cells = Items::new(alloc);
    let mut at = first;
    for number in 0..entities {
        let one = entity_cells(alloc, unit, sizes, calls.as_slice(), number, at)?;
        at += one.names.len() as u16;
        cells.push(one)?;
    }
    Ok(cells)
}

/// The cells of a unit in an application of so many entities, all of whose bits fit. Each call is expanded at its place, so see that the
/// points fit, too: then there are few.
pub fn cells_of(alloc: Global, unit: &TypedUnit, entities: usize) -> Result<UnitCells, AllocError>
    requires few { bit_total (unit_of unit.now) entities ≤ 8192 }
    ensures globals { IfOk result (λ cells. cells.globals ≡ global_names unit.now.globals) }
    ensures bases { IfOk result (λ cells. cells.bases ≡ global_cells unit.now.globals (length unit.now.globals)) }
    ensures entities { IfOk result (λ cells. cells.entities ≡ entity_cells (unit_of unit.now) entities) }
{
    let sizes = function_sizes(alloc, unit.functions.as_slice())?;
    let globals = global_names(alloc, unit.globals.as_slice())?;
    let bases = first_cells(alloc, unit.globals.as_slice())?;
    let first = globals.len() as u16;
    let entities = all_cells(alloc, unit, sizes.as_slice(), first, entities)?;
    Ok(UnitCells {
        globals,
        bases,
        entities,
    })
}
