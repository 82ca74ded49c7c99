// Names of entities, resources and cells.
ghost use Rattle.std.specs.Prelude.{◌≡◌, [], slice_get, unwrap_or, map, ◌++◌};
ghost use Rattle.std.specs.Option.{option_copied};
ghost use Rattle.report.specs.EventTexts.{call_text};
ghost use Rattle.report.specs.Lines.{entity_name, resource_name};
ghost use Rattle.report.specs.Printing.{Prints};
ghost use Rattle.step_ir.specs.Points.{cells_of, own_cells};

use crate::pieces::{Piece, put_all};
use crate::reports::WriteFault;
use application::app::{App, Entity};
use chk_base::sink::Sink;
use step_ir::code::{CellName, Code, EntityCode};

/// The name of the entity with this number; there is none without it.
pub fn entity_name(app: &App, entity: Entity) -> &[u8]
    ensures { result.now ≡ entity_name app.now entity.0 }
{
    let at = entity.0 as usize;
    if let Some(task) = app.tasks.get(at) {
        return task.name.as_bytes();
    }
    match app.routines.get(at - app.tasks.len()) {
        Some(routine) => routine.name.as_bytes(),
        None => b"",
    }
}

/// The name of the resource with this number.
pub fn resource_name(app: &App, resource: u8) -> &[u8]
    ensures { result.now ≡ resource_name app.now resource }
{
    match app.resources.get(resource as usize) {
        Some(resource) => resource.name.as_bytes(),
        None => b"RES_SCHEDULER",
    }
}

// The cell with this number among those of these entities.
fn own_name(entities: &[EntityCode], cell: usize) -> Option<&CellName>
    ensures { option_copied result ≡ slice_get (own_cells entities.now) cell }
{
    let (entity, others) = entities.split_first()?;
    if let Some(name) = entity.names.get(cell) {
        return Some(name);
    }
    own_name(others, cell - entity.names.len())
}

/// The cell with this number.
pub fn cell_name(code: &Code, cell: u16) -> Option<&CellName>
    ensures { option_copied result ≡ slice_get (cells_of code.now) cell }
{
    let cell = cell as usize;
    if let Some(name) = code.globals.get(cell) {
        return Some(name);
    }
    own_name(code.entities.items(), cell - code.globals.len())
}

// The name of the function with this number; there is none without it.
fn function_name(code: &Code, function: u16) -> &[u8]
    ensures { result.now ≡ unwrap_or (slice_get code.now.functions function) [] }
{
    match code.functions.get(function as usize) {
        Some(name) => name.as_bytes(),
        None => b"",
    }
}

/// Writes the call of a function.
pub fn put_call<S: Sink>(out: &mut S, code: &Code, function: u16) -> Result<(), WriteFault>
    ensures { Prints (S.state out.old) (S.state out.new) (call_text code.now function) result }
{
    put_all(
        out,
        &[
            Piece::Bytes(b"call "),
            Piece::Bytes(function_name(code, function)),
        ],
    )
}
