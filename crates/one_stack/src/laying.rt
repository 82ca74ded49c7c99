// The layout of an application's program.
ghost use Rattle.std.specs.Prelude.{◌≡◌, ◌+◌, ◌*◌, ◌≤◌, ◌==◌, if◌then◌else◌, IfOk, length, map};
ghost use Rattle.application.specs.InOrder.{IsInOrder};
ghost use Rattle.one_stack.specs.Built.{sum_below, table};
ghost use Rattle.one_stack.specs.Laid.{IsLaid, counts_of, tables_for};
ghost use Rattle.step_ir.specs.Fits.{Fits, point_count};
ghost use Rattle.step_ir.specs.Points.{cells_of};
ghost use Rattle.step_ir.specs.Setting.{setting_of};

use crate::layout::Layout;
use crate::levels::{level_at, level_count, limit_at};
use crate::widths::code_widths;
use application::app::App;
use std::alloc::{AllocError, Global};
use step_ir::code::Code;
use step_ir::law::{cells_within, sound_levels};

// How many requests a task may have.
fn limit_of(app: &App, t: u8) -> u8
    requires { IsInOrder app.now }
    ensures count { result ≡ (setting_of app.now).limit t }
    ensures few { result ≤ 8 }
{
    limit_at(app, t)
}

// The same, where it is of this level.
fn limit_in(app: &App, l: u8, t: u8) -> u8
    requires { IsInOrder app.now }
    ensures count { result ≡ (if (setting_of app.now).level t == l then (setting_of app.now).limit t else 0) }
    ensures few { result ≤ 8 }
{
    if level_at(app, t) == l {
        limit_of(app, t)
    } else {
        0
    }
}

// How many requests the tasks of a level may have.
fn room_at(app: &App, entities: u8, l: u8) -> u8
    requires order { IsInOrder app.now }
    requires few { entities ≤ 16 }
    ensures count { result ≡ sum_below entities (λ t. if (setting_of app.now).level t == l then (setting_of app.now).limit t else 0) }
    ensures few { result ≤ 8 * entities }
{
    let mut sum = 0;
    for t in 0..entities {
        sum += limit_in(app, l, t);
    }
    sum
}

// The places of all levels.
fn rooms_of(alloc: Global, app: &App, entities: u8) -> Result<Vec<u8>, AllocError>
    requires order { IsInOrder app.now }
    requires few { entities ≤ 16 }
    ensures { IfOk result (λ rooms. rooms.items ≡ table ((setting_of app.now).top + 1) (λ l. sum_below entities (λ t. if (setting_of app.now).level t == l then (setting_of app.now).limit t else 0))) }
{
    let mut rooms = Vec::new(alloc);
    for l in 0..level_count() {
        rooms.push(room_at(app, entities, l))?;
    }
    Ok(rooms)
}

// The points of each entity.
fn counts_of(alloc: Global, code: &Code) -> Result<Vec<u16>, AllocError>
    requires { point_count code.now.entities ≤ 2048 }
    ensures { IfOk result (λ counts. counts.items ≡ counts_of code.now.entities) }
{
    let mut counts = Vec::new(alloc);
    let entities = code.entities.items();
    for entity in entities {
        counts.push(entity.points.len() as u16)?;
    }
    Ok(counts)
}

// The layout without the widths of slots.
fn bare<'a>(alloc: Global, app: &'a App, code: &Code) -> Result<Layout<'a>, AllocError>
    requires order { IsInOrder app.now }
    requires fits { Fits app.now code.now }
    ensures { IfOk result (λ layout. layout ≡ tables_for app.now code.now (map (λ n. n.width) (cells_of code.now))) }
{
    cells_within();
    sound_levels();
    let entities = app.tasks.len() as u8 + app.routines.len() as u8;
    let widths = code_widths(alloc, code)?;
    let rooms = rooms_of(alloc, app, entities)?;
    let counts = counts_of(alloc, code)?;
    Ok(Layout {
        app,
        cells: widths.len() as u16,
        entities,
        resources: app.resources.len() as u8 + 1,
        rooms,
        counts,
        widths,
    })
}

/// The layout of an application's program.
pub fn layout_of<'a>(alloc: Global, app: &'a App, code: &Code) -> Result<Layout<'a>, AllocError>
    requires order { IsInOrder app.now }
    requires fits { Fits app.now code.now }
    ensures { IfOk result (IsLaid app.now code.now) }
{
    sound_levels();
    let mut layout = bare(alloc, app, code)?;
    layout.put_slot_widths()?;
    Ok(layout)
}
