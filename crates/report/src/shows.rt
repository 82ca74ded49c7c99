// The report of levels, ceilings, counts and notes.
ghost use Rattle.std.specs.Prelude.{◌≡◌, ◌≤◌, ◌+◌, ◌++◌, true, codes, decimal, length};
ghost use Rattle.application.specs.InOrder.{IsInOrder};
ghost use Rattle.application.specs.Levels.{highest_task_level};
ghost use Rattle.report.specs.Lines.{class_text, counted, each, line, place_text};
ghost use Rattle.report.specs.Printing.{Prints};
ghost use Rattle.report.specs.RunTexts.{points_text};
ghost use Rattle.report.specs.ShowTexts.{counts_text, entities_text, mode_line, note_text, points_at, resource_text, resource_word, resources_text, routine_line, scheduler_text, show_text, task_line, top_text};
ghost use Rattle.step_ir.specs.Fits.{Fits, point_count};

use crate::pieces::{Piece, class_line, put_all, put_count};
use crate::reports::WriteFault;
use crate::runs::put_points;
use application::app::{App, Note, Notes, Resource, Routine, Task};
use application::levels::scheduler_ceiling;
use chk_base::sink::Sink;
use step_ir::code::Code;

// How many points the entity with this number has.
fn points_at(code: &Code, entity: usize) -> usize
    ensures { result ≡ points_at code.now entity }
{
    match code.entities.get(entity) {
        Some(entity) => entity.points.len(),
        None => 0,
    }
}

// The line of a task.
fn put_task<S: Sink>(out: &mut S, code: &Code, number: usize, task: &Task) -> Result<(), WriteFault>
    ensures { Prints (S.state out.old) (S.state out.new) (task_line code.now number task.now) result }
{
    put_all(
        out,
        &[
            Piece::Bytes(b"task "),
            Piece::Text(&task.name),
            Piece::Counted(b" level ", task.level as u64),
            Piece::Counted(b" run ", task.run_level as u64),
            Piece::Counted(b" requests ", task.requests as u64),
            Piece::Counted(b" points ", points_at(code, number) as u64),
            Piece::Bytes(b"\n"),
        ],
    )
}

fn put_routine<S: Sink>(
    out: &mut S,
    code: &Code,
    number: usize,
    routine: &Routine,
) -> Result<(), WriteFault>
    ensures { Prints (S.state out.old) (S.state out.new) (routine_line code.now number routine.now) result }
{
    put_all(
        out,
        &[
            Piece::Bytes(b"isr "),
            Piece::Text(&routine.name),
            Piece::Counted(b" level ", routine.level as u64),
            Piece::Counted(b" points ", points_at(code, number) as u64),
            Piece::Bytes(b"\n"),
        ],
    )
}

fn resource_word(internal: bool) -> &'static [u8]
    ensures { result.now ≡ resource_word internal }
{
    if internal { b"internal " } else { b"resource " }
}

fn put_resource<S: Sink>(out: &mut S, resource: &Resource) -> Result<(), WriteFault>
    ensures { Prints (S.state out.old) (S.state out.new) (resource_text resource.now) result }
{
    put_all(
        out,
        &[
            Piece::Bytes(resource_word(resource.internal)),
            Piece::Text(&resource.name),
            Piece::Counted(b" ceiling ", resource.ceiling as u64),
            Piece::Bytes(b"\n"),
        ],
    )
}

fn put_ceiling<S: Sink>(out: &mut S, app: &App) -> Result<(), WriteFault>
    ensures { Prints (S.state out.old) (S.state out.new) (scheduler_text app.now true) result }
{
    put_count(
        out,
        b"resource RES_SCHEDULER ceiling ",
        scheduler_ceiling(app) as u64,
    )
}

// The scheduler as a resource, where it is one.
#[tactic(auto, using(crate::proofs::Printing::prints_nothing))]
fn put_scheduler<S: Sink>(out: &mut S, app: &App) -> Result<(), WriteFault>
    ensures { Prints (S.state out.old) (S.state out.new) (scheduler_text app.now app.now.res_scheduler) result }
{
    if app.res_scheduler {
        put_ceiling(out, app)
    } else {
        Ok(())
    }
}

fn put_note<S: Sink>(out: &mut S, note: &Note) -> Result<(), WriteFault>
    ensures { Prints (S.state out.old) (S.state out.new) (note_text note.now) result }
{
    put_all(
        out,
        &[
            Piece::Counted(b"note N", note.number as u64),
            Piece::Bytes(b" at "),
            Piece::Place(note.place),
            Piece::Bytes(b"\n"),
        ],
    )
}

fn put_tasks<S: Sink>(out: &mut S, app: &App, code: &Code) -> Result<(), WriteFault>
    ensures { Prints (S.state out.old) (S.state out.new) (each (task_line code.now) 0 app.now.tasks) result }
{
    let tasks = app.tasks.items();
    for i in 0..tasks.len() {
        put_task(out, code, i, &tasks[i])?;
    }
    Ok(())
}

fn put_routines<S: Sink>(out: &mut S, app: &App, code: &Code) -> Result<(), WriteFault>
    requires few { length app.now.tasks + length app.now.routines ≤ 16 }
    ensures { Prints (S.state out.old) (S.state out.new) (each (routine_line code.now) (length app.now.tasks) app.now.routines) result }
{
    let first = app.tasks.len();
    let routines = app.routines.items();
    for i in 0..routines.len() {
        put_routine(out, code, first + i, &routines[i])?;
    }
    Ok(())
}

fn put_entities<S: Sink>(out: &mut S, app: &App, code: &Code) -> Result<(), WriteFault>
    requires few { length app.now.tasks + length app.now.routines ≤ 16 }
    ensures { Prints (S.state out.old) (S.state out.new) (entities_text app.now code.now) result }
{
    put_tasks(out, app, code)?;
    put_routines(out, app, code)
}

fn put_listed<S: Sink>(out: &mut S, app: &App) -> Result<(), WriteFault>
    ensures { Prints (S.state out.old) (S.state out.new) (each (λ n r. resource_text r) 0 app.now.resources) result }
{
    let resources = app.resources.items();
    for i in 0..resources.len() {
        put_resource(out, &resources[i])?;
    }
    Ok(())
}

fn put_resources<S: Sink>(out: &mut S, app: &App) -> Result<(), WriteFault>
    ensures { Prints (S.state out.old) (S.state out.new) (resources_text app.now) result }
{
    put_listed(out, app)?;
    put_scheduler(out, app)
}

fn put_counts<S: Sink>(out: &mut S, code: &Code) -> Result<(), WriteFault>
    requires { point_count code.now.entities ≤ 2048 }
    ensures { Prints (S.state out.old) (S.state out.new) (counts_text code.now) result }
{
    put_points(out, code)?;
    put_count(out, b"cells ", code.cells as u64)?;
    put_count(out, b"weight ", code.weight)
}

fn put_notes<S: Sink>(out: &mut S, notes: &Notes) -> Result<(), WriteFault>
    ensures { Prints (S.state out.old) (S.state out.new) (each (λ n x. note_text x) 0 notes.now) result }
{
    let notes = notes.items();
    for i in 0..notes.len() {
        put_note(out, &notes[i])?;
    }
    Ok(())
}

fn put_mode<S: Sink>(out: &mut S, app: &App) -> Result<(), WriteFault>
    ensures { Prints (S.state out.old) (S.state out.new) (mode_line app.now) result }
{
    put_all(
        out,
        &[
            Piece::Bytes(b"mode "),
            Piece::Text(&app.mode),
            Piece::Bytes(b"\n"),
        ],
    )
}

// The first three lines.
fn put_top<S: Sink>(out: &mut S, app: &App) -> Result<(), WriteFault>
    ensures { Prints (S.state out.old) (S.state out.new) (top_text app.now) result }
{
    put_all(
        out,
        &[
            Piece::Bytes(b"oschk show\n"),
            Piece::Bytes(class_line(app.class)),
        ],
    )?;
    put_mode(out, app)
}

/// Writes the report.
pub fn put_show<S: Sink>(out: &mut S, app: &App, code: &Code) -> Result<(), WriteFault>
    requires order { IsInOrder app.now }
    requires fit { Fits app.now code.now }
    ensures { Prints (S.state out.old) (S.state out.new) (show_text app.now code.now) result }
{
    put_top(out, app)?;
    put_entities(out, app, code)?;
    put_resources(out, app)?;
    put_counts(out, code)?;
    put_notes(out, &app.notes)
}
