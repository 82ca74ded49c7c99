// The report of a run.
ghost use Rattle.std.specs.Prelude.{◌≡◌, ◌≤◌, ◌++◌, Option, Some, codes, decimal, length, slice_get};
ghost use Rattle.std.specs.Option.{option_copied};
ghost use Rattle.std.specs.Fmt.{signed_decimal};
ghost use Rattle.chk_base.specs.Widths.{reading_of};
ghost use Rattle.report.specs.EventTexts.{event_lines};
ghost use Rattle.report.specs.Lines.{class_text, counted, each, entity_name, failure_at, line};
ghost use Rattle.report.specs.Printing.{Prints};
ghost use Rattle.report.specs.RunTexts.{bounds_text, choice_line, failed_text, failing_text, head_text, is_signed_input, points_text, run_text, schedule_text, takes_signed, verdict_text};
ghost use Rattle.step_ir.specs.Fits.{Fits, point_count};

use crate::events::{put_events, put_failure_line};
use crate::names::{cell_name, entity_name};
use crate::pieces::{Piece, class_line, put, put_all, put_count};
use crate::reports::{Replayed, Verdict, WriteFault};
use application::app::{App, Entity};
use chk_base::sink::Sink;
use chk_base::word::Word;
use step_ir::code::{Code, EntityCode};
use step_ir::event::{Choice, Choices, Event, EventAction, Events, Failure};

fn put_head<S: Sink>(out: &mut S, made: Option<u32>) -> Result<(), WriteFault>
    ensures { Prints (S.state out.old) (S.state out.new) (head_text made) result }
{
    match made {
        Some(number) => put_all(
            out,
            &[
                Piece::Bytes(b"oschk make\n"),
                Piece::Line(b"number ", number as u64),
            ],
        ),
        None => put(out, b"oschk run\n"),
    }
}

fn put_bounds<S: Sink>(out: &mut S, turns: u16, arrivals: u8) -> Result<(), WriteFault>
    ensures { Prints (S.state out.old) (S.state out.new) (bounds_text turns arrivals) result }
{
    put_all(
        out,
        &[
            Piece::Counted(b"bounds ", turns as u64),
            Piece::Counted(b" ", arrivals as u64),
            Piece::Bytes(b"\n"),
        ],
    )
}

// How many points the entities have.
fn point_count(entities: &[EntityCode]) -> u64
    requires { point_count entities.now ≤ 2048 }
    ensures { result ≡ point_count entities.now }
{
    match entities.split_first() {
        Some((entity, others)) => entity.points.len() as u64 + point_count(others),
        None => 0,
    }
}

/// Writes the number of points.
pub fn put_points<S: Sink>(out: &mut S, code: &Code) -> Result<(), WriteFault>
    requires { point_count code.now.entities ≤ 2048 }
    ensures { Prints (S.state out.old) (S.state out.new) (points_text code.now) result }
{
    put_count(out, b"points ", point_count(code.entities.items()))
}

// The action is an input into a cell of a signed type.
fn takes_signed(code: &Code, action: EventAction) -> bool
    ensures { result ≡ takes_signed code.now action }
{
    let EventAction::Input { cell, value: _ } = action else {
        return false;
    };
    match cell_name(code, cell) {
        Some(name) => name.signed,
        None => false,
    }
}

fn is_signed_input(code: &Code, event: Option<&Event>) -> bool
    ensures { result ≡ is_signed_input code.now (option_copied event.entry) }
{
    match event {
        Some(event) => takes_signed(code, event.action),
        None => false,
    }
}

fn put_value<S: Sink>(out: &mut S, value: Word, signed: bool) -> Result<(), WriteFault>
    ensures { Prints (S.state out.old) (S.state out.new) (line (codes "go " ++ signed_decimal (reading_of signed value))) result }
{
    put_all(
        out,
        &[
            Piece::Bytes(b"go "),
            Piece::Reading(value, signed),
            Piece::Bytes(b"\n"),
        ],
    )
}

fn put_arrival<S: Sink>(out: &mut S, app: &App, routine: Entity) -> Result<(), WriteFault>
    ensures { Prints (S.state out.old) (S.state out.new) (line (codes "arrive " ++ entity_name app.now routine.0)) result }
{
    put_all(
        out,
        &[
            Piece::Bytes(b"arrive "),
            Piece::Bytes(entity_name(app, routine)),
            Piece::Bytes(b"\n"),
        ],
    )
}

// The line of a choice, whose event is this one.
fn put_choice<S: Sink>(
    out: &mut S,
    app: &App,
    code: &Code,
    event: Option<&Event>,
    choice: Choice,
) -> Result<(), WriteFault>
    ensures { Prints (S.state out.old) (S.state out.new) (choice_line app.now code.now (option_copied event.entry) choice) result }
{
    match choice {
        Choice::Go => put(out, b"go\n"),
        Choice::GoWith(value) => put_value(out, value, is_signed_input(code, event)),
        Choice::Arrive(routine) => put_arrival(out, app, routine),
    }
}

// The line of a choice, whose event has this place in the list.
fn put_choice_at<S: Sink>(
    out: &mut S,
    app: &App,
    code: &Code,
    events: &Events,
    at: usize,
    choice: Choice,
) -> Result<(), WriteFault>
    ensures { Prints (S.state out.old) (S.state out.new) (choice_line app.now code.now (slice_get events.now at) choice) result }
{
    put_choice(out, app, code, events.get(at), choice)
}

fn put_schedule<S: Sink>(
    out: &mut S,
    app: &App,
    code: &Code,
    events: &Events,
    choices: &Choices,
) -> Result<(), WriteFault>
    ensures { Prints (S.state out.old) (S.state out.new) (schedule_text app.now code.now events.now choices.now) result }
{
    let choices = choices.items();
    for i in 0..choices.len() {
        put_choice_at(out, app, code, events, i, choices[i])?;
    }
    Ok(())
}

#[tactic(auto, using(crate::proofs::Printing::prints_nothing))]
fn put_failed<S: Sink>(
    out: &mut S,
    events: &Events,
    failure: Option<Failure>,
) -> Result<(), WriteFault>
    ensures { Prints (S.state out.old) (S.state out.new) (failed_text events.now failure) result }
{
    match failure {
        Some(failure) => put_failure_line(out, b"verdict fails ", failure, events),
        None => Ok(()),
    }
}

fn put_failing<S: Sink>(
    out: &mut S,
    app: &App,
    code: &Code,
    replayed: &Replayed,
    choices: &Choices,
) -> Result<(), WriteFault>
    ensures { Prints (S.state out.old) (S.state out.new) (failing_text app.now code.now (Some replayed.now) (Some choices.now)) result }
{
    put_failed(out, &replayed.events, replayed.failure)?;
    put_events(out, app, code, &replayed.events)?;
    put(out, b"schedule\n")?;
    put_schedule(out, app, code, &replayed.events, choices)
}

// A schedule that fails, where there is one.
#[tactic(auto, using(crate::proofs::Printing::prints_nothing))]
fn put_schedule_of<S: Sink>(
    out: &mut S,
    app: &App,
    code: &Code,
    replayed: Option<&Replayed>,
    choices: Option<&Choices>,
) -> Result<(), WriteFault>
    ensures { Prints (S.state out.old) (S.state out.new) (failing_text app.now code.now (option_copied replayed.entry) (option_copied choices.entry)) result }
{
    match (replayed, choices) {
        (Some(replayed), Some(choices)) => put_failing(out, app, code, replayed, choices),
        _ => Ok(()),
    }
}

fn put_verdict<S: Sink>(
    out: &mut S,
    app: &App,
    code: &Code,
    verdict: Verdict,
    replayed: Option<&Replayed>,
    choices: Option<&Choices>,
) -> Result<(), WriteFault>
    ensures { Prints (S.state out.old) (S.state out.new) (verdict_text app.now code.now verdict (option_copied replayed.entry) (option_copied choices.entry)) result }
{
    match verdict {
        Verdict::Holds => put(out, b"verdict holds\n"),
        Verdict::Fails => put_schedule_of(out, app, code, replayed, choices),
        Verdict::Undecided => put(out, b"verdict undecided\n"),
    }
}

/// Writes the report of a run.
pub fn put_run<S: Sink>(
    out: &mut S,
    made: Option<u32>,
    app: &App,
    code: &Code,
    bounds: (u16, u8),
    verdict: Verdict,
    replayed: Option<&Replayed>,
    choices: Option<&Choices>,
) -> Result<(), WriteFault>
    requires { Fits app.now code.now }
    ensures { Prints (S.state out.old) (S.state out.new)
        (run_text made app.now code.now bounds.0 bounds.1 verdict (option_copied replayed.entry) (option_copied choices.entry)) result }
{
    put_head(out, made)?;
    put(out, class_line(app.class))?;
    put_bounds(out, bounds.0, bounds.1)?;
    put_points(out, code)?;
    put_verdict(out, app, code, verdict, replayed, choices)
}
