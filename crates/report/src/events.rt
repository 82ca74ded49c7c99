// Events, and where they end.
ghost use Rattle.std.specs.Prelude.{◌≡◌, ◌-◌, ◌++◌, Some, codes, decimal, length, slice_get};
ghost use Rattle.report.specs.EventTexts.{event_line, event_lines, next_text};
ghost use Rattle.report.specs.Lines.{at_text, each, entity_name, failure_at, last_place, line, place_of};
ghost use Rattle.report.specs.Printing.{Prints};

use crate::actions::{put_action, put_failure};
use crate::names::entity_name;
use crate::pieces::{Piece, put, put_all};
use crate::reports::WriteFault;
use application::app::{App, Entity};
use chk_base::place::Place;
use chk_base::sink::Sink;
use step_ir::code::Code;
use step_ir::event::{Event, Events, Failure, Next};

// Who runs afterwards.
fn next_name(app: &App, next: Next) -> &[u8]
    ensures { result.now ≡ next_text app.now next }
{
    match next {
        Next::Runs(entity) => entity_name(app, entity),
        Next::Idle => b"idle",
        Next::Stop => b"stop",
    }
}

// What stands before an action.
fn put_actor<S: Sink>(
    out: &mut S,
    app: &App,
    number: usize,
    actor: Entity,
) -> Result<(), WriteFault>
    ensures { Prints (S.state out.old) (S.state out.new) (decimal number ++ codes " " ++ entity_name app.now actor.0 ++ codes " ") result }
{
    put_all(
        out,
        &[
            Piece::Number(number as u64),
            Piece::Bytes(b" "),
            Piece::Bytes(entity_name(app, actor)),
            Piece::Bytes(b" "),
        ],
    )
}

// An event with the end of its line.
fn put_event<S: Sink>(
    out: &mut S,
    app: &App,
    code: &Code,
    number: usize,
    event: &Event,
) -> Result<(), WriteFault>
    ensures { Prints (S.state out.old) (S.state out.new) (event_line app.now code.now number event.now) result }
{
    put_actor(out, app, number, event.actor)?;
    put_action(out, app, code, event.action)?;
    put(out, b" -> ")?;
    put(out, next_name(app, event.next))?;
    put(out, b"\n")
}

/// Writes the lines of events, numbered from 1.
pub fn put_events<S: Sink>(
    out: &mut S,
    app: &App,
    code: &Code,
    events: &Events,
) -> Result<(), WriteFault>
    ensures { Prints (S.state out.old) (S.state out.new) (event_lines app.now code.now events.now) result }
{
    let events = events.items();
    for i in 0..events.len() {
        put_event(out, app, code, i + 1, &events[i])?;
    }
    Ok(())
}

// The place of the last event.
fn last_place(events: &[Event]) -> Option<Place>
    ensures { result ≡ last_place events.now }
{
    match events.last() {
        Some(event) => Some(event.place),
        None => None,
    }
}

fn put_place_after<S: Sink>(out: &mut S, place: Place) -> Result<(), WriteFault>
    ensures { Prints (S.state out.old) (S.state out.new) (at_text (Some place)) result }
{
    put_all(out, &[Piece::Bytes(b" at "), Piece::Place(place)])
}

#[tactic(auto, using(crate::proofs::Printing::prints_nothing))]
fn put_at<S: Sink>(out: &mut S, place: Option<Place>) -> Result<(), WriteFault>
    ensures { Prints (S.state out.old) (S.state out.new) (at_text place) result }
{
    match place {
        Some(place) => put_place_after(out, place),
        None => Ok(()),
    }
}

// The words before the place of the last event, and the place.
fn put_last_place<S: Sink>(out: &mut S, events: &Events) -> Result<(), WriteFault>
    ensures { Prints (S.state out.old) (S.state out.new) (at_text (last_place events.now)) result }
{
    put_at(out, last_place(events.items()))
}

// Writes a failure, and the place of the last of these events.
fn put_failure_at<S: Sink>(out: &mut S, failure: Failure, events: &Events) -> Result<(), WriteFault>
    ensures { Prints (S.state out.old) (S.state out.new) (failure_at failure events.now) result }
{
    put_failure(out, failure)?;
    put_last_place(out, events)
}

/// Writes a line of these bytes, a failure, and the place of the last of these events.
pub fn put_failure_line<S: Sink>(
    out: &mut S,
    head: &[u8],
    failure: Failure,
    events: &Events,
) -> Result<(), WriteFault>
    ensures { Prints (S.state out.old) (S.state out.new) (line (head.now ++ failure_at failure events.now)) result }
{
    put(out, head)?;
    put_failure_at(out, failure, events)?;
    put(out, b"\n")
}
