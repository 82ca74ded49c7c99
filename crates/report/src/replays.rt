// The report of a replay.
ghost use Rattle.std.specs.Prelude.{◌++◌, Ok, Err, Some, codes, decimal};
ghost use Rattle.report.specs.EventTexts.{event_lines};
ghost use Rattle.report.specs.Lines.{counted, entity_name, failure_at, line};
ghost use Rattle.report.specs.Printing.{Prints};
ghost use Rattle.report.specs.ReplayTexts.{end_text, replay_text, replayed_text, running_text, state_text, stopped_text};

use crate::events::{put_events, put_failure_line};
use crate::names::entity_name;
use crate::pieces::{Piece, put, put_all, put_count};
use crate::reports::{ReplayFault, Replayed, WriteFault};
use application::app::{App, Entity};
use chk_base::sink::Sink;
use osek_machine::machine::StateView;
use step_ir::code::Code;
use step_ir::event::{Events, Failure};

fn put_end<S: Sink>(
    out: &mut S,
    events: &Events,
    failure: Option<Failure>,
) -> Result<(), WriteFault>
    ensures { Prints (S.state out.old) (S.state out.new) (end_text events.now failure) result }
{
    match failure {
        Some(failure) => put_failure_line(out, b"fails ", failure, events),
        None => put(out, b"done\n"),
    }
}

fn put_whole<S: Sink>(
    out: &mut S,
    app: &App,
    code: &Code,
    replayed: &Replayed,
) -> Result<(), WriteFault>
    ensures { Prints (S.state out.old) (S.state out.new) (replayed_text app.now code.now (Ok replayed.now)) result }
{
    put_events(out, app, code, &replayed.events)?;
    put_end(out, &replayed.events, replayed.failure)
}

fn put_actor<S: Sink>(out: &mut S, app: &App, entity: Entity, level: u8) -> Result<(), WriteFault>
    ensures { Prints (S.state out.old) (S.state out.new) (running_text app.now (Some entity) level) result }
{
    put_all(
        out,
        &[
            Piece::Bytes(b"running "),
            Piece::Bytes(entity_name(app, entity)),
            Piece::Counted(b" level ", level as u64),
            Piece::Bytes(b"\n"),
        ],
    )
}

fn put_running<S: Sink>(
    out: &mut S,
    app: &App,
    running: Option<Entity>,
    level: u8,
) -> Result<(), WriteFault>
    ensures { Prints (S.state out.old) (S.state out.new) (running_text app.now running level) result }
{
    match running {
        Some(entity) => put_actor(out, app, entity, level),
        None => put(out, b"idle\n"),
    }
}

fn put_state<S: Sink>(out: &mut S, app: &App, state: StateView) -> Result<(), WriteFault>
    ensures { Prints (S.state out.old) (S.state out.new) (state_text app.now state) result }
{
    if state.stopped {
        put(out, b"stopped\n")
    } else {
        put_running(out, app, state.running, state.level)
    }
}

fn put_not_permitted<S: Sink>(
    out: &mut S,
    app: &App,
    code: &Code,
    step: u32,
    state: StateView,
    events: &Events,
) -> Result<(), WriteFault>
    ensures { Prints (S.state out.old) (S.state out.new)
        (replayed_text app.now code.now (Err (ReplayFault.NotPermitted step state events.now))) result }
{
    put_events(out, app, code, events)?;
    put_count(out, b"not permitted ", step as u64)?;
    put_state(out, app, state)
}

#[tactic(auto, using(crate::proofs::Printing::prints_nothing))]
fn put_refused<S: Sink>(
    out: &mut S,
    app: &App,
    code: &Code,
    fault: &ReplayFault,
) -> Result<(), WriteFault>
    ensures { Prints (S.state out.old) (S.state out.new) (replayed_text app.now code.now (Err fault.now)) result }
{
    match fault {
        ReplayFault::NotPermitted {
            step,
            state,
            events,
        } => put_not_permitted(out, app, code, *step, *state, events),
        ReplayFault::Memory => Ok(()),
    }
}

// What follows the first line.
fn put_replayed<S: Sink>(
    out: &mut S,
    app: &App,
    code: &Code,
    outcome: &Result<Replayed, ReplayFault>,
) -> Result<(), WriteFault>
    ensures { Prints (S.state out.old) (S.state out.new) (replayed_text app.now code.now outcome.now) result }
{
    match outcome {
        Ok(replayed) => put_whole(out, app, code, replayed),
        Err(fault) => put_refused(out, app, code, fault),
    }
}

/// Writes the report of a replay.
pub fn put_replay<S: Sink>(
    out: &mut S,
    app: &App,
    code: &Code,
    outcome: &Result<Replayed, ReplayFault>,
) -> Result<(), WriteFault>
    ensures { Prints (S.state out.old) (S.state out.new) (replay_text app.now code.now outcome.now) result }
{
    put(out, b"oschk replay\n")?;
    put_replayed(out, app, code, outcome)
}
