// Replays: the scheduler's events for a list of choices.
ghost use Rattle.std.specs.Prelude.{◌≡◌, Some, ◌<◌, ◌-◌, ◌^◌, IfOk, IfErr, length};
ghost use Rattle.application.specs.InOrder.{IsInOrder};
ghost use Rattle.step_ir.specs.Fits.{Fits};
ghost use Rattle.replay.specs.Replaying.{IsCause, events_for, failure_of, last_failure, told};

use application::app::App;
use osek_machine::machine::{Machine, Outcome, StateView};
use std::alloc::{AllocError, Global};
use step_ir::code::Code;
use step_ir::event::{Choices, Event, EventAction, Events, Failure};

/// The events of a list of choices, one for each; and the failure that the last event is, if it is one.
#[derive(Drop)]
pub struct Replayed {
    pub events: Events,
    pub failure: Option<Failure>,
}

/// Why choices aren't replayed. `NotPermitted` comes exactly where one of them isn't permitted: the number of the first such choice, from
/// 1, with what is shown of the state before it and the events of the choices before it. `Memory` is want of memory.
#[derive(Drop)]
pub enum ReplayFault {
    NotPermitted {
        step: u32,
        state: StateView,
        events: Events,
    },
    Memory,
}

impl From<AllocError> for ReplayFault {
    ghost use Rattle.std.specs.Prelude.{◌≡◌};
    ghost use Rattle.replay.specs.declared.run.ReplayFault.TheVariants.{Memory};

    ghost from_gives = { λ _ fault. fault ≡ Memory };

    fn from(_error: AllocError) -> ReplayFault {
        ReplayFault::Memory
    }
}

// The failure that an event is.
fn failure_of(event: &Event) -> Option<Failure>
    ensures { result ≡ failure_of event.now.action }
{
    match event.action {
        EventAction::Fail(failure, _) => Some(failure),
        _ => None,
    }
}

// The event of a step, where one was made.
fn told(outcome: Outcome) -> Option<Event>
    ensures { result ≡ told outcome }
{
    match outcome {
        Outcome::Event(event) => Some(event),
        Outcome::Failed(event) => Some(event),
        Outcome::Refused => None,
    }
}

/// The events of these choices from the start, by the scheduler of OSEK OS 2.2.3 over the points of the code, and the failure of the last
/// one. The first choice that isn't permitted ends it.
pub fn replay(
    alloc: Global,
    app: &App,
    code: &Code,
    choices: &Choices,
) -> Result<Replayed, ReplayFault>
    requires order { IsInOrder app.now }
    requires fit { Fits app.now code.now }
    requires few { length choices.now < 2 ^ 32 - 1 }
    ensures events { IfOk result (λ done. events_for app.now code.now choices.now ≡ Some done.events) }
    ensures failure { IfOk result (λ done. done.failure ≡ last_failure done.events) }
    ensures refused { IfErr result (IsCause app.now code.now choices.now) }
{
    let mut machine = Machine::new(alloc, app, code)?;
    let mut events = Events::new(alloc);
    let mut failure = None;
    let choices = choices.items();
    for i in 0..choices.len() {
        let Some(event) = told(machine.step(&choices[i])) else {
            return Err(ReplayFault::NotPermitted {
                step: i as u32 + 1,
                state: machine.state_of(),
                events,
            });
        };
        failure = failure_of(&event);
        events.push(event)?;
    }
    Ok(Replayed { events, failure })
}
