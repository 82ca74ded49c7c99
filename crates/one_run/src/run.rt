// The one run of a machine where no routine arrives and no input is taken.
ghost use Rattle.std.specs.Prelude.{◌≡◌, ◌≤◌, IfOk};
ghost use Rattle.application.specs.InOrder.{IsInOrder};
ghost use Rattle.step_ir.specs.Fits.{Fits};
ghost use Rattle.replay.specs.Replaying.{failure_of};
ghost use Rattle.one_run.specs.OneRun.{IsRunOf, TakesNoInput, steps};

use application::app::App;
use osek_machine::machine::{Machine, Outcome};
use replay::run::Replayed;
use std::alloc::{AllocError, Global};
use step_ir::code::Code;
use step_ir::event::{Choice, Choices, Event, EventAction, Events, Failure};

// The failure of an event, if it is one.
fn failure_of(event: &Event) -> Option<Failure>
    ensures { result ≡ failure_of event.now.action }
{
    match event.action {
        EventAction::Fail(failure, _) => Some(failure),
        _ => None,
    }
}

/// So many steps of who runs.
pub fn steps(alloc: Global, count: usize) -> Result<Choices, AllocError>
    ensures { IfOk result (λ choices. choices ≡ steps count) }
{
    let mut choices = Choices::new(alloc);
    for _ in 0..count {
        choices.push(Choice::Go)?;
    }
    Ok(choices)
}

/// Up to so many steps from the start, each of who runs then. It ends sooner where a step fails or nobody can go on. If it has no failure,
/// then no permitted schedule of so many events without arrivals fails, since each is a prefix of this run.
pub fn one_run(alloc: Global, app: &App, code: &Code, turns: u16) -> Result<Replayed, AllocError>
    requires order { IsInOrder app.now }
    requires fit { Fits app.now code.now }
    requires no_input { TakesNoInput code.now }
    ensures { IfOk result (λ run. IsRunOf app.now code.now turns run.events run.failure) }
{
    let mut machine = Machine::new(alloc, app, code)?;
    let mut events = Events::new(alloc);
    for _ in 0..turns {
        match machine.step(&Choice::Go) {
            Outcome::Event(event) => events.push(event)?,
            Outcome::Failed(event) => {
                let failure = failure_of(&event);
                events.push(event)?;
                return Ok(Replayed { events, failure });
            }
            Outcome::Refused => {
                let failure = None;
                return Ok(Replayed { events, failure });
            }
        }
    }
    Ok(Replayed {
        events,
        failure: None,
    })
}
