// Choices, and the events of the steps that they lead to.
ghost use Rattle.std.specs.Prelude.{◌≡◌, OnOk, OnErr, length, slice_get, [], ◌∷◌, ◌++◌};
ghost use Rattle.std.specs.Option.{option_copied};

use application::app::Entity;
use chk_base::place::Place;
use chk_base::word::Word;
use std::alloc::{AllocError, Global};
use std::marker::Model;

/// A section in which interrupts are off, by the service that opened it: `DisableAllInterrupts`, `SuspendAllInterrupts` or
/// `SuspendOSInterrupts`.
#[derive(Clone, Copy, PartialEq, Eq, Debug)]
pub enum Section {
    Disabled,
    AllSuspended,
    OsSuspended,
}

/// A system service (OSEK OS 2.2.3, 13), with the number of its resource.
#[derive(Clone, Copy, PartialEq, Eq, Debug)]
pub enum Service {
    Activate(Entity),
    Terminate,
    Chain(Entity),
    Schedule,
    Get(u8),
    Release(u8),
    DisableAll,
    EnableAll,
    SuspendAll,
    ResumeAll,
    SuspendOs,
    ResumeOs,
}

/// A failure, by its number from 1 to 9. `code` is the status that a service answered where the number is 2, and else 0.
#[derive(Clone, Copy, PartialEq, Eq, Debug)]
pub struct Failure {
    pub number: u8,
    pub code: u8,
}

/// What comes next: the step of who runs, without a word or with one as its input, or the arrival of a routine.
#[derive(Clone, Copy, PartialEq, Eq, Debug)]
pub enum Choice {
    Go,
    GoWith(Word),
    Arrive(Entity),
}

/// Choices, one for each step.
#[derive(Drop)]
pub struct Choices {
    items: Vec<Choice>,
}

impl Model for Choices {
    ghost use Rattle.std.specs.Prelude.{List};
    ghost use Rattle.step_ir.specs.declared.event.Choice.{Choice};

    ghost Value = { List Choice };

    ghost view = { λ a. a.items.items };
}

impl Choices {
    pub fn new(alloc: Global) -> Self
        ensures { result ≡ [] }
    {
        Choices {
            items: Vec::new(alloc),
        }
    }

    pub fn push(&mut self, item: Choice) -> Result<(), AllocError>
        ensures ok { OnOk result (self.new ≡ self.old ++ item ∷ []) }
        ensures err { OnErr result (self.new ≡ self.old) }
    {
        self.items.push(item)?;
        Ok(())
    }

    pub fn len(&self) -> usize
        ensures { result ≡ length self.now }
    {
        self.items.len()
    }

    pub fn get(&self, at: usize) -> Option<&Choice>
        ensures { option_copied result ≡ slice_get self.now at }
    {
        self.items.get(at)
    }

    pub fn items(&self) -> &[Choice]
        ensures { result.now ≡ self.now }
    {
        self.items.as_slice()
    }
}

/// What was done in a step, with its values. Cells and functions are named by their numbers in the code.
#[derive(Clone, Copy, PartialEq, Eq, Debug)]
pub enum EventAction {
    Arrive,
    Read { cell: u16, value: Word },
    Write { cell: u16, value: Word },
    Local { cell: u16, value: Word },
    Branch(bool),
    Input { cell: u16, value: Word },
    Call(u16),
    Return(Option<(u16, Word)>),
    Service(Service),
    Assert,
    End,
    Fail(Failure, Option<Service>),
}

/// Who runs after a step; `Stop` comes after a failure.
#[derive(Clone, Copy, PartialEq, Eq, Debug)]
pub enum Next {
    Runs(Entity),
    Idle,
    Stop,
}

/// One step: who made it, what was done, who runs afterwards, and its place in the text.
#[derive(Clone, Copy, PartialEq, Eq, Debug)]
pub struct Event {
    pub actor: Entity,
    pub action: EventAction,
    pub next: Next,
    pub place: Place,
}

/// Events, one for each step.
#[derive(Drop)]
pub struct Events {
    items: Vec<Event>,
}

impl Model for Events {
    ghost use Rattle.std.specs.Prelude.{List};
    ghost use Rattle.step_ir.specs.declared.event.Event.{Event};

    ghost Value = { List Event };

    ghost view = { λ a. a.items.items };
}

impl Events {
    pub fn new(alloc: Global) -> Self
        ensures { result ≡ [] }
    {
        Events {
            items: Vec::new(alloc),
        }
    }

    pub fn push(&mut self, item: Event) -> Result<(), AllocError>
        ensures ok { OnOk result (self.new ≡ self.old ++ item ∷ []) }
        ensures err { OnErr result (self.new ≡ self.old) }
    {
        // An event holds an `Option`, and the prover knows that type in a body whose calls name it.
        let _ = self.items.get(0);
        self.items.push(item)?;
        Ok(())
    }

    pub fn len(&self) -> usize
        ensures { result ≡ length self.now }
    {
        self.items.len()
    }

    pub fn get(&self, at: usize) -> Option<&Event>
        ensures { option_copied result ≡ slice_get self.now at }
    {
        self.items.get(at)
    }

    pub fn items(&self) -> &[Event]
        ensures { result.now ≡ self.now }
    {
        self.items.as_slice()
    }
}
