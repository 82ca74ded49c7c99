// The application, as an OIL text configures it.
ghost use Rattle.std.specs.Prelude.{◌≡◌, OnOk, OnErr, length, slice_get, [], ◌∷◌, ◌++◌};
ghost use Rattle.std.specs.Option.{option_copied};
ghost use Rattle.application.specs.RunLevels.{with_run_levels};

use chk_base::place::Place;
use chk_base::text::Text;
use std::alloc::{AllocError, Global};
use std::marker::Model;

/// The conformance class (OSEK OS 2.2.3, 3.2): `Bcc1` has one request per task and one task per priority, `Bcc2` several of either.
#[derive(Clone, Copy, PartialEq, Eq, Debug)]
pub enum Class {
    Bcc1,
    Bcc2,
}

/// A task or a routine: tasks are numbered from 0 in the order of the OIL text, and routines go on after them in the same way.
#[derive(Clone, Copy, PartialEq, Eq, Debug)]
pub struct Entity(pub u8);

/// Numbers of resources, in order.
#[derive(Drop)]
pub struct Numbers {
    items: Vec<u8>,
}

impl Model for Numbers {
    ghost use Rattle.std.specs.Prelude.{List, ℕ};

    ghost Value = { List ℕ };

    ghost view = { λ a. a.items.items };
}

impl Numbers {
    pub fn new(alloc: Global) -> Self
        ensures { result ≡ [] }
    {
        Numbers {
            items: Vec::new(alloc),
        }
    }

    pub fn push(&mut self, item: u8) -> Result<(), AllocError>
        ensures ok { OnOk result (self.new ≡ self.old ++ item ∷ []) }
        ensures err { OnErr result (self.new ≡ self.old) }
    {
        self.items.push(item)?;
        Ok(())
    }

    pub fn len(&self) -> usize
        ensures { result ≡ length self.now }
    {
        self.items.len()
    }

    pub fn get(&self, at: usize) -> Option<&u8>
        ensures { option_copied result ≡ slice_get self.now at }
    {
        self.items.get(at)
    }

    pub fn items(&self) -> &[u8]
        ensures { result.now ≡ self.now }
    {
        self.items.as_slice()
    }
}

/// A task. `requests` is how many requests it may have at once, `declares` the standard resources that it names in the order of the text,
/// each once, and `internal` its internal resource.
#[derive(Drop)]
pub struct Task {
    pub name: Text,
    pub priority: u8,
    pub level: u8,
    pub run_level: u8,
    pub non_preemptive: bool,
    pub requests: u8,
    pub autostart: bool,
    pub declares: Numbers,
    pub internal: Option<u8>,
}

/// An interrupt service routine of category 2.
#[derive(Drop)]
pub struct Routine {
    pub name: Text,
    pub priority: u8,
    pub level: u8,
    pub declares: Numbers,
}

/// A resource. Resources are numbered from 0 in the order of the text, and the scheduler has the number after the last.
#[derive(Drop)]
pub struct Resource {
    pub name: Text,
    pub internal: bool,
    pub ceiling: u8,
}

/// What was passed over in the OIL text, by the number of the note, at a place.
#[derive(Clone, Copy, PartialEq, Eq, Debug)]
pub struct Note {
    pub number: u8,
    pub place: Place,
}

/// The tasks, in the order of the text.
#[derive(Drop)]
pub struct Tasks {
    items: Vec<Task>,
}

impl Model for Tasks {
    ghost use Rattle.std.specs.Prelude.{List};
    ghost use Rattle.application.specs.declared.app.Task.{Task};

    ghost Value = { List Task };

    ghost view = { λ a. a.items.items };
}

impl Tasks {
    pub fn new(alloc: Global) -> Self
        ensures { result ≡ [] }
    {
        Tasks {
            items: Vec::new(alloc),
        }
    }

    pub fn push(&mut self, item: Task) -> Result<(), AllocError>
        ensures ok { OnOk result (self.new ≡ self.old ++ item ∷ []) }
        ensures err { OnErr result (self.new ≡ self.old) }
    {
        self.items.push(item)?;
        Ok(())
    }

    pub fn len(&self) -> usize
        ensures { result ≡ length self.now }
    {
        self.items.len()
    }

    pub fn get(&self, at: usize) -> Option<&Task>
        ensures { option_copied result ≡ slice_get self.now at }
    {
        self.items.get(at)
    }

    pub fn items(&self) -> &[Task]
        ensures { result.now ≡ self.now }
    {
        self.items.as_slice()
    }

    /// Gives each task its run level.
    pub fn set_run_levels(&mut self, levels: &[u8])
        requires { length levels.now ≡ length self.old }
        ensures { self.new ≡ with_run_levels levels.now self.old }
    {
        for i in 0..self.items.len() {
            self.items[i].run_level = levels[i];
        }
    }
}

/// The routines, in the order of the text.
#[derive(Drop)]
pub struct Routines {
    items: Vec<Routine>,
}

impl Model for Routines {
    ghost use Rattle.std.specs.Prelude.{List};
    ghost use Rattle.application.specs.declared.app.Routine.{Routine};

    ghost Value = { List Routine };

    ghost view = { λ a. a.items.items };
}

impl Routines {
    pub fn new(alloc: Global) -> Self
        ensures { result ≡ [] }
    {
        Routines {
            items: Vec::new(alloc),
        }
    }

    pub fn push(&mut self, item: Routine) -> Result<(), AllocError>
        ensures ok { OnOk result (self.new ≡ self.old ++ item ∷ []) }
        ensures err { OnErr result (self.new ≡ self.old) }
    {
        self.items.push(item)?;
        Ok(())
    }

    pub fn len(&self) -> usize
        ensures { result ≡ length self.now }
    {
        self.items.len()
    }

    pub fn get(&self, at: usize) -> Option<&Routine>
        ensures { option_copied result ≡ slice_get self.now at }
    {
        self.items.get(at)
    }

    pub fn items(&self) -> &[Routine]
        ensures { result.now ≡ self.now }
    {
        self.items.as_slice()
    }
}

/// The resources, in the order of the text.
#[derive(Drop)]
pub struct Resources {
    items: Vec<Resource>,
}

impl Model for Resources {
    ghost use Rattle.std.specs.Prelude.{List};
    ghost use Rattle.application.specs.declared.app.Resource.{Resource};

    ghost Value = { List Resource };

    ghost view = { λ a. a.items.items };
}

impl Resources {
    pub fn new(alloc: Global) -> Self
        ensures { result ≡ [] }
    {
        Resources {
            items: Vec::new(alloc),
        }
    }

    pub fn push(&mut self, item: Resource) -> Result<(), AllocError>
        ensures ok { OnOk result (self.new ≡ self.old ++ item ∷ []) }
        ensures err { OnErr result (self.new ≡ self.old) }
    {
        self.items.push(item)?;
        Ok(())
    }

    pub fn len(&self) -> usize
        ensures { result ≡ length self.now }
    {
        self.items.len()
    }

    pub fn get(&self, at: usize) -> Option<&Resource>
        ensures { option_copied result ≡ slice_get self.now at }
    {
        self.items.get(at)
    }

    pub fn items(&self) -> &[Resource]
        ensures { result.now ≡ self.now }
    {
        self.items.as_slice()
    }
}

/// The notes, in the order of the text.
#[derive(Drop)]
pub struct Notes {
    items: Vec<Note>,
}

impl Model for Notes {
    ghost use Rattle.std.specs.Prelude.{List};
    ghost use Rattle.application.specs.declared.app.Note.{Note};

    ghost Value = { List Note };

    ghost view = { λ a. a.items.items };
}

impl Notes {
    pub fn new(alloc: Global) -> Self
        ensures { result ≡ [] }
    {
        Notes {
            items: Vec::new(alloc),
        }
    }

    pub fn push(&mut self, item: Note) -> Result<(), AllocError>
        ensures ok { OnOk result (self.new ≡ self.old ++ item ∷ []) }
        ensures err { OnErr result (self.new ≡ self.old) }
    {
        self.items.push(item)?;
        Ok(())
    }

    pub fn len(&self) -> usize
        ensures { result ≡ length self.now }
    {
        self.items.len()
    }

    pub fn get(&self, at: usize) -> Option<&Note>
        ensures { option_copied result ≡ slice_get self.now at }
    {
        self.items.get(at)
    }

    pub fn items(&self) -> &[Note]
        ensures { result.now ≡ self.now }
    {
        self.items.as_slice()
    }
}

/// The application. `res_scheduler` says that the scheduler may be taken as a resource, and `mode` is the application mode that was chosen.
#[derive(Drop)]
pub struct App {
    pub tasks: Tasks,
    pub routines: Routines,
    pub resources: Resources,
    pub res_scheduler: bool,
    pub class: Class,
    pub mode: Text,
    pub notes: Notes,
}
