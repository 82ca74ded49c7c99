// The lines of a search, in memory.
ghost use Rattle.std.specs.Prelude.{◌≡◌, Some, []};

use clause_form::keep::{Keep, KeepFault};
use clause_form::line::{Line, Log};
use clause_form::list_keep::ListKeep;
use std::alloc::Global;
use std::marker::Model;

/// Keeps the lines in memory, and fails for want of it alone.
#[derive(Drop)]
pub struct Lines {
    keep: ListKeep,
}

impl Model for Lines {
    ghost use Rattle.std.specs.Prelude.{◌≡◌, List, []};
    ghost use Rattle.clause_form.specs.declared.line.Line.{Line};

    ghost Value = { List Line };

    ghost view = { λ l. l.keep.log };

    ghost invariant = { λ l. l.keep.failing ≡ [] };
}

impl Lines {
    pub fn new(alloc: Global) -> Lines
        ensures { result ≡ [] }
    {
        Lines {
            keep: ListKeep::new(alloc),
        }
    }

    /// The lines so far.
    pub fn log(&self) -> &Log
        ensures { result.now ≡ self.now }
    {
        self.keep.log()
    }
}

impl Keep for Lines {
    ghost use Rattle.std.specs.Prelude.{ℕ};

    ghost Origin = { ℕ };

    ghost origin = { λ _. 0 };

    ghost lines = { λ l. Some l };

    ghost faults = { λ _. 0 };

    fn line(&mut self, line: &Line) -> Result<(), KeepFault> {
        match self.keep.line(line) {
            Ok(()) => Ok(()),
            Err(KeepFault::Memory) => Err(KeepFault::Memory),
            Err(KeepFault::Failed) => unreachable!(),
        }
    }
}
