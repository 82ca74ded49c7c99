// A keep in memory.
ghost use Rattle.std.specs.Prelude.{◌≡◌, ℕ, List, ◌↔◌, OnOk, OnErr, [], ◌∷◌, ◌++◌, Contains, Err, Some};
ghost use Rattle.clause_form.specs.ListKeep.{one_more, faults_after};
ghost use Rattle.clause_form.specs.Keep.{Keeps, HasCause};

use crate::keep::{Keep, KeepFault};
use crate::line::{Line, Log};
use std::alloc::{AllocError, Global};
use std::marker::Model;

/// Keeps the lines in memory, and fails at the calls that were given.
#[derive(Drop)]
pub struct ListKeep {
    alloc: Global,
    log: Log,
    failing: Vec<u64>,
    calls: u64,
    faults: u64,
}

impl Model for ListKeep {
    ghost use Rattle.clause_form.specs.ListKeep.{ListKept};

    ghost Value = { ListKept };

    ghost view = { λ k. record { log = k.log; failing = k.failing.items; calls = k.calls; faults = k.faults } };
}

impl ListKeep {
    pub fn new(alloc: Global) -> ListKeep
        ensures { result ≡ record { log = []; failing = []; calls = 0; faults = 0 } }
    {
        ListKeep {
            alloc,
            log: Log::new(alloc),
            failing: Vec::new(alloc),
            calls: 0,
            faults: 0,
        }
    }

    /// The call of `line` with this number is to fail; they are counted from 1.
    pub fn fail_at(&mut self, call: u64) -> Result<(), AllocError>
        ensures ok { OnOk result (self.new ≡ record self.old { failing = self.old.failing ++ call ∷ [] }) }
        ensures err { OnErr result (self.new ≡ self.old) }
    {
        self.failing.push(call)?;
        Ok(())
    }

    /// The lines so far.
    pub fn log(&self) -> &Log
        ensures { result.now ≡ self.now.log }
    {
        &self.log
    }
}

impl Keep for ListKeep {
    ghost Origin = { List ℕ };

    ghost origin = { λ k. k.failing };

    ghost lines = { λ k. Some k.log };

    ghost faults = { λ k. k.faults };

    fn line(&mut self, line: &Line) -> Result<(), KeepFault>
        ensures kept { Keeps result (Some self.old.log) line.now (Some self.new.log) }
        ensures cause { HasCause result self.old.faults self.new.faults }
        ensures origin { self.new.failing ≡ self.old.failing }
        ensures counts { self.new.calls ≡ one_more self.old.calls }
        ensures faults { self.new.faults ≡ faults_after result self.old.faults }
        ensures fails { (result ≡ Err KeepFault.Failed) ↔ Contains self.old.failing (one_more self.old.calls) }
    {
        self.calls = self.calls.saturating_add(1);
        if self.failing.contains(&self.calls) {
            self.faults = self.faults.saturating_add(1);
            return Err(KeepFault::Failed);
        }
        let Ok(copy) = line.copy(self.alloc) else {
            return Err(KeepFault::Memory);
        };
        match self.log.push(copy) {
            Ok(()) => Ok(()),
            Err(_) => Err(KeepFault::Memory),
        }
    }
}
