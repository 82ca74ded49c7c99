// The search: propagate, then learn from a conflict or decide, until there is an answer.
//
// It keeps the numbered clauses, the trail over them and how many lines were kept. The trail's
// reasons say all that holds between two steps: a decision was made where nothing was forced.
ghost use Rattle.std.specs.Prelude.{◌≡◌, ◌+◌, ◌<◌, ◌≤◌, ◌^◌, [], Err, IfSome, OnErr, OnOk, is_some, true};
ghost use Rattle.clause_form.specs.ClauseTruth.{HasNoModel};
ghost use Rattle.clause_form.specs.DerivedLine.{ends_empty};
ghost use Rattle.clause_form.specs.Keep.{Rose, with_line};
ghost use Rattle.clause_solver.specs.Answer.{IsLog};
ghost use Rattle.clause_solver.specs.Numbering.{HasEach, clauses_of};
ghost use Rattle.clause_solver.specs.Propagation.{IsConflict};
ghost use Rattle.clause_solver.specs.Search.{IsEnd, IsOpenLog, IsSearch};
ghost use Rattle.clause_solver.specs.Trail.{decisions};

use crate::analyze::analyze;
use crate::answer::{Answer, SolveFault};
use crate::decide::{choice, values};
use crate::jump::back_jump;
use crate::numbering::Numbering;
use crate::propagate::propagate;
use crate::refute::refute;
use crate::resolvent::Resolvent;
use crate::trail::{Entry, Trail};
use clause_form::formula::Formula;
use clause_form::keep::{Keep, KeepFault};
use clause_form::line::Line;
use clause_form::store::ClauseStore;
use std::alloc::Global;

#[derive(Drop)]
pub struct Search {
    pub alloc: Global,
    pub numbering: Numbering,
    pub trail: Trail,
    // Kept from one analysis to the next, so that its tables are made once.
    pub resolvent: Resolvent,
    pub lines: u64,
}

impl Search {
    pub fn new(alloc: Global) -> Search
        ensures numbering { result.numbering ≡ [] }
        ensures trail { result.trail ≡ [] }
        ensures lines { result.lines ≡ 0 }
    {
        Search {
            alloc,
            numbering: Numbering::new(alloc),
            trail: Trail::new(alloc),
            resolvent: Resolvent::new(alloc),
            lines: 0,
        }
    }

    // Goes on until there is an answer.
    pub fn run<C: ClauseStore, K: Keep>(
        &mut self,
        formula: &Formula,
        store: &mut C,
        budget: u64,
        keep: &mut K,
    ) -> Result<Answer, SolveFault>
        requires each { HasEach (C.stored store.old) self.old.numbering }
        requires search { IsSearch formula.now.variables formula.now.clauses (clauses_of (C.stored store.old) self.old.numbering) self.old.trail self.old.lines (K.lines keep.old) }
        requires none { self.old.lines ≡ 0 }
        requires few { formula.now.variables < 2 ^ 63 }
        ensures end { IsEnd formula.now.variables formula.now.clauses budget result (K.lines keep.new) }
        ensures failed { result ≡ Err SolveFault.KeepFailed → Rose (K.faults keep.old) (K.faults keep.new) }
        ensures later { K.faults keep.old ≤ K.faults keep.new }
        ensures origin { K.origin keep.new ≡ K.origin keep.old }
        ensures told { is_some (K.lines keep.new) ≡ is_some (K.lines keep.old) }
    {
        loop {
            let found = propagate(store, &self.numbering, &mut self.trail, formula.variables)?;
            match found {
                None => match choice(&self.trail, formula.variables) {
                    Some(lit) => {
                        self.trail.push(Entry { lit, reason: None })?;
                    }
                    None => {
                        let values = values(self.alloc, &self.trail, formula.variables)?;
                        return Ok(Answer::Model(values));
                    }
                },
                Some(conflict) => {
                    if self.lines == budget {
                        return Ok(Answer::Spent);
                    }
                    if self.trail.level() == 0 {
                        self.refute(formula, store, keep, conflict)?;
                        return Ok(Answer::Refuted);
                    }
                    self.learn(formula, store, keep, conflict)?;
                }
            }
        }
    }

    // Ends the search at a conflict of level zero.
    fn refute<C: ClauseStore, K: Keep>(
        &mut self,
        formula: &Formula,
        store: &C,
        keep: &mut K,
        conflict: u64,
    ) -> Result<(), SolveFault>
        requires search { IsSearch formula.now.variables formula.now.clauses (clauses_of (C.stored store.now) self.old.numbering) self.old.trail self.old.lines (K.lines keep.old) }
        requires flat { decisions self.old.trail ≡ 0 }
        requires conflict { IsConflict (clauses_of (C.stored store.now) self.old.numbering) self.old.trail conflict }
        ensures none { OnOk result (HasNoModel formula.now.clauses) }
        ensures log { OnOk result (IfSome (K.lines keep.new) (IsLog formula.now.variables formula.now.clauses (self.old.lines + 1))) }
        ensures last { OnOk result (IfSome (K.lines keep.new) (λ log. ends_empty log ≡ true)) }
        ensures err { OnErr result (IfSome (K.lines keep.new) (IsOpenLog formula.now.variables formula.now.clauses self.old.lines)) }
        ensures failed { result ≡ Err SolveFault.KeepFailed → Rose (K.faults keep.old) (K.faults keep.new) }
        ensures later { K.faults keep.old ≤ K.faults keep.new }
        ensures origin { K.origin keep.new ≡ K.origin keep.old }
        ensures told { is_some (K.lines keep.new) ≡ is_some (K.lines keep.old) }
    {
        let line = refute(self.alloc, &mut self.trail, conflict)?;
        keep_line(keep, &line)
    }

    // Learns a line from a conflict above level zero, and jumps back.
    fn learn<C: ClauseStore, K: Keep>(
        &mut self,
        formula: &Formula,
        store: &mut C,
        keep: &mut K,
        conflict: u64,
    ) -> Result<(), SolveFault>
        requires each { HasEach (C.stored store.old) self.old.numbering }
        requires search { IsSearch formula.now.variables formula.now.clauses (clauses_of (C.stored store.old) self.old.numbering) self.old.trail self.old.lines (K.lines keep.old) }
        requires room { self.old.lines + 1 < 2 ^ 64 }
        requires deep { 0 < decisions self.old.trail }
        requires conflict { IsConflict (clauses_of (C.stored store.old) self.old.numbering) self.old.trail conflict }
        ensures each { OnOk result (HasEach (C.stored store.new) self.new.numbering) }
        ensures search { OnOk result (IsSearch formula.now.variables formula.now.clauses (clauses_of (C.stored store.new) self.new.numbering) self.new.trail self.new.lines (K.lines keep.new)) }
        ensures lines { OnOk result (self.new.lines ≡ self.old.lines + 1) }
        ensures err { OnErr result (IfSome (K.lines keep.new) (IsOpenLog formula.now.variables formula.now.clauses (self.old.lines + 1))) }
        ensures failed { result ≡ Err SolveFault.KeepFailed → Rose (K.faults keep.old) (K.faults keep.new) }
        ensures later { K.faults keep.old ≤ K.faults keep.new }
        ensures origin { K.origin keep.new ≡ K.origin keep.old }
        ensures told { is_some (K.lines keep.new) ≡ is_some (K.lines keep.old) }
    {
        let line = analyze(
            self.alloc,
            store,
            &self.numbering,
            &mut self.trail,
            &mut self.resolvent,
            conflict,
        )?;
        back_jump(&mut self.trail, line.clause.lits());
        keep_line(keep, &line)?;
        self.numbering.append(store, &line.clause)?;
        self.lines += 1;
        Ok(())
    }
}

// Hands a line to the keep.
fn keep_line<K: Keep>(keep: &mut K, line: &Line) -> Result<(), SolveFault>
    ensures ok { OnOk result (K.lines keep.new ≡ with_line (K.lines keep.old) line.now) }
    ensures err { OnErr result (K.lines keep.new ≡ K.lines keep.old) }
    ensures failed { result ≡ Err SolveFault.KeepFailed → Rose (K.faults keep.old) (K.faults keep.new) }
    ensures later { K.faults keep.old ≤ K.faults keep.new }
    ensures origin { K.origin keep.new ≡ K.origin keep.old }
{
    match keep.line(line) {
        Ok(()) => Ok(()),
        Err(KeepFault::Failed) => Err(SolveFault::KeepFailed),
        Err(KeepFault::Memory) => Err(SolveFault::Memory),
    }
}
