// The machine: it keeps the state of the scheduler, and makes its steps without taking memory.
ghost use Rattle.std.specs.Prelude.{◌≡◌, None, Some, true, false, ◌<◌, ◌≤◌, ◌+◌, ◌-◌, ◌^◌, ◌∷◌, [], IfOk, length, slice_index, slice_set, nat_le};
ghost use Rattle.application.specs.InOrder.{IsInOrder};
ghost use Rattle.osek_machine.specs.Beginning.{starts_at};
ghost use Rattle.osek_machine.specs.CellWords.{bits};
ghost use Rattle.osek_machine.specs.Changing.{Changes, IsDeed, IsFinished, IsServable};
ghost use Rattle.osek_machine.specs.Faults.{ended_by, first_or};
ghost use Rattle.osek_machine.specs.Inputs.{input_at};
ghost use Rattle.osek_machine.specs.Kept.{entities_of, state_of};
ghost use Rattle.osek_machine.specs.Performing.{IsPerformed, choice_of};
ghost use Rattle.osek_machine.specs.Steps.{GoesOn, HasRun, IsStep, StandsAt, entity_or_none, start_of, view_of};
ghost use Rattle.step_ir.specs.Deeds.{Moves, Stops, end_of, happened, next_of, serve};
ghost use Rattle.step_ir.specs.Fits.{Fits};
ghost use Rattle.step_ir.specs.Numbers.{put, tail};
ghost use Rattle.step_ir.specs.PointStep.{behaviour_of};
ghost use Rattle.step_ir.specs.Reschedule.{dispatch, put_back, reschedule_after};
ghost use Rattle.step_ir.specs.SchedulerState.{actor, level_at, scene};
ghost use Rattle.step_ir.specs.SchedulerStep.{arrive, effect, leave, may_arrive, queue, without_routine};
ghost use Rattle.step_ir.specs.Services.{fault_of, leaving, others};
ghost use Rattle.step_ir.specs.Setting.{gives_way, highest_level, setting_of};

use crate::faults::{
    fault, fault_if, holds_nothing, is_in_section, is_last, section_fault, status,
};
use crate::held::{Holding, current_level, is_held, put_holding, release_all, release_last};
use crate::levels::{gives_way, is_routine, is_task, level_at, limit_at};
use crate::lists::{
    drop_routine, drop_section, number_at, one_more, put_routine, put_section, restart,
    restart_point,
};
use crate::perform::Performed;
use crate::points::{input_at, perform_at, place_at, point_number};
use crate::ready::{Waiting, put_first, take_highest};
use crate::starts::start_cells;
use application::app::{App, Entity};
use chk_base::cells::Cells;
use chk_base::place::Place;
use chk_base::word::Word;
use std::alloc::{AllocError, Global};
use std::marker::Model;
use step_ir::code::Code;
use step_ir::event::{Choice, Event, EventAction, Failure, Next, Section, Service};
use step_ir::law::{
    codes_tell_no_failures, few_numbers, first_entries, served_services, sound_levels,
};

/// The answer to a choice: an event, the event of a failure, by which the machine is stopped, or nothing, where the choice isn't
/// permitted.
#[derive(Clone, Copy, PartialEq, Eq, Debug)]
pub enum Outcome {
    Event(Event),
    Failed(Event),
    Refused,
}

/// What a machine shows of its state: the innermost active routine, else the running task; the current level, 0 where nobody runs; whether a
/// failure has stopped it; and how many routines have arrived so far.
#[derive(Clone, Copy, PartialEq, Eq, Debug)]
pub struct StateView {
    pub running: Option<Entity>,
    pub level: u8,
    pub stopped: bool,
    pub arrivals: u32,
}

/// The scheduler over an application and its code.
#[derive(Drop)]
pub struct Machine<'a> {
    app: &'a App,
    code: &'a Code,
    cells: Cells,
    // Room for the values of a call's sets.
    values: Vec<u32>,
    // The point of each entity.
    points: Vec<u16>,
    // The last taken first, of all entities.
    held: Vec<Holding>,
    // Of all levels; the order within each is that of its list.
    ready: Vec<Waiting>,
    running: Option<u8>,
    // The innermost first.
    active: Vec<u8>,
    sections: Vec<Section>,
    requests: Vec<u8>,
    arrivals: u32,
    stopped: bool,
}

impl<'a> Model for Machine<'a> {
    ghost use Rattle.osek_machine.specs.Kept.{Kept};

    ghost Value = { Kept };

    ghost use Rattle.chk_base.specs.contracts.expr.Expr as e;
    ghost use Rattle.std.specs.Coded.{codes};

    ghost coded = { Prim.hlevel (codes, e.the_row.coded) };

    ghost use Rattle.osek_machine.specs.Inside.{kept_of, IsRoomy};

    ghost view = { kept_of };

    ghost invariant = { IsRoomy };
}

// The actor.
fn actor_of(active: &[u8], running: Option<u8>) -> Option<u8>
    ensures { result ≡ first_or active.now running }
{
    match active.first() {
        Some(r) => Some(*r),
        None => running,
    }
}

// A task that is started at the start.
fn starts(app: &App, t: u8) -> bool
    requires { t < length app.now.tasks }
    ensures { result ≡ starts_at app.now t }
{
    match app.tasks.get(t as usize) {
        Some(task) => task.autostart,
        None => unreachable!(),
    }
}

fn entity_of(e: Option<u8>) -> Option<Entity>
    ensures { result ≡ entity_or_none e }
{
    match e {
        None => None,
        Some(e) => Some(Entity(e)),
    }
}

// Calls of laws, as `sound_levels`, do nothing: the proofs take what they ensure.
impl<'a> Machine<'a> {
    /// A machine at the start, with room for every list that it grows.
    pub fn new(alloc: Global, app: &'a App, code: &'a Code) -> Result<Machine<'a>, AllocError>
        requires order { IsInOrder app.now }
        requires fit { Fits app.now code.now }
        ensures start { IfOk result (StandsAt app.now code.now (start_of app.now code.now)) }
        ensures run { IfOk result (HasRun app.now code.now [] []) }
        ensures arrivals { IfOk result (λ machine. (view_of machine).arrivals ≡ 0) }
    {
        sound_levels();
        let tasks = app.tasks.len();
        let count = tasks + app.routines.len();
        let cells = start_cells(alloc, code)?;
        let room = cells.len();
        let mut machine = Machine {
            app,
            code,
            cells,
            values: Vec::with_capacity(alloc, room)?,
            points: vec![in alloc; 0u16; count]?,
            held: Vec::with_capacity(alloc, 256)?,
            ready: Vec::with_capacity(alloc, 128)?,
            running: None,
            active: Vec::with_capacity(alloc, 81)?,
            sections: Vec::with_capacity(alloc, 9)?,
            requests: vec![in alloc; 0u8; tasks]?,
            arrivals: 0,
            stopped: false,
        };
        for t in 0..tasks {
            if starts(app, t as u8) {
                machine.queue(t as u8);
            }
        }
        machine.dispatch();
        Ok(machine)
    }

    /// What the machine shows of its state.
    pub fn state_of(&self) -> StateView
        ensures { result ≡ view_of self.now }
    {
        StateView {
            running: entity_of(self.actor()),
            level: self.level(),
            stopped: self.stopped,
            arrivals: self.arrivals,
        }
    }

    /// The number of the cell that takes the word of the input at which the running routine or task stands. None where it stands at
    /// no input, where nobody runs, and after a failure.
    pub fn input(&self) -> Option<u16>
        ensures { result ≡ input_at self.now.app self.now.code (state_of self.now) }
    {
        if self.stopped {
            return None;
        }
        let e = self.actor()?;
        input_at(self.code, e, point_number(self.points.as_slice(), e))
    }

    // The active routine of the greatest level, else the running task.
    fn actor(&self) -> Option<u8>
        ensures { result ≡ actor (setting_of self.now.app) (state_of self.now) }
    {
        actor_of(self.active.as_slice(), self.running)
    }

    // The current level.
    fn level(&self) -> u8
        ensures { result ≡ level_at (setting_of self.now.app) (state_of self.now)
            (actor (setting_of self.now.app) (state_of self.now)) }
    {
        match self.actor() {
            None => 0,
            Some(e) => current_level(self.app, self.held.as_slice(), e),
        }
    }

    // Who runs.
    fn next(&self) -> Next
        ensures { result ≡ next_of self.now.stopped (actor (setting_of self.now.app) (state_of self.now)) }
    {
        if self.stopped {
            return Next::Stop;
        }
        match self.actor() {
            None => Next::Idle,
            Some(e) => Next::Runs(Entity(e)),
        }
    }

    fn told(&self, e: u8, action: EventAction, place: Place) -> Event
        ensures { result ≡ happened e action place
            (next_of self.now.stopped (actor (setting_of self.now.app) (state_of self.now))) }
    {
        Event {
            actor: Entity(e),
            action,
            next: self.next(),
            place,
        }
    }

    fn is_full(&self, t: u8) -> bool
        ensures { result ≡ nat_le ((setting_of self.now.app).limit t) (slice_index self.now.requests t) }
    {
        limit_at(self.app, t) <= number_at(self.requests.as_slice(), t)
    }

    fn is_full_after(&self, e: u8, t: u8) -> bool
        ensures { result ≡ nat_le ((setting_of self.now.app).limit t)
            (others (scene (setting_of self.now.app) (state_of self.now) e) t) }
    {
        let requests = number_at(self.requests.as_slice(), t);
        let left = if t == e {
            requests.saturating_sub(1)
        } else {
            requests
        };
        limit_at(self.app, t) <= left
    }

    fn leaving(&self, e: u8, rest: Option<Failure>) -> Option<Failure>
        ensures { result ≡ leaving (setting_of self.now.app)
            (scene (setting_of self.now.app) (state_of self.now) e) rest }
    {
        let inside = is_in_section(self.sections.as_slice());
        let holds = !holds_nothing(self.held.as_slice(), e);
        fault_if(
            inside,
            fault(8),
            fault_if(
                !is_task(self.app, e),
                status(2),
                fault_if(holds, status(6), rest),
            ),
        )
    }

    fn is_taken(&self, e: u8, r: u8) -> bool
        ensures { result ≡ (scene (setting_of self.now.app) (state_of self.now) e).is_held r }
    {
        is_held(self.held.as_slice(), r)
    }

    // The first error of a service.
    fn fault(&self, e: u8, service: Service) -> Option<Failure>
        ensures { result ≡ fault_of (setting_of self.now.app)
            (scene (setting_of self.now.app) (state_of self.now) e) service }
    {
        let sections = self.sections.as_slice();
        let inside = is_in_section(sections);
        match service {
            Service::Activate(t) => fault_if(
                inside,
                fault(8),
                fault_if(self.is_full(t.0), status(4), None),
            ),
            Service::Terminate => self.leaving(e, None),
            Service::Chain(t) => self.leaving(
                e,
                fault_if(self.is_full_after(e, t.0), status(4), None),
            ),
            Service::Schedule => self.leaving(e, None),
            Service::Get(r) => fault_if(
                inside,
                fault(8),
                fault_if(self.is_taken(e, r), status(1), None),
            ),
            Service::Release(r) => {
                let last = is_last(self.held.as_slice(), e, r);
                fault_if(inside, fault(8), fault_if(!last, status(5), None))
            }
            _ => section_fault(sections, service),
        }
    }

    // The entity's own part of a step.
    fn perform(&mut self, e: u8, word: Option<Word>) -> Performed
        ensures performed { IsPerformed
            ((behaviour_of self.old.code).wants e (slice_index self.old.points e) (bits self.old.cells))
            (choice_of word) self.old.cells result self.new.cells }
        ensures kept { self.new ≡ record self.old { cells = self.new.cells } }
    {
        let at = point_number(self.points.as_slice(), e);
        perform_at(
            self.app,
            self.code,
            e,
            at,
            &mut self.cells,
            &mut self.values,
            word,
        )
    }

    // The entity goes on at this point.
    fn advance(&mut self, e: u8, next: u16)
        requires { e < entities_of self.old.app }
        ensures { self.new ≡ record self.old { points = slice_set self.old.points e next } }
    {
        self.points[e as usize] = next;
    }

    fn stop(&mut self)
        ensures { self.new ≡ record self.old { stopped = true } }
    {
        self.stopped = true;
    }

    // The running task's request ends.
    fn end_request(&mut self, e: u8)
        requires { self.old.running ≡ Some e }
        ensures { self.new ≡ record self.old {
          running = None;
          requests = slice_set self.old.requests e (slice_index self.old.requests e - 1);
        } }
    {
        self.running = None;
        self.requests[e as usize] -= 1;
    }

    // The first entry of greatest level runs, where no task does.
    fn dispatch(&mut self)
        requires { self.old.running ≡ None }
        ensures { Changes (λ app beh. dispatch app beh) self.old self.new }
    {
        first_entries();
        if let Some(w) = take_highest(&mut self.ready) {
            restart(&mut self.points, &mut self.held, w);
            self.running = Some(w.task);
        }
    }

    // A request is queued last at its level.
    fn queue(&mut self, t: u8)
        requires known { t < length self.old.app.tasks }
        requires room { slice_index self.old.requests t < 8 }
        ensures state { Changes (λ app beh. queue app t) self.old self.new }
        ensures running { self.new.running ≡ self.old.running }
        ensures requests { self.new.requests
            ≡ slice_set self.old.requests t (slice_index self.old.requests t + 1) }
    {
        few_numbers();
        let level = level_at(self.app, t);
        self.ready.push_reserved(Waiting {
            level,
            task: t,
            begun: false,
        });
        one_more(&mut self.requests, t);
    }

    // The running task goes to the front of the list of this level.
    fn put_back(&mut self, level: u8, e: u8)
        requires runs { self.old.running ≡ Some e }
        requires low { level ≤ highest_level }
        ensures state { Changes (λ app beh. put_back level e) self.old self.new }
        ensures idle { self.new.running ≡ None }
    {
        few_numbers();
        let w = Waiting {
            level,
            task: e,
            begun: true,
        };
        put_first(&mut self.ready, w);
        self.running = None;
    }

    // A preemptive task gives way.
    fn reschedule_after(&mut self, e: u8)
        requires { gives_way (setting_of self.old.app) e ≡ true → self.old.running ≡ Some e }
        ensures { Changes (λ app beh. reschedule_after app beh e) self.old self.new }
    {
        if !gives_way(self.app, e) {
            return;
        }
        let level = current_level(self.app, self.held.as_slice(), e);
        self.put_back(level, e);
        self.dispatch();
    }

    // The entity holds a further resource.
    fn hold(&mut self, e: u8, r: u8)
        requires known { e < entities_of self.old.app }
        requires free { (scene (setting_of self.old.app) (state_of self.old) e).is_held r ≡ false }
        ensures { Changes (λ app beh st. record st { held = put st.held e (r ∷ st.held e) })
            self.old self.new }
    {
        few_numbers();
        put_holding(
            &mut self.held,
            Holding {
                entity: e,
                resource: r,
            },
        );
    }

    // The entity's last taken resource is free.
    fn release(&mut self, e: u8)
        ensures { Changes (λ app beh st. record st { held = put st.held e (tail (st.held e)) })
            self.old self.new }
    {
        release_last(&mut self.held, e);
    }

    fn open(&mut self, section: Section)
        requires { length self.old.sections < 8 }
        ensures { self.new ≡ record self.old { sections = section ∷ self.old.sections } }
    {
        put_section(&mut self.sections, section);
    }

    fn close(&mut self)
        ensures { self.new ≡ record self.old { sections = tail self.old.sections } }
    {
        drop_section(&mut self.sections);
    }

    fn activate(&mut self, e: u8, t: u8)
        requires { IsServable self.old e (Service.Activate (record { 0 = t })) }
        ensures { Changes (λ app beh. effect app beh e (Service.Activate (record { 0 = t })))
            self.old self.new }
    {
        served_services();
        let _ = &self.points;
        self.queue(t);
        self.reschedule_after(e);
    }

    fn terminate(&mut self, e: u8)
        requires { IsServable self.old e Service.Terminate }
        ensures { Changes (λ app beh. effect app beh e Service.Terminate) self.old self.new }
    {
        served_services();
        let _ = &self.points;
        self.end_request(e);
        self.dispatch();
    }

    fn chain(&mut self, e: u8, t: u8)
        requires { IsServable self.old e (Service.Chain (record { 0 = t })) }
        ensures { Changes (λ app beh. effect app beh e (Service.Chain (record { 0 = t })))
            self.old self.new }
    {
        served_services();
        let _ = &self.points;
        self.end_request(e);
        self.queue(t);
        self.dispatch();
    }

    fn schedule(&mut self, e: u8)
        requires { IsServable self.old e Service.Schedule }
        ensures { Changes (λ app beh. effect app beh e Service.Schedule) self.old self.new }
    {
        served_services();
        let level = level_at(self.app, e);
        self.put_back(level, e);
        self.dispatch();
    }

    fn get_resource(&mut self, e: u8, r: u8)
        requires { IsServable self.old e (Service.Get r) }
        ensures { Changes (λ app beh. effect app beh e (Service.Get r)) self.old self.new }
    {
        let _ = &self.points;
        self.hold(e, r);
    }

    fn release_resource(&mut self, e: u8, r: u8)
        requires { IsServable self.old e (Service.Release r) }
        ensures { Changes (λ app beh. effect app beh e (Service.Release r)) self.old self.new }
    {
        let _ = &self.points;
        self.release(e);
        self.reschedule_after(e);
    }

    fn disable_all(&mut self, e: u8)
        requires { IsServable self.old e Service.DisableAll }
        ensures { Changes (λ app beh. effect app beh e Service.DisableAll) self.old self.new }
    {
        self.open(Section::Disabled);
    }

    fn suspend_all(&mut self, e: u8)
        requires { IsServable self.old e Service.SuspendAll }
        ensures { Changes (λ app beh. effect app beh e Service.SuspendAll) self.old self.new }
    {
        self.open(Section::AllSuspended);
    }

    fn suspend_os(&mut self, e: u8)
        requires { IsServable self.old e Service.SuspendOs }
        ensures { Changes (λ app beh. effect app beh e Service.SuspendOs) self.old self.new }
    {
        self.open(Section::OsSuspended);
    }

    // The effect of a service without an error.
    fn serve(&mut self, e: u8, service: Service)
        requires { IsServable self.old e service }
        ensures { Changes (λ app beh. effect app beh e service) self.old self.new }
    {
        match service {
            Service::Activate(t) => self.activate(e, t.0),
            Service::Terminate => self.terminate(e),
            Service::Chain(t) => self.chain(e, t.0),
            Service::Schedule => self.schedule(e),
            Service::Get(r) => self.get_resource(e, r),
            Service::Release(r) => self.release_resource(e, r),
            Service::DisableAll => self.disable_all(e),
            Service::SuspendAll => self.suspend_all(e),
            Service::SuspendOs => self.suspend_os(e),
            Service::EnableAll => self.close(),
            Service::ResumeAll => self.close(),
            Service::ResumeOs => self.close(),
        }
    }

    // A failure is told.
    fn fails(&mut self, e: u8, failure: Failure, service: Option<Service>, place: Place) -> Outcome
        ensures { IsDeed (Stops failure service) e place self.old result self.new }
    {
        self.stop();
        Outcome::Failed(self.told(e, EventAction::Fail(failure, service), place))
    }

    // The entity's own step.
    fn moves(&mut self, e: u8, action: EventAction, next: u16, place: Place) -> Outcome
        requires up { self.old.stopped ≡ false }
        requires known { e < entities_of self.old.app }
        ensures { IsDeed (Moves action (record { state = next; globals = bits self.old.cells }))
            e place self.old result self.new }
    {
        let _ = &self.points;
        self.advance(e, next);
        Outcome::Event(self.told(e, action, place))
    }

    // A service, after its first error.
    fn calls(&mut self, e: u8, service: Service, next: u16, place: Place) -> Outcome
        requires up { self.old.stopped ≡ false }
        requires acts { actor (setting_of self.old.app) (state_of self.old) ≡ Some e }
        ensures { IsDeed
            (serve service (record { state = next; globals = bits self.old.cells })
            (fault_of (setting_of self.old.app)
            (scene (setting_of self.old.app) (state_of self.old) e) service))
            e place self.old result self.new }
    {
        let _ = &self.points;
        if let Some(failure) = self.fault(e, service) {
            return self.fails(e, failure, Some(service), place);
        }
        self.advance(e, next);
        self.serve(e, service);
        Outcome::Event(self.told(e, EventAction::Service(service), place))
    }

    // The first active routine is gone.
    fn drop_first(&mut self)
        ensures { self.new ≡ record self.old { active = tail self.old.active } }
    {
        drop_routine(&mut self.active);
    }

    // What follows a routine's end.
    fn after_routine(&mut self)
        ensures { Changes (λ app beh. leave app beh) self.old self.new }
    {
        if self.active.len() != 0 {
            return;
        }
        match self.running {
            None => self.dispatch(),
            Some(t) => self.reschedule_after(t),
        }
    }

    // A routine ends.
    fn leave(&mut self, e: u8)
        requires acts { actor (setting_of self.old.app) (state_of self.old) ≡ Some e }
        requires routine { (setting_of self.old.app).is_task e ≡ false }
        ensures { Changes
            (λ app beh st. leave app beh (record st { active = without_routine e st.active }))
            self.old self.new }
    {
        let _ = &self.points;
        self.drop_first();
        self.after_routine();
    }

    // The failure of a body's end, if it is one.
    fn ending(&self, e: u8) -> Option<Failure>
        ensures { end_of (setting_of self.now.app)
            (scene (setting_of self.now.app) (state_of self.now) e) ≡ ended_by result }
    {
        if is_task(self.app, e) {
            return Some(fault(7));
        }
        if is_in_section(self.sections.as_slice()) {
            return Some(fault(9));
        }
        if !holds_nothing(self.held.as_slice(), e) {
            return Some(fault(9));
        }
        None
    }

    // The end of a body.
    fn ends(&mut self, e: u8, place: Place) -> Outcome
        requires up { self.old.stopped ≡ false }
        requires acts { actor (setting_of self.old.app) (state_of self.old) ≡ Some e }
        ensures { IsDeed
            (end_of (setting_of self.old.app) (scene (setting_of self.old.app) (state_of self.old) e))
            e place self.old result self.new }
    {
        if let Some(failure) = self.ending(e) {
            return self.fails(e, failure, None, place);
        }
        self.leave(e);
        Outcome::Event(self.told(e, EventAction::End, place))
    }

    fn may_arrive(&self, r: u8) -> bool
        ensures { result ≡ may_arrive (setting_of self.now.app) (state_of self.now) r }
    {
        if !is_routine(self.app, r) {
            return false;
        }
        self.level() < level_at(self.app, r) && !is_in_section(self.sections.as_slice())
    }

    // A routine begins.
    fn begin(&mut self, r: u8)
        requires may { may_arrive (setting_of self.old.app) (state_of self.old) r ≡ true }
        requires few { self.old.arrivals < 2 ^ 32 - 1 }
        ensures { Changes (λ app beh. arrive beh r) self.old self.new }
    {
        put_routine(&mut self.active, r);
        restart_point(&mut self.points, r);
        release_all(&mut self.held, r);
        self.arrivals += 1;
    }

    fn arrive(&mut self, r: u8) -> Outcome
        requires up { self.old.stopped ≡ false }
        requires few { self.old.arrivals < 2 ^ 32 - 1 }
        ensures { IsStep (Choice.Arrive (record { 0 = r })) self.old result self.new }
    {
        let place = place_at(self.code, r, 0);
        if !self.may_arrive(r) {
            return Outcome::Refused;
        }
        self.begin(r);
        Outcome::Event(self.told(r, EventAction::Arrive, place))
    }

    // What is left of a step, after the entity's own part.
    fn finish(&mut self, e: u8, performed: Performed, place: Place) -> Outcome
        requires up { self.old.stopped ≡ false }
        requires acts { actor (setting_of self.old.app) (state_of self.old) ≡ Some e }
        ensures { IsFinished performed e place self.old result self.new }
    {
        let _ = &self.points;
        match performed {
            Performed::Did { action, next } => self.moves(e, action, next, place),
            Performed::Calls { service, next } => self.calls(e, service, next, place),
            Performed::Ends => self.ends(e, place),
            Performed::Fails(failure) => self.fails(e, failure, None, place),
            Performed::Refused => Outcome::Refused,
        }
    }

    fn go(&mut self, word: Option<Word>) -> Outcome
        requires up { self.old.stopped ≡ false }
        ensures { IsStep (choice_of word) self.old result self.new }
    {
        codes_tell_no_failures();
        let Some(e) = self.actor() else {
            return Outcome::Refused;
        };
        let place = place_at(self.code, e, point_number(self.points.as_slice(), e));
        let performed = self.perform(e, word);
        self.finish(e, performed, place)
    }

    fn answer(&mut self, choice: &Choice) -> Outcome
        requires { self.old.arrivals < 2 ^ 32 - 1 }
        ensures { IsStep choice.now self.old result self.new }
    {
        if self.stopped {
            return Outcome::Refused;
        }
        match *choice {
            Choice::Arrive(r) => self.arrive(r.0),
            Choice::Go => self.go(None),
            Choice::GoWith(word) => self.go(Some(word)),
        }
    }

    /// One step. It takes no memory.
    pub fn step(&mut self, choice: &Choice) -> Outcome
        requires { (view_of self.old).arrivals < 2 ^ 32 - 1 }
        ensures step { IsStep choice.now self.old result self.new }
        ensures run { GoesOn choice.now self.old result self.new }
        ensures arrivals { (view_of self.new).arrivals ≤ (view_of self.old).arrivals + 1 }
    {
        self.answer(choice)
    }
}
