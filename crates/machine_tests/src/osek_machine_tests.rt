// Steps of a task that writes and reads a global, and of a routine that ends at once.
ghost use Rattle.std.specs.Prelude.{◌≡◌, IfOk};
ghost use Rattle.application.specs.InOrder.{IsInOrder};
ghost use Rattle.osek_machine.specs.Sample.{HasOneEach, cell_names, entity_codes, global, point_to, points_of_task};
ghost use Rattle.step_ir.specs.Fits.{Fits};

use application::app::{
    App, Class, Entity, Notes, Numbers, Resources, Routine, Routines, Task, Tasks,
};
use chk_base::expr::Expr;
use chk_base::place::Place;
use chk_base::text::Text;
use chk_base::word::{Width, Word};
use osek_machine::machine::{Machine, Outcome, StateView};
use std::alloc::{AllocError, Global};
use std::test::Fail;
use step_ir::code::{
    Action, CellName, CellNames, Code, EntityCode, EntityCodes, Names, Nexts, Point, Points,
    Target, Traps,
};
use step_ir::event::{Choice, Event, EventAction, Next, Service};

const PLACE: Place = Place {
    line: 1,
    column: 1,
    offset: 0,
};

// A preemptive task that is started at the start, and a routine.
fn application(alloc: Global) -> Result<App, AllocError>
    ensures order { IfOk result IsInOrder }
    ensures one_each { IfOk result HasOneEach }
{
    let mut tasks = Tasks::new(alloc);
    tasks.push(Task {
        name: Text::from_bytes(alloc, b"T")?,
        priority: 1,
        level: 2,
        run_level: 2,
        non_preemptive: false,
        requests: 1,
        autostart: true,
        declares: Numbers::new(alloc),
        internal: None,
    })?;
    let mut routines = Routines::new(alloc);
    routines.push(Routine {
        name: Text::from_bytes(alloc, b"I1")?,
        priority: 1,
        level: 65,
        declares: Numbers::new(alloc),
    })?;
    Ok(App {
        tasks,
        routines,
        resources: Resources::new(alloc),
        res_scheduler: false,
        class: Class::Bcc1,
        mode: Text::new(alloc),
        notes: Notes::new(alloc),
    })
}

// A point that goes on at this one.
fn point(alloc: Global, action: Action, next: u16) -> Result<Point, AllocError>
    ensures { IfOk result (λ point. point ≡ point_to action next) }
{
    let mut nexts = Nexts::new(alloc);
    nexts.push((Expr::Const(1), next))?;
    Ok(Point {
        place: PLACE,
        action,
        traps: Traps::new(alloc),
        next: nexts,
    })
}

fn x() -> Target
    ensures { result ≡ global }
{
    Target {
        base: 0,
        len: 1,
        index: None,
    }
}

// The task writes 1, reads it, asserts that it isn't 0, and ends itself.
fn task_points(alloc: Global) -> Result<Points, AllocError>
    ensures { IfOk result (λ points. points ≡ points_of_task) }
{
    let write = Action::Write {
        target: x(),
        value: Expr::Const(1),
    };
    let read = Action::Read {
        target: x(),
        into: 1,
    };
    let assert = Action::Assert(Expr::Cell {
        at: 1,
        signed: false,
    });
    let mut points = Points::new(alloc);
    points.push(point(alloc, write, 1)?)?;
    points.push(point(alloc, read, 2)?)?;
    points.push(point(alloc, assert, 3)?)?;
    points.push(point(alloc, Action::Service(Service::Terminate), 3)?)?;
    Ok(points)
}

fn cell(alloc: Global, width: Width) -> Result<CellNames, AllocError>
    ensures { IfOk result (λ names. names ≡ cell_names width) }
{
    let mut names = CellNames::new(alloc);
    names.push(CellName {
        text: Text::new(alloc),
        element: None,
        width,
        signed: false,
        start: 0,
    })?;
    Ok(names)
}

fn entities(alloc: Global) -> Result<EntityCodes, AllocError>
    ensures { IfOk result (λ entities. entities ≡ entity_codes) }
{
    let mut end = Points::new(alloc);
    end.push(point(alloc, Action::End, 0)?)?;
    let mut entities = EntityCodes::new(alloc);
    entities.push(EntityCode {
        points: task_points(alloc)?,
        names: cell(alloc, Width::W32)?,
    })?;
    entities.push(EntityCode {
        points: end,
        names: CellNames::new(alloc),
    })?;
    Ok(entities)
}

fn code(alloc: Global, app: &App) -> Result<Code, AllocError>
    requires { HasOneEach app.now }
    ensures { IfOk result (Fits app.now) }
{
    let _ = app;
    Ok(Code {
        entities: entities(alloc)?,
        globals: cell(alloc, Width::W8)?,
        functions: Names::new(alloc),
        cells: 40,
        weight: 0,
    })
}

fn told(e: u8, action: EventAction, next: Next) -> Outcome {
    Outcome::Event(Event {
        actor: Entity(e),
        action,
        next,
        place: PLACE,
    })
}

#[test]
fn a_task_writes_reads_asserts_and_ends(rt: HostRuntime) -> Result<(), Fail> {
    let app = application(rt.alloc())?;
    let code = code(rt.alloc(), &app)?;
    let mut machine = Machine::new(rt.alloc(), &app, &code)?;
    let value = Word::taken(Width::W8, 1);
    let runs = Next::Runs(Entity(0));
    let write = EventAction::Write { cell: 0, value };
    let read = EventAction::Read { cell: 0, value };
    let terminate = EventAction::Service(Service::Terminate);
    assert_eq!(rt; machine.step(&Choice::Go), told(0, write, runs));
    assert_eq!(rt; machine.step(&Choice::Go), told(0, read, runs));
    assert_eq!(rt;
        machine.step(&Choice::Go),
        told(0, EventAction::Assert, runs)
    );
    assert_eq!(rt; machine.step(&Choice::Go), told(0, terminate, Next::Idle));
    assert_eq!(rt; machine.step(&Choice::Go), Outcome::Refused);
    Ok(())
}

#[test]
fn a_refused_arrival_leaves_the_view(rt: HostRuntime) -> Result<(), Fail> {
    let app = application(rt.alloc())?;
    let code = code(rt.alloc(), &app)?;
    let mut machine = Machine::new(rt.alloc(), &app, &code)?;
    let routine = Entity(1);
    let arrives = told(1, EventAction::Arrive, Next::Runs(routine));
    assert_eq!(rt; machine.step(&Choice::Arrive(routine)), arrives);
    let view = machine.state_of();
    assert_eq!(rt;
        view,
        StateView {
            running: Some(routine),
            level: 65,
            stopped: false,
            arrivals: 1
        }
    );
    assert_eq!(rt; machine.step(&Choice::Arrive(routine)), Outcome::Refused);
    assert_eq!(rt; machine.state_of(), view);
    let ends = told(1, EventAction::End, Next::Runs(Entity(0)));
    assert_eq!(rt; machine.step(&Choice::Go), ends);
    Ok(())
}
