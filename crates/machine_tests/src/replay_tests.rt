// Schedules over a small application: a task that takes an input of each type and then fails, a routine that clears a global and sets it
// again, and a routine above it that asserts that the global isn't 0.
ghost use Rattle.std.specs.Prelude.{◌≡◌, length, ◌≤◌, ◌++◌, ◌∷◌, [], false, IfOk, OnOk};
ghost use Rattle.application.specs.InOrder.{IsInOrder};
ghost use Rattle.osek_machine.specs.Sample.{global, point_to};
ghost use Rattle.replay.specs.Sample.{HasThree, cell, cells_of_task, entity_codes, points_of_asserting, points_of_clearing, points_of_task, routine_of_sample, task_of_sample};
ghost use Rattle.step_ir.specs.Fits.{Fits};

use application::app::{
    App, Class, Entity, Notes, Numbers, Resources, Routine, Routines, Task, Tasks,
};
use chk_base::expr::Expr;
use chk_base::place::Place;
use chk_base::text::Text;
use chk_base::word::{Width, Word};
use osek_machine::machine::StateView;
use replay::run::{ReplayFault, replay};
use replay::schedule::{ScheduleFault, read_schedule};
use std::alloc::{AllocError, Global};
use std::test::Fail;
use step_ir::code::{
    Action, CellName, CellNames, Code, EntityCode, EntityCodes, Names, Nexts, Point, Points,
    Target, Traps,
};
use step_ir::event::{Choice, Event, EventAction, Failure, Next, Service};

const PLACE: Place = Place {
    line: 1,
    column: 1,
    offset: 0,
};

// A preemptive task of level 2 that is started at the start.
fn task(alloc: Global) -> Result<Task, AllocError>
    ensures { IfOk result (λ task. task ≡ task_of_sample) }
{
    Ok(Task {
        name: Text::from_bytes(alloc, b"T")?,
        priority: 1,
        level: 2,
        run_level: 2,
        non_preemptive: false,
        requests: 1,
        autostart: true,
        declares: Numbers::new(alloc),
        internal: None,
    })
}

fn routine(alloc: Global, name: &[u8], priority: u8) -> Result<Routine, AllocError>
    requires { priority ≤ 16 }
    ensures { IfOk result (λ routine. routine ≡ routine_of_sample name.now priority) }
{
    Ok(Routine {
        name: Text::from_bytes(alloc, name)?,
        priority,
        level: 64 + priority,
        declares: Numbers::new(alloc),
    })
}

fn application(alloc: Global) -> Result<App, AllocError>
    ensures order { IfOk result IsInOrder }
    ensures three { IfOk result HasThree }
{
    let mut tasks = Tasks::new(alloc);
    tasks.push(task(alloc)?)?;
    let mut routines = Routines::new(alloc);
    routines.push(routine(alloc, b"I", 1)?)?;
    routines.push(routine(alloc, b"J", 2)?)?;
    Ok(App {
        tasks,
        routines,
        resources: Resources::new(alloc),
        res_scheduler: false,
        class: Class::Bcc1,
        mode: Text::new(alloc),
        notes: Notes::new(alloc),
    })
}

// Puts a point that goes on at this one.
fn put(points: &mut Points, alloc: Global, action: Action, next: u16) -> Result<(), AllocError>
    ensures { OnOk result (points.new ≡ points.old ++ point_to action next ∷ []) }
{
    let mut nexts = Nexts::new(alloc);
    nexts.push((Expr::Const(1), next))?;
    points.push(Point {
        place: PLACE,
        action,
        traps: Traps::new(alloc),
        next: nexts,
    })
}

fn x() -> Target
    ensures { result ≡ global }
{
    Target {
        base: 0,
        len: 1,
        index: None,
    }
}

fn task_points(alloc: Global) -> Result<Points, AllocError>
    ensures { IfOk result (λ points. points ≡ points_of_task) }
{
    let mut points = Points::new(alloc);
    put(&mut points, alloc, Action::Service(Service::DisableAll), 1)?;
    put(&mut points, alloc, Action::Service(Service::EnableAll), 2)?;
    put(&mut points, alloc, Action::Input(1), 3)?;
    put(&mut points, alloc, Action::Input(2), 4)?;
    put(&mut points, alloc, Action::Input(3), 5)?;
    put(&mut points, alloc, Action::Input(4), 6)?;
    put(&mut points, alloc, Action::Input(5), 7)?;
    put(&mut points, alloc, Action::Input(6), 8)?;
    put(&mut points, alloc, Action::Input(7), 9)?;
    put(&mut points, alloc, Action::Assert(Expr::Const(0)), 9)?;
    Ok(points)
}

// Puts a cell without a name.
fn put_cell(
    names: &mut CellNames,
    alloc: Global,
    width: Width,
    signed: bool,
    start: u32,
) -> Result<(), AllocError>
    ensures { OnOk result (names.new ≡ names.old ++ cell width signed start ∷ []) }
{
    names.push(CellName {
        text: Text::new(alloc),
        element: None,
        width,
        signed,
        start,
    })
}

fn task_cells(alloc: Global) -> Result<CellNames, AllocError>
    ensures { IfOk result (λ names. names ≡ cells_of_task) }
{
    let mut names = CellNames::new(alloc);
    put_cell(&mut names, alloc, Width::W1, false, 0)?;
    put_cell(&mut names, alloc, Width::W8, false, 0)?;
    put_cell(&mut names, alloc, Width::W8, true, 0)?;
    put_cell(&mut names, alloc, Width::W16, false, 0)?;
    put_cell(&mut names, alloc, Width::W16, true, 0)?;
    put_cell(&mut names, alloc, Width::W32, false, 0)?;
    put_cell(&mut names, alloc, Width::W32, true, 0)?;
    Ok(names)
}

fn clearing_points(alloc: Global) -> Result<Points, AllocError>
    ensures { IfOk result (λ points. points ≡ points_of_clearing) }
{
    let clear = Action::Write {
        target: x(),
        value: Expr::Const(0),
    };
    let set = Action::Write {
        target: x(),
        value: Expr::Const(1),
    };
    let mut points = Points::new(alloc);
    put(&mut points, alloc, clear, 1)?;
    put(&mut points, alloc, set, 2)?;
    put(&mut points, alloc, Action::End, 2)?;
    Ok(points)
}

fn asserting_points(alloc: Global) -> Result<Points, AllocError>
    ensures { IfOk result (λ points. points ≡ points_of_asserting) }
{
    let read = Action::Read {
        target: x(),
        into: 8,
    };
    let assert = Action::Assert(Expr::Cell {
        at: 8,
        signed: false,
    });
    let mut points = Points::new(alloc);
    put(&mut points, alloc, read, 1)?;
    put(&mut points, alloc, assert, 2)?;
    put(&mut points, alloc, Action::End, 2)?;
    Ok(points)
}

fn one_cell(alloc: Global, width: Width, start: u32) -> Result<CellNames, AllocError>
    ensures { IfOk result (λ names. names ≡ cell width false start ∷ []) }
{
    let mut names = CellNames::new(alloc);
    put_cell(&mut names, alloc, width, false, start)?;
    Ok(names)
}

fn entities(alloc: Global) -> Result<EntityCodes, AllocError>
    ensures { IfOk result (λ entities. entities ≡ entity_codes) }
{
    let mut entities = EntityCodes::new(alloc);
    entities.push(EntityCode {
        points: task_points(alloc)?,
        names: task_cells(alloc)?,
    })?;
    entities.push(EntityCode {
        points: clearing_points(alloc)?,
        names: CellNames::new(alloc),
    })?;
    entities.push(EntityCode {
        points: asserting_points(alloc)?,
        names: one_cell(alloc, Width::W32, 0)?,
    })?;
    Ok(entities)
}

fn code(alloc: Global, app: &App) -> Result<Code, AllocError>
    requires { HasThree app.now }
    ensures { IfOk result (Fits app.now) }
{
    let _ = app;
    Ok(Code {
        entities: entities(alloc)?,
        globals: one_cell(alloc, Width::W8, 1)?,
        functions: Names::new(alloc),
        cells: 153,
        weight: 0,
    })
}

fn word(width: Width, bits: u32) -> Choice {
    Choice::GoWith(Word::taken(width, bits))
}

// A text is read as these choices.
fn is_read(
    alloc: Global,
    app: &App,
    code: &Code,
    bytes: &[u8],
    choices: &[Choice],
) -> Result<bool, AllocError>
    requires order { IsInOrder app.now }
    requires fit { Fits app.now code.now }
    requires short { length bytes.now ≤ 262144 }
{
    let text = Text::from_bytes(alloc, bytes)?;
    match read_schedule(alloc, &text, app, code) {
        Ok(read) => Ok(read.items() == choices),
        Err(_) => Ok(false),
    }
}

// A text is refused at this line, before which so many bytes stand.
fn is_wrong(
    alloc: Global,
    app: &App,
    code: &Code,
    bytes: &[u8],
    line: u32,
    offset: u32,
) -> Result<bool, AllocError>
    requires order { IsInOrder app.now }
    requires fit { Fits app.now code.now }
{
    if bytes.len() > 262_144 {
        return Ok(false);
    }
    let text = Text::from_bytes(alloc, bytes)?;
    let place = Place {
        line,
        column: 1,
        offset,
    };
    match read_schedule(alloc, &text, app, code) {
        Ok(_) => Ok(false),
        Err(fault) => Ok(fault == ScheduleFault::Line(place)),
    }
}

#[test]
fn values_are_read_by_the_type_of_the_running_input(rt: HostRuntime) -> Result<(), Fail> {
    let alloc = rt.alloc();
    let app = application(alloc)?;
    let code = code(alloc, &app)?;
    let greatest =
        b"go\ngo\ngo 1\ngo 255\ngo 127\ngo 65535\ngo 32767\ngo 4294967295\ngo 2147483647\ngo\ngo 300";
    let choices = [
        Choice::Go,
        Choice::Go,
        word(Width::W1, 1),
        word(Width::W8, 255),
        word(Width::W8, 127),
        word(Width::W16, 65535),
        word(Width::W16, 32767),
        word(Width::W32, 4294967295),
        word(Width::W32, 2147483647),
        Choice::Go,
        word(Width::W32, 300),
    ];
    assert!(rt; is_read(alloc, &app, &code, greatest, &choices)?);
    let least = b"go\ngo\ngo 0\ngo 0\ngo -128\ngo 0\ngo -32768\ngo 0\ngo -2147483648\n";
    let choices = [
        Choice::Go,
        Choice::Go,
        word(Width::W1, 0),
        word(Width::W8, 0),
        word(Width::W8, 128),
        word(Width::W16, 0),
        word(Width::W16, 32768),
        word(Width::W32, 0),
        word(Width::W32, 2147483648),
    ];
    assert!(rt; is_read(alloc, &app, &code, least, &choices)?);
    Ok(())
}

#[test]
fn lines_that_are_not_permitted_leave_the_state(rt: HostRuntime) -> Result<(), Fail> {
    let alloc = rt.alloc();
    let app = application(alloc)?;
    let code = code(alloc, &app)?;
    assert!(rt; is_read(alloc, &app, &code, b"", &[])?);
    assert!(rt;
        is_read(
            alloc,
            &app,
            &code,
            b"go -2147483648",
            &[word(Width::W32, 2147483648)]
        )?
    );
    let text = b"go 4294967295\ngo\narrive J\ngo\ngo 1\n";
    let choices = [
        word(Width::W32, 4294967295),
        Choice::Go,
        Choice::Arrive(Entity(2)),
        Choice::Go,
        word(Width::W1, 1),
    ];
    assert!(rt; is_read(alloc, &app, &code, text, &choices)?);
    Ok(())
}

// Texts, each with the number of its first wrong line and how many bytes stand before that.
const ROWS: [(&[u8], u32, u32); 16] = [
    (b"\n", 1, 0),
    (b"go \n", 1, 0),
    (b"go -0", 1, 0),
    (b"go 01", 1, 0),
    (b"go +1", 1, 0),
    (b"go\r\n", 1, 0),
    (b"arrive T", 1, 0),
    (b"arrive", 1, 0),
    (b"go 4294967296", 1, 0),
    (b"go -2147483649", 1, 0),
    (b"go\n\ngo", 2, 3),
    (b"go\ngo\ngo 2\ngo", 3, 6),
    (b"go\ngo\ngo 1\ngo 256", 4, 11),
    (b"go\ngo\ngo 1\ngo -1", 4, 11),
    (b"go\ngo\ngo 1\ngo 5\ngo 128\n", 5, 16),
    (b"go\ngo\ngo 1\ngo 5\ngo -129\n", 5, 16),
];

fn rows() -> &'static [(&'static [u8], u32, u32)] {
    &ROWS
}

#[test]
fn the_first_wrong_line_is_refused(rt: HostRuntime) -> Result<(), Fail> {
    let alloc = rt.alloc();
    let app = application(alloc)?;
    let code = code(alloc, &app)?;
    for (text, line, offset) in rows() {
        assert!(rt; is_wrong(alloc, &app, &code, text, *line, *offset)?);
    }
    Ok(())
}

fn event(actor: u8, action: EventAction, next: Next) -> Event {
    Event {
        actor: Entity(actor),
        action,
        next,
        place: PLACE,
    }
}

// The replay of a text ends at a choice that isn't permitted: the step, what is shown, and the events before.
fn ends_at(
    alloc: Global,
    app: &App,
    code: &Code,
    bytes: &[u8],
    expected: (u32, StateView, &[Event]),
) -> Result<bool, AllocError>
    requires order { IsInOrder app.now }
    requires fit { Fits app.now code.now }
    requires short { length bytes.now ≤ 262144 }
{
    let text = Text::from_bytes(alloc, bytes)?;
    let Ok(choices) = read_schedule(alloc, &text, app, code) else {
        return Ok(false);
    };
    match replay(alloc, app, code, &choices) {
        Err(
            ReplayFault::NotPermitted {
                step,
                state,
                events,
            },
        ) => Ok(step == expected.0 && state == expected.1 && events.items() == expected.2),
        _ => Ok(false),
    }
}

// The replay of a text ends with its last line: the events, and the failure.
fn ends_with(
    alloc: Global,
    app: &App,
    code: &Code,
    bytes: &[u8],
    expected: (&[Event], Option<Failure>),
) -> Result<bool, AllocError>
    requires order { IsInOrder app.now }
    requires fit { Fits app.now code.now }
    requires short { length bytes.now ≤ 262144 }
{
    let text = Text::from_bytes(alloc, bytes)?;
    let Ok(choices) = read_schedule(alloc, &text, app, code) else {
        return Ok(false);
    };
    match replay(alloc, app, code, &choices) {
        Ok(done) => Ok(done.events.items() == expected.0 && done.failure == expected.1),
        Err(_) => Ok(false),
    }
}

fn view(running: u8, level: u8, stopped: bool, arrivals: u32) -> StateView {
    StateView {
        running: Some(Entity(running)),
        level,
        stopped,
        arrivals,
    }
}

#[test]
fn an_arrival_above_an_arrival_fails(rt: HostRuntime) -> Result<(), Fail> {
    let alloc = rt.alloc();
    let app = application(alloc)?;
    let code = code(alloc, &app)?;
    let value = Word::taken(Width::W8, 0);
    let (i, j) = (Next::Runs(Entity(1)), Next::Runs(Entity(2)));
    let failure = Failure { number: 1, code: 0 };
    let events = [
        event(1, EventAction::Arrive, i),
        event(1, EventAction::Write { cell: 0, value }, i),
        event(2, EventAction::Arrive, j),
        event(2, EventAction::Read { cell: 0, value }, j),
        event(2, EventAction::Fail(failure, None), Next::Stop),
    ];
    let text = b"arrive I\ngo\narrive J\ngo\ngo\n";
    assert!(rt; ends_with(alloc, &app, &code, text, (&events, Some(failure)))?);
    let text = b"arrive I\ngo\narrive J\ngo\ngo\ngo 300\n";
    assert!(rt; ends_at(alloc, &app, &code, text, (6, view(2, 66, true, 2), &events))?);
    assert!(rt; ends_with(alloc, &app, &code, b"", (&[], None))?);
    Ok(())
}

#[test]
fn no_routine_arrives_in_an_open_section(rt: HostRuntime) -> Result<(), Fail> {
    let alloc = rt.alloc();
    let app = application(alloc)?;
    let code = code(alloc, &app)?;
    let disables = event(
        0,
        EventAction::Service(Service::DisableAll),
        Next::Runs(Entity(0)),
    );
    let text = b"go\narrive I";
    assert!(rt;
        ends_at(
            alloc,
            &app,
            &code,
            text,
            (2, view(0, 2, false, 0), &[disables])
        )?
    );
    Ok(())
}
