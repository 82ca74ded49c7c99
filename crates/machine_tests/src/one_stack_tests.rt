// The program of an application in which a task activates one above it, and both end.
ghost use Rattle.std.specs.Prelude.{◌≡◌, ◌<◌, ℕ, IfOk};
ghost use Rattle.one_stack.specs.Labelled.{TakesWord};
ghost use Rattle.one_stack.specs.Sample.{activating, activation, task_with, termination, two_tasks};

use application::app::{App, Class, Entity, Notes, Numbers, Resources, Routines, Task, Tasks};
use chk_base::expr::Expr;
use chk_base::place::Place;
use chk_base::text::Text;
use chk_base::word::Word;
use guard_prog::execution::Execution;
use one_stack::build::{OneStack, build, choice_of};
use std::alloc::{AllocError, Global};
use std::test::Fail;
use step_ir::code::{
    Action, CellNames, Code, EntityCode, EntityCodes, Names, Nexts, Point, Points, Traps,
};
use step_ir::event::{Choice, Service};

fn task(alloc: Global, letter: u8, priority: u8, autostart: bool) -> Result<Task, AllocError>
    requires { priority < 63 }
    ensures { IfOk result (λ task. task ≡ task_with letter priority autostart) }
{
    Ok(Task {
        name: Text::from_bytes(alloc, &[letter])?,
        priority,
        level: priority + 1,
        run_level: priority + 1,
        non_preemptive: false,
        requests: 1,
        autostart,
        declares: Numbers::new(alloc),
        internal: None,
    })
}

fn application(alloc: Global) -> Result<App, AllocError>
    ensures { IfOk result (λ app. app ≡ two_tasks) }
{
    let mut tasks = Tasks::new(alloc);
    tasks.push(task(alloc, b'A', 0, true)?)?;
    tasks.push(task(alloc, b'B', 1, false)?)?;
    Ok(App {
        tasks,
        routines: Routines::new(alloc),
        resources: Resources::new(alloc),
        res_scheduler: false,
        class: Class::Bcc1,
        mode: Text::new(alloc),
        notes: Notes::new(alloc),
    })
}

const PLACE: Place = Place {
    line: 1,
    column: 1,
    offset: 0,
};

// The point at which B is activated.
fn activation(alloc: Global) -> Result<Point, AllocError>
    ensures { IfOk result (λ point. point ≡ activation) }
{
    let mut next = Nexts::new(alloc);
    next.push((Expr::Const(1), 1))?;
    Ok(Point {
        place: PLACE,
        action: Action::Service(Service::Activate(Entity(1))),
        traps: Traps::new(alloc),
        next,
    })
}

// A point at which the task ends.
fn termination(alloc: Global) -> Point
    ensures { result ≡ termination }
{
    Point {
        place: PLACE,
        action: Action::Service(Service::Terminate),
        traps: Traps::new(alloc),
        next: Nexts::new(alloc),
    }
}

fn code(alloc: Global) -> Result<Code, AllocError>
    ensures { IfOk result (λ code. code ≡ activating) }
{
    let mut first = Points::new(alloc);
    first.push(activation(alloc)?)?;
    first.push(termination(alloc))?;
    let mut second = Points::new(alloc);
    second.push(termination(alloc))?;
    let mut entities = EntityCodes::new(alloc);
    entities.push(EntityCode {
        points: first,
        names: CellNames::new(alloc),
    })?;
    entities.push(EntityCode {
        points: second,
        names: CellNames::new(alloc),
    })?;
    Ok(Code {
        entities,
        globals: CellNames::new(alloc),
        functions: Names::new(alloc),
        cells: 0,
        weight: 0,
    })
}

fn built(alloc: Global) -> Result<OneStack, AllocError>
    ensures { IfOk result (λ o. (label word : ℕ) → TakesWord o.labels label word) }
{
    let app = application(alloc)?;
    let code = code(alloc)?;
    let stack = build(alloc, &app, &code, 0)?;
    Ok(stack)
}

// How many points stand on the stack after these labels, with the idle one, where they are a run.
fn height(alloc: Global, stack: &OneStack, labels: &[u32]) -> Result<Option<usize>, AllocError> {
    let mut pairs = Vec::new(alloc);
    for label in labels {
        pairs.push((*label, 0))?;
    }
    let last = Execution::run(alloc, &stack.program, &pairs)?;
    Ok(last.map(|last| last.stack.len()))
}

#[test]
fn the_start_is_as_the_machine_begins(rt: HostRuntime) -> Result<(), Fail> {
    let stack = built(rt.alloc())?;
    let draft = stack.program.draft();
    assert_eq!(rt; draft.first.items(), [0, 1].as_slice());
    assert_eq!(rt;
        draft.starts.items(),
        [1, 0, 1, 0, 0, 0, 0, 0, 0].as_slice()
    );
    assert_eq!(rt;
        (draft.points.len(), draft.widths.len(), draft.depth),
        (4, 9, 2)
    );
    Ok(())
}

#[test]
fn the_runs_are_those_of_the_machine(rt: HostRuntime) -> Result<(), Fail> {
    let alloc = rt.alloc();
    let stack = built(alloc)?;
    let rows: [(&[u32], Option<usize>); 6] = [
        (&[], Some(2)),
        (&[3], Some(3)),
        (&[3, 8], Some(2)),
        (&[3, 8, 5], Some(1)),
        (&[5], None),
        (&[3, 8, 5, 5], None),
    ];
    for (labels, want) in rows.iter() {
        assert_eq!(rt; height(alloc, &stack, labels)?, *want, "at {labels:?}");
    }
    Ok(())
}

#[test]
fn labels_are_of_their_entities_and_stand_for_steps(rt: HostRuntime) -> Result<(), Fail> {
    let stack = built(rt.alloc())?;
    assert_eq!(rt; stack.labels.len(), 8);
    for label in 1..=8u32 {
        assert_eq!(rt; choice_of(&stack, label, &Word::whole(7)), Choice::Go);
    }
    let first = stack.labels.get(2).ok_or("none")?;
    assert_eq!(rt; (first.entity, first.point), (Entity(0), 1));
    let last = stack.labels.get(7).ok_or("none")?;
    assert_eq!(rt; (last.entity, last.point), (Entity(1), 3));
    Ok(())
}
