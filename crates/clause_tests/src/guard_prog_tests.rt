// The counting program with its runs, and drafts that break one condition each.
use chk_base::expr::{BinOp, Expr};
use chk_base::sets::{Set, Sets, Values};
use chk_base::word::{Width, Widths};
use guard_prog::draft::{Alternative, Alternatives, Control, Draft, GuardPoints, Stack};
use guard_prog::execution::Execution;
use guard_prog::guarded::{DraftFault, Guarded, validate};
use std::alloc::{AllocError, Global};
use std::test::Fail;

// What is changed in the counting draft.
#[derive(Clone, Copy)]
enum Change {
    Nothing,
    Start(u32),
    First(&'static [u16]),
    Depth(u8),
    Idle(Control),
    Control(Control),
    Labels(u32, u32),
    Read(u16),
    Length(u8),
    Cell(u16),
    SetAgain(u16),
    Input(Width),
    LaterInput(Width),
}

fn read(at: u16) -> Expr {
    Expr::Cell { at, signed: false }
}

fn binary(alloc: Global, op: BinOp, a: Expr, b: Expr) -> Result<Expr, AllocError> {
    let left = Box::new(alloc, a)?;
    Ok(Expr::Bin(op, left, Box::new(alloc, b)?))
}

impl Change {
    fn start(self) -> u32 {
        if let Change::Start(start) = self {
            start
        } else {
            0
        }
    }

    fn first(self) -> &'static [u16] {
        if let Change::First(points) = self {
            points
        } else {
            &[0, 1]
        }
    }

    fn depth(self) -> u8 {
        if let Change::Depth(depth) = self {
            depth
        } else {
            1
        }
    }

    fn labels(self) -> (u32, u32) {
        if let Change::Labels(label, later) = self {
            (label, later)
        } else {
            (1, 2)
        }
    }

    fn control(self) -> Control {
        if let Change::Control(control) = self {
            control
        } else {
            Control::Goto(1)
        }
    }

    fn cell(self) -> u16 {
        if let Change::Cell(cell) = self {
            cell
        } else {
            0
        }
    }

    fn inputs(self) -> (Option<Width>, Option<Width>) {
        match self {
            Change::Input(width) => (Some(width), None),
            Change::LaterInput(width) => (None, Some(width)),
            _ => (None, None),
        }
    }
}

// Adds 1 to cell 0.
fn counting_sets(alloc: Global, change: Change) -> Result<Sets, AllocError> {
    let mut sets = Sets::new(alloc);
    sets.push(Set {
        cell: change.cell(),
        value: binary(alloc, BinOp::Add, read(0), Expr::Const(1))?,
    })?;
    if let Change::SetAgain(cell) = change {
        sets.push(Set {
            cell,
            value: Expr::Const(0),
        })?;
    }
    Ok(sets)
}

// Counts in cell 0.
fn counts(alloc: Global, change: Change) -> Result<Alternative, AllocError> {
    Ok(Alternative {
        label: change.labels().0,
        guard: Expr::Const(1),
        sets: counting_sets(alloc, change)?,
        control: change.control(),
        input: change.inputs().0,
    })
}

// What is compared with 2: cell 0.
fn counted(alloc: Global, change: Change) -> Result<Expr, AllocError> {
    match change {
        Change::Length(len) => Ok(Expr::Pick {
            base: 0,
            len,
            signed: false,
            index: Box::new(alloc, Expr::Const(0))?,
        }),
        Change::Read(at) => Ok(read(at)),
        _ => Ok(read(0)),
    }
}

// Fails where cell 0 has counted to 2.
fn fails(alloc: Global, change: Change) -> Result<Alternative, AllocError> {
    Ok(Alternative {
        label: change.labels().1,
        guard: binary(alloc, BinOp::Eq, counted(alloc, change)?, Expr::Const(2))?,
        sets: Sets::new(alloc),
        control: Control::Fail,
        input: change.inputs().1,
    })
}

// The alternatives of the idle point.
fn idles(alloc: Global, change: Change) -> Result<Alternatives, AllocError> {
    let mut idle = Alternatives::new(alloc);
    if let Change::Idle(control) = change {
        idle.push(Alternative {
            label: 3,
            guard: Expr::Const(1),
            sets: Sets::new(alloc),
            control,
            input: None,
        })?;
    }
    Ok(idle)
}

fn points_of(alloc: Global, change: Change) -> Result<GuardPoints, AllocError> {
    let mut counting = Alternatives::new(alloc);
    counting.push(counts(alloc, change)?)?;
    counting.push(fails(alloc, change)?)?;
    let mut points = GuardPoints::new(alloc);
    points.push(idles(alloc, change)?)?;
    points.push(counting)?;
    Ok(points)
}

fn first_of(alloc: Global, change: Change) -> Result<Stack, AllocError> {
    let mut first = Stack::new(alloc);
    for point in change.first() {
        first.push(*point)?;
    }
    Ok(first)
}

// One cell of 8 bits; point 1 counts in it, and fails where it has counted to 2.
fn draft_of(alloc: Global, change: Change) -> Result<Draft, AllocError> {
    let mut widths = Widths::new(alloc);
    widths.push(Width::W8)?;
    let mut starts = Values::new(alloc);
    starts.push(change.start())?;
    Ok(Draft {
        widths,
        starts,
        first: first_of(alloc, change)?,
        points: points_of(alloc, change)?,
        depth: change.depth(),
    })
}

fn fault_of(alloc: Global, change: Change) -> Result<Option<DraftFault>, AllocError> {
    Ok(validate(alloc, draft_of(alloc, change)?).err())
}

// Whether the run with these labels has failed; None where it is no run.
fn outcome(alloc: Global, program: &Guarded, labels: &[u32]) -> Result<Option<bool>, AllocError> {
    let mut pairs = Vec::new(alloc);
    for label in labels {
        pairs.push((*label, 0))?;
    }
    Ok(Execution::run(alloc, program, &pairs)?.map(|last| last.is_failed))
}

#[test]
fn the_counting_program_has_five_runs_of_at_most_three_turns(rt: HostRuntime) -> Result<(), Fail> {
    let alloc = rt.alloc();
    let program = validate(alloc, draft_of(alloc, Change::Nothing)?)
        .ok()
        .ok_or("refused")?;
    assert_eq!(rt; program.draft().points.len(), 2);
    for number in 0..64u32 {
        let labels = [number / 16, number / 4 % 4, number % 4];
        for turns in 0..=3 {
            let want = match &labels[..turns] {
                [] | [1] | [1, 1] | [1, 1, 1] => Some(false),
                [1, 1, 2] => Some(true),
                _ => None,
            };
            assert_eq!(rt;
                outcome(alloc, &program, &labels[..turns])?,
                want,
                "at {labels:?}"
            );
        }
    }
    assert_eq!(rt;
        outcome(alloc, &program, &[1, 1, 2, 1])?,
        None,
        "after a failure"
    );
    assert!(rt;
        Execution::run(alloc, &program, &[(1, 1)])?.is_none(),
        "a word without an input"
    );
    Ok(())
}

#[test]
fn each_condition_alone_is_found_at_its_point(rt: HostRuntime) -> Result<(), Fail> {
    let alloc = rt.alloc();
    let cases = [
        (None, Change::Nothing),
        (None, Change::Start(255)),
        (Some(0), Change::Start(256)),
        (Some(0), Change::First(&[])),
        (Some(0), Change::First(&[1])),
        (Some(0), Change::First(&[0, 0])),
        (Some(0), Change::First(&[0, 2])),
        (Some(0), Change::Depth(0)),
        (None, Change::Idle(Control::Push { below: 0, start: 1 })),
        (Some(0), Change::Idle(Control::Goto(1))),
        (Some(0), Change::Idle(Control::Pop)),
        (Some(0), Change::Idle(Control::Push { below: 0, start: 2 })),
        (Some(1), Change::Control(Control::Goto(0))),
        (Some(1), Change::Control(Control::PopPush(2))),
        (None, Change::Labels(1, 1_048_575)),
        (Some(1), Change::Labels(1, 1_048_576)),
        (Some(1), Change::Labels(2, 2)),
        (Some(1), Change::Labels(0, 2)),
        (Some(1), Change::Cell(1)),
        (Some(1), Change::SetAgain(0)),
        (Some(1), Change::Read(1)),
        (None, Change::Length(1)),
        (Some(1), Change::Length(0)),
        (Some(1), Change::Length(2)),
        (None, Change::Input(Width::W8)),
        (Some(1), Change::Input(Width::W16)),
        (Some(1), Change::LaterInput(Width::W8)),
    ];
    for (number, (point, change)) in cases.iter().enumerate() {
        let want = point.map(DraftFault::Shape);
        assert_eq!(rt; fault_of(alloc, *change)?, want, "case {number}");
    }
    Ok(())
}
