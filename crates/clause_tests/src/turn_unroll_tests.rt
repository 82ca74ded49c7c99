// Two small programs: what their formulas say of lists of labels and words, found by one pass over the clauses.
use chk_base::expr::{BinOp, Expr};
use chk_base::sets::{Set, Sets, Values};
use chk_base::word::{Width, Widths};
use clause_form::assignment::Assignment;
use clause_form::lit::Lit;
use guard_prog::draft::{Alternative, Alternatives, Control, Draft, GuardPoints, Stack};
use guard_prog::guarded::validate;
use std::alloc::{AllocError, Global};
use std::test::Fail;
use turn_unroll::encoding::Encoding;
use turn_unroll::run::{Run, run_of};
use turn_unroll::unroll::unroll;

fn cell() -> Expr {
    Expr::Cell {
        at: 0,
        signed: false,
    }
}

// The operator over cell 0 and a number.
fn with_cell(alloc: Global, op: BinOp, number: u32) -> Result<Expr, AllocError> {
    let left = Box::new(alloc, cell())?;
    Ok(Expr::Bin(op, left, Box::new(alloc, Expr::Const(number))?))
}

// A set of cell 0.
fn set_of(alloc: Global, value: Expr) -> Result<Sets, AllocError> {
    let mut sets = Sets::new(alloc);
    sets.push(Set { cell: 0, value })?;
    Ok(sets)
}

fn alternative(label: u32, guard: Expr, sets: Sets, control: Control) -> Alternative {
    Alternative {
        label,
        guard,
        sets,
        control,
        input: None,
    }
}

// One cell of 8 bits; no point but these two above the idle one.
fn draft_of(
    alloc: Global,
    idle: Alternatives,
    one: Alternatives,
    two: Alternatives,
    first: &[u16],
) -> Result<Draft, AllocError> {
    let mut widths = Widths::new(alloc);
    widths.push(Width::W8)?;
    let mut starts = Values::new(alloc);
    starts.push(0)?;
    let mut stack = Stack::new(alloc);
    for point in first {
        stack.push(*point)?;
    }
    let mut points = GuardPoints::new(alloc);
    points.push(idle)?;
    points.push(one)?;
    points.push(two)?;
    Ok(Draft {
        widths,
        starts,
        first: stack,
        points,
        depth: 1,
    })
}

// Label 1 counts in cell 0, and label 2 fails where it is 2.
fn counting(alloc: Global) -> Result<Draft, AllocError> {
    let mut one = Alternatives::new(alloc);
    let sets = set_of(alloc, with_cell(alloc, BinOp::Add, 1)?)?;
    one.push(alternative(1, Expr::Const(1), sets, Control::Goto(1)))?;
    let is_two = with_cell(alloc, BinOp::Eq, 2)?;
    one.push(alternative(2, is_two, Sets::new(alloc), Control::Fail))?;
    draft_of(
        alloc,
        Alternatives::new(alloc),
        one,
        Alternatives::new(alloc),
        &[0, 1],
    )
}

// Label 1 pushes, label 2 sets cell 0 to its input, label 3 pops where the cell is 5, and label 4 fails where it is 6.
fn pushing(alloc: Global) -> Result<Draft, AllocError> {
    let mut idle = Alternatives::new(alloc);
    let push = Control::Push { below: 0, start: 1 };
    idle.push(alternative(1, Expr::Const(1), Sets::new(alloc), push))?;
    let mut one = Alternatives::new(alloc);
    let sets = set_of(alloc, Expr::Const(0))?;
    let mut takes = alternative(2, Expr::Const(1), sets, Control::Goto(2));
    takes.input = Some(Width::W8);
    one.push(takes)?;
    let mut two = Alternatives::new(alloc);
    let is_five = with_cell(alloc, BinOp::Eq, 5)?;
    two.push(alternative(3, is_five, Sets::new(alloc), Control::Pop))?;
    let is_six = with_cell(alloc, BinOp::Eq, 6)?;
    two.push(alternative(4, is_six, Sets::new(alloc), Control::Fail))?;
    draft_of(alloc, idle, one, two, &[0])
}

// A value for each variable from 1 on, or none yet.
type Known = Vec<Option<bool>>;

fn truth(known: &Known, lit: Lit) -> Option<bool> {
    let value = known.get(lit.variable() as usize).copied().flatten()?;
    Some(value == lit.is_positive())
}

// Makes a literal true or false, if its variable has no value yet.
fn decide(known: &mut Known, lit: Lit, is_true: bool) {
    if let Some(value) = known.get_mut(lit.variable() as usize) {
        if value.is_none() {
            *value = Some(is_true == lit.is_positive());
        }
    }
}

fn is_true(known: &Known, lits: &[Lit]) -> bool {
    for lit in lits {
        if truth(known, *lit) == Some(true) {
            return true;
        }
    }
    false
}

// Makes the one literal of a clause true that has no value, where all others are false.
fn settle(known: &mut Known, lits: &[Lit]) {
    let mut open = None;
    for lit in lits {
        if truth(known, *lit) != Some(false) {
            if open.is_some() {
                return;
            }
            open = Some(*lit);
        }
    }
    if let Some(lit) = open {
        decide(known, lit, true);
    }
}

// Chooses the label and the word of a turn.
fn choose(known: &mut Known, encoding: &Encoding, t: u16, turn: (u32, u32)) {
    for label in 1..5u32 {
        if let Some(lit) = encoding.alternatives.at(t, label) {
            decide(known, lit, label == turn.0);
        }
    }
    let mut rest = turn.1;
    for bit in 0..32u32 {
        if let Some(lit) = encoding.inputs.at(t, bit) {
            decide(known, lit, rest % 2 == 1);
        }
        rest /= 2;
    }
}

// The values where these turns are chosen, and then only padding.
fn chosen(alloc: Global, encoding: &Encoding, turns: &[(u32, u32)]) -> Result<Known, AllocError> {
    let variables = encoding.formula.variables as usize;
    let mut known = Vec::from_elem(alloc, None, variables.saturating_add(1))?;
    decide(&mut known, Lit(2), true);
    for t in 0..encoding.turns {
        let turn = turns.get(t as usize).copied().unwrap_or((0, 0));
        choose(&mut known, encoding, t, turn);
    }
    for at in 0..encoding.formula.clauses.len() {
        if let Some(clause) = encoding.formula.clauses.get(at) {
            settle(&mut known, clause.lits());
        }
    }
    Ok(known)
}

fn are_true(known: &Known, encoding: &Encoding) -> bool {
    for at in 0..encoding.formula.clauses.len() {
        if let Some(clause) = encoding.formula.clauses.get(at) {
            if !is_true(known, clause.lits()) {
                return false;
            }
        }
    }
    true
}

fn values_of(alloc: Global, known: &Known) -> Result<Assignment, AllocError> {
    let mut values = Assignment::new(alloc);
    for value in known.iter().skip(1) {
        values.push(value.unwrap_or(false))?;
    }
    Ok(values)
}

fn is_run(run: &Run, turns: &[(u32, u32)]) -> bool {
    if run.len() != turns.len() {
        return false;
    }
    for (t, turn) in turns.iter().enumerate() {
        if run.get(t).map(|turn| (turn.label, turn.input.bits)) != Some(*turn) {
            return false;
        }
    }
    true
}

// Whether the formula is true with these turns, and then whether the goal is; None where other turns are read back, or where it isn't.
fn outcome(
    alloc: Global,
    encoding: &Encoding,
    turns: &[(u32, u32)],
) -> Result<Option<bool>, AllocError> {
    let known = chosen(alloc, encoding, turns)?;
    let values = values_of(alloc, &known)?;
    let run = run_of(alloc, encoding, &values)?;
    if are_true(&known, encoding) && is_run(&run, turns) {
        Ok(Some(is_true(&known, encoding.goal.lits())))
    } else {
        Ok(None)
    }
}

// The only depth that is true after so many turns, of 0 and 1.
fn depth_after(known: &Known, encoding: &Encoding, t: u16) -> Option<u32> {
    let bottom = truth(known, encoding.depths.at(t, 0)?)?;
    let above = truth(known, encoding.depths.at(t, 1)?)?;
    match (bottom, above) {
        (true, false) => Some(0),
        (false, true) => Some(1),
        _ => None,
    }
}

#[test]
fn the_counting_program_has_five_runs_of_at_most_three_turns(rt: HostRuntime) -> Result<(), Fail> {
    let alloc = rt.alloc();
    let program = validate(alloc, counting(alloc)?).ok().ok_or("refused")?;
    let encoding = unroll(alloc, &program, 3)?;
    for number in 0..64u32 {
        let labels = [number / 16, number / 4 % 4, number % 4];
        let pairs = [(labels[0], 0), (labels[1], 0), (labels[2], 0)];
        for turns in 0..=3 {
            let want = match &labels[..turns] {
                [] | [1] | [1, 1] | [1, 1, 1] => Some(false),
                [1, 1, 2] => Some(true),
                _ => None,
            };
            assert_eq!(rt;
                outcome(alloc, &encoding, &pairs[..turns])?,
                want,
                "at {labels:?}"
            );
        }
    }
    Ok(())
}

#[test]
fn pushes_pops_and_inputs_are_read_back(rt: HostRuntime) -> Result<(), Fail> {
    let alloc = rt.alloc();
    let program = validate(alloc, pushing(alloc)?).ok().ok_or("refused")?;
    let encoding = unroll(alloc, &program, 4)?;
    let cases: [(&[(u32, u32)], Option<bool>); 9] = [
        (&[], Some(false)),
        (&[(1, 0), (2, 255)], Some(false)),
        (&[(1, 0), (2, 256)], None),
        (&[(1, 1)], None),
        (&[(1, 0), (1, 0)], None),
        (&[(1, 0), (2, 5), (3, 0), (1, 0)], Some(false)),
        (&[(1, 0), (2, 6), (4, 0)], Some(true)),
        (&[(1, 0), (2, 6), (3, 0)], None),
        (&[(1, 0), (2, 5), (4, 0)], None),
    ];
    for (number, (turns, want)) in cases.iter().enumerate() {
        assert_eq!(rt; outcome(alloc, &encoding, turns)?, *want, "case {number}");
    }
    let known = chosen(alloc, &encoding, &[(1, 0), (2, 5), (3, 0)])?;
    for (t, want) in [0, 1, 1, 0, 0].iter().enumerate() {
        assert_eq!(rt;
            depth_after(&known, &encoding, t as u16),
            Some(*want),
            "after {t} turns"
        );
    }
    assert_eq!(rt; encoding.depths.at(5, 0), None);
    assert_eq!(rt; encoding.alternatives.at(0, 5), None);
    assert_eq!(rt; encoding.inputs.at(0, 32), None);
    Ok(())
}
