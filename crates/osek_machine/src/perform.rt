// What the point alone does of a step, with its effect on the cells.
ghost use Rattle.std.specs.Prelude.{◌≡◌, ◌<◌, ◌≤◌, length, map, Some, None, if◌then◌else◌, vec_capacity, option_map};
ghost use Rattle.chk_base.specs.declared.word.Width.TheVariants.{W32};
ghost use Rattle.chk_base.specs.Operators.{truth};
ghost use Rattle.chk_base.specs.Term.{term_of};
ghost use Rattle.chk_base.specs.WordValue.{IsWithin};
ghost use Rattle.osek_machine.specs.CellWords.{widths, bits, IsStored};
ghost use Rattle.osek_machine.specs.Performing.{IsDone, IsPerformed, choice_of, input_want, set_values, values_of};
ghost use Rattle.osek_machine.specs.Within.{IsTargetWithin, AreSetsWithin, AreItemsWithin, IsReturnWithin, IsActionWithin, IsPointWithin, input_cell};
ghost use Rattle.step_ir.specs.declared.event.Choice.TheVariants.{Go, GoWith};
ghost use Rattle.step_ir.specs.Numbers.{put};
ghost use Rattle.step_ir.specs.Points.{Call, Local, Read, Return, Write, item_of, plain_action, plain_of, return_of, set_of, target_of};
ghost use Rattle.step_ir.specs.PointStep.{act, cell_of, first, inside, or_zero, place_in, step, stored, val};

use chk_base::cells::Cells;
use chk_base::expr::Expr;
use chk_base::meaning::eval;
use chk_base::sets::Set;
use chk_base::word::{Width, Word};
use step_ir::code::{Action, Point, Target};
use step_ir::event::{EventAction, Failure, Service};

/// What a point does of a step: an action that is done, a service that is called, the end of the body, a failure, or nothing, where the word
/// doesn't fit. `next` is the point at which the entity goes on.
#[derive(Clone, Copy)]
pub enum Performed {
    Did { action: EventAction, next: u16 },
    Calls { service: Service, next: u16 },
    Ends,
    Fails(Failure),
    Refused,
}

// The value of an expression.
fn number(expr: &Expr, cells: &Cells) -> u32
    requires { IsWithin (length cells.now) (term_of expr.now) }
    ensures { result ≡ val (widths cells.now) (bits cells.now) (term_of expr.now) }
{
    let word = eval(expr, cells);
    word.bits
}

// Whether an expression isn't 0.
fn holds(expr: &Expr, cells: &Cells) -> bool
    requires { IsWithin (length cells.now) (term_of expr.now) }
    ensures { result ≡ truth (val (widths cells.now) (bits cells.now) (term_of expr.now)) }
{
    number(expr, cells) != 0
}

// The point at which the entity goes on.
fn next_in(nexts: &[(Expr, u16)], cells: &Cells) -> u16
    requires { AreItemsWithin (length cells.now) (map item_of nexts.now) }
    ensures { result ≡ or_zero (first (val (widths cells.now) (bits cells.now)) (map item_of nexts.now)) }
{
    for next in nexts {
        if holds(&next.0, cells) {
            return next.1;
        }
    }
    0
}

// The number of the first trap that isn't 0.
fn trap_in(traps: &[(Expr, u8)], cells: &Cells) -> Option<u8>
    requires { AreItemsWithin (length cells.now) (map item_of traps.now) }
    ensures { result ≡ first (val (widths cells.now) (bits cells.now)) (map item_of traps.now) }
{
    for trap in traps {
        if holds(&trap.0, cells) {
            return Some(trap.1);
        }
    }
    None
}

fn width_at(cells: &Cells, cell: u16) -> Width
    requires { cell < length cells.now }
    ensures { result ≡ widths cells.now cell }
{
    let word = cells.get(cell);
    word.width
}

// A number as a word of a cell's width.
fn word_for(cells: &Cells, cell: u16, number: u32) -> Word
    requires { cell < length cells.now }
    ensures { result ≡ stored (widths cells.now) cell number }
{
    Word::taken(width_at(cells, cell), number)
}

// Puts a number into a cell, cut to its width.
fn store(cells: &mut Cells, cell: u16, number: u32) -> Word
    requires { cell < length cells.old }
    ensures word { result ≡ stored (widths cells.old) cell number }
    ensures cells { IsStored cells.old cell result.bits cells.new }
    ensures length { length cells.new ≡ length cells.old }
{
    let got = cells.get(cell);
    let word = Word::taken(got.width, number);
    cells.set(cell, word);
    word
}

// The place in the array of a target.
fn index_in(target: &Target, cells: &Cells) -> u32
    requires { IsTargetWithin (length cells.now) (target_of target.now) }
    ensures { result ≡ place_in (val (widths cells.now) (bits cells.now)) (target_of target.now).index }
{
    match &target.index {
        None => 0,
        Some(index) => number(index, cells),
    }
}

// Whether that place is in the array.
fn is_inside(target: &Target, cells: &Cells) -> bool
    requires { IsTargetWithin (length cells.now) (target_of target.now) }
    ensures { result ≡ inside (val (widths cells.now) (bits cells.now)) (target_of target.now) }
{
    index_in(target, cells) < target.len as u32
}

// The cell of a target, and the first of the array where the place is outside.
fn cell_in(target: &Target, cells: &Cells) -> u16
    requires { IsTargetWithin (length cells.now) (target_of target.now) }
    ensures cell { result ≡ cell_of (val (widths cells.now) (bits cells.now)) (target_of target.now) }
    ensures within { result < length cells.now }
{
    let index = index_in(target, cells);
    if index < target.len as u32 {
        target.base + index as u16
    } else {
        target.base
    }
}

// The word of a target, and 0 where the place is outside.
fn word_in(target: &Target, cells: &Cells) -> Word
    requires { IsTargetWithin (length cells.now) (target_of target.now) }
    ensures { let v = val (widths cells.now) (bits cells.now) in
        let cell = cell_of v (target_of target.now) in
        result ≡ record {
          width = widths cells.now cell;
          bits = (if inside v (target_of target.now) then bits cells.now cell else 0);
        } }
{
    let cell = cell_in(target, cells);
    if is_inside(target, cells) {
        cells.get(cell)
    } else {
        Word::taken(width_at(cells, cell), 0)
    }
}

fn read(target: &Target, into: u16, cells: &mut Cells) -> EventAction
    requires fit { IsTargetWithin (length cells.old) (target_of target.now) }
    requires into { into < length cells.old }
    requires whole { widths cells.old into ≡ W32 }
    ensures { IsDone (Read (target_of target.now) into) cells.old result cells.new }
{
    let cell = cell_in(target, cells);
    let value = word_in(target, cells);
    store(cells, into, value.bits);
    EventAction::Read { cell, value }
}

fn set_if(inside: bool, cells: &mut Cells, cell: u16, word: Word)
    requires cell { cell < length cells.old }
    requires width { word.width ≡ widths cells.old cell }
    ensures bits { bits cells.new
        ≡ (if inside then put (bits cells.old) cell word.bits else bits cells.old) }
    ensures widths { widths cells.new ≡ widths cells.old }
    ensures length { length cells.new ≡ length cells.old }
{
    if !inside {
        return;
    }
    cells.set(cell, word);
}

fn write(target: &Target, value: &Expr, cells: &mut Cells) -> EventAction
    requires fit { IsTargetWithin (length cells.old) (target_of target.now) }
    requires value { IsWithin (length cells.old) (term_of value.now) }
    ensures { IsDone (Write (target_of target.now) (term_of value.now)) cells.old result cells.new }
{
    let cell = cell_in(target, cells);
    let value = word_for(cells, cell, number(value, cells));
    let inside = is_inside(target, cells);
    set_if(inside, cells, cell, value);
    EventAction::Write { cell, value }
}

fn local(cell: u16, value: &Expr, cells: &mut Cells) -> EventAction
    requires cell { cell < length cells.old }
    requires value { IsWithin (length cells.old) (term_of value.now) }
    ensures { IsDone (Local cell (term_of value.now)) cells.old result cells.new }
{
    let taken = number(value, cells);
    let value = store(cells, cell, taken);
    EventAction::Local { cell, value }
}

fn give_back(set: &Option<(u16, Expr)>, cells: &mut Cells) -> EventAction
    requires { IsReturnWithin (length cells.old) (option_map return_of set.now) }
    ensures { IsDone (Return (option_map return_of set.now)) cells.old result cells.new }
{
    match set {
        None => EventAction::Return(None),
        Some((cell, value)) => {
            let taken = number(value, cells);
            let value = store(cells, *cell, taken);
            EventAction::Return(Some((*cell, value)))
        }
    }
}

// The cell of an input.
fn input_of(action: &Action) -> Option<u16>
    ensures { result ≡ input_cell (plain_action action.now) }
{
    match action {
        Action::Input(cell) => Some(*cell),
        _ => None,
    }
}

// The values of sets, in order.
fn take_values(sets: &[Set], cells: &Cells, values: &mut Vec<u32>)
    requires fit { AreSetsWithin (length cells.now) (map set_of sets.now) }
    requires room { length sets.now ≤ vec_capacity values.old }
    ensures values { values.new.items
        ≡ values_of (val (widths cells.now) (bits cells.now)) (map set_of sets.now) }
    ensures capacity { vec_capacity values.new ≡ vec_capacity values.old }
{
    values.clear();
    for set in sets {
        values.push_reserved(number(&set.value, cells));
    }
}

fn set_one(set: &Set, number: u32, cells: &mut Cells)
    requires { set.now.cell < length cells.old }
    ensures cells { IsStored cells.old set.now.cell
        (stored (widths cells.old) set.now.cell number).bits cells.new }
    ensures length { length cells.new ≡ length cells.old }
{
    store(cells, set.cell, number);
}

// Sets each cell to its value.
fn set_each(sets: &[Set], values: &[u32], cells: &mut Cells)
    requires fit { AreSetsWithin (length cells.old) (map set_of sets.now) }
    requires same { length values.now ≡ length sets.now }
    ensures bits { bits cells.new
        ≡ set_values (widths cells.old) (map set_of sets.now) values.now (bits cells.old) }
    ensures widths { widths cells.new ≡ widths cells.old }
    ensures length { length cells.new ≡ length cells.old }
{
    for i in 0..sets.len() {
        let number = values[i];
        set_one(&sets[i], number, cells);
    }
}

// All values are taken before a cell is set.
fn call(function: u16, sets: &[Set], cells: &mut Cells, values: &mut Vec<u32>) -> EventAction
    requires fit { AreSetsWithin (length cells.old) (map set_of sets.now) }
    requires room { length sets.now ≤ vec_capacity values.old }
    ensures done { IsDone (Call function (map set_of sets.now)) cells.old result cells.new }
    ensures capacity { vec_capacity values.new ≡ vec_capacity values.old }
{
    take_values(sets, cells, values);
    set_each(sets, values.as_slice(), cells);
    EventAction::Call(function)
}

// The step of a point that takes no word, where no trap counts.
fn act(
    action: &Action,
    nexts: &[(Expr, u16)],
    cells: &mut Cells,
    values: &mut Vec<u32>,
) -> Performed
    requires fit { IsActionWithin (widths cells.old) (length cells.old) (plain_action action.now) }
    requires nexts { AreItemsWithin (length cells.old) (map item_of nexts.now) }
    requires no_input { input_cell (plain_action action.now) ≡ None }
    requires room { length cells.old ≤ vec_capacity values.old }
    ensures performed { IsPerformed
        (act (widths cells.old) (plain_action action.now) (map item_of nexts.now) (bits cells.old))
        Go cells.old result cells.new }
    ensures widths { widths cells.new ≡ widths cells.old }
    ensures length { length cells.new ≡ length cells.old }
    ensures capacity { vec_capacity values.new ≡ vec_capacity values.old }
{
    let action = match action {
        Action::Read { target, into } => read(target, *into, cells),
        Action::Write { target, value } => write(target, value, cells),
        Action::Local { cell, value } => local(*cell, value, cells),
        Action::Call { function, sets } => call(*function, sets.items(), cells, values),
        Action::Return(set) => give_back(set, cells),
        Action::Branch(value) => EventAction::Branch(holds(value, cells)),
        Action::Assert(value) => {
            if !holds(value, cells) {
                return Performed::Fails(Failure { number: 1, code: 0 });
            }
            EventAction::Assert
        }
        Action::Service(service) => {
            return Performed::Calls {
                service: *service,
                next: next_in(nexts, cells),
            };
        }
        Action::End => return Performed::Ends,
        Action::Input(_) => return Performed::Refused,
    };
    Performed::Did {
        action,
        next: next_in(nexts, cells),
    }
}

// The step of an input that is given a word.
fn input(
    cell: u16,
    trap: Option<u8>,
    nexts: &[(Expr, u16)],
    cells: &mut Cells,
    word: Word,
) -> Performed
    requires cell { cell < length cells.old }
    requires nexts { AreItemsWithin (length cells.old) (map item_of nexts.now) }
    ensures performed { IsPerformed
        (input_want (widths cells.old) cell trap (map item_of nexts.now) (bits cells.old))
        (GoWith word) cells.old result cells.new }
    ensures widths { widths cells.new ≡ widths cells.old }
    ensures length { length cells.new ≡ length cells.old }
{
    if word.width != width_at(cells, cell) {
        return Performed::Refused;
    }
    if let Some(number) = trap {
        return Performed::Fails(Failure { number, code: 0 });
    }
    set_if(true, cells, cell, word);
    Performed::Did {
        action: EventAction::Input { cell, value: word },
        next: next_in(nexts, cells),
    }
}

/// What a point does of a step that is given this word, or none. `values` is room for the values of a call's sets.
pub fn perform(
    point: &Point,
    cells: &mut Cells,
    values: &mut Vec<u32>,
    word: Option<Word>,
) -> Performed
    requires fit { IsPointWithin (widths cells.old) (length cells.old) (plain_of point.now) }
    requires room { length cells.old ≤ vec_capacity values.old }
    ensures performed { IsPerformed
        (step (widths cells.old) (Some (plain_of point.now)) (bits cells.old))
        (choice_of word) cells.old result cells.new }
    ensures widths { widths cells.new ≡ widths cells.old }
    ensures length { length cells.new ≡ length cells.old }
    ensures capacity { vec_capacity values.new ≡ vec_capacity values.old }
{
    let trap = trap_in(point.traps.items(), cells);
    let nexts = point.next.items();
    match (input_of(&point.action), word) {
        (Some(cell), Some(word)) => input(cell, trap, nexts, cells, word),
        (None, None) => match trap {
            Some(number) => Performed::Fails(Failure { number, code: 0 }),
            None => act(&point.action, nexts, cells, values),
        },
        _ => Performed::Refused,
    }
}
