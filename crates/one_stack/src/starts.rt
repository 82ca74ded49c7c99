// The start values of the program's cells, and the stack at the start.
ghost use Rattle.std.specs.Prelude.{◌≡◌, ◌+◌, ◌++◌, ◌≤◌, IfOk, OnOk, length, map, reverse};
ghost use Rattle.one_stack.specs.Built.{concat_below, mark_at, places, table};
ghost use Rattle.one_stack.specs.Starting.{stack_of};
ghost use Rattle.one_stack.specs.Tables.{plan_in, room_in, seen};
ghost use Rattle.step_ir.specs.Agreement.{fresh_at};
ghost use Rattle.step_ir.specs.Numbers.{times};
ghost use Rattle.step_ir.specs.OneStackMachine.{whos};
ghost use Rattle.step_ir.specs.Points.{cells_of};

use crate::layout::Layout;
use crate::start::{Start, mark_at, times};
use chk_base::sets::Values;
use guard_prog::draft::Stack;
use std::alloc::{AllocError, Global};
use step_ir::code::{CellName, Code};

fn put_name_starts(starts: &mut Values, names: &[CellName]) -> Result<(), AllocError>
    ensures { OnOk result (starts.new ≡ starts.old ++ map (λ n. n.start) names.now) }
{
    for name in names {
        starts.push(name.start)?;
    }
    Ok(())
}

// The start values of the code's cells.
fn code_starts(alloc: Global, code: &Code) -> Result<Values, AllocError>
    ensures { IfOk result (λ starts. starts ≡ map (λ n. n.start) (cells_of code.now)) }
{
    let mut starts = Values::new(alloc);
    put_name_starts(&mut starts, code.globals.items())?;
    let entities = code.entities.items();
    for entity in entities {
        put_name_starts(&mut starts, entity.names.items())?;
    }
    Ok(starts)
}

// How often an entity is on the stack.
fn times_on(top: Option<u8>, x: u8) -> u32
    ensures count { result ≡ times x (whos (stack_of top)) }
    ensures few { result ≤ 1 }
{
    match top {
        None => 0,
        Some(t) => { if t == x { 1 } else { 0 } }
    }
}

// How often a task has a request.
fn requests(start: &Start, t: u8) -> u32
    requires { length start.now.fresh.items ≤ 255 }
    ensures { result ≡ times t (whos (stack_of start.now.top)) + times t start.now.fresh.items }
{
    times_on(start.top, t) + times(t, start.fresh.as_slice())
}

// Whether each entity is on the stack.
fn put_stack(starts: &mut Values, layout: &Layout, start: &Start) -> Result<(), AllocError>
    ensures { OnOk result (starts.new ≡ starts.old ++ table layout.now.entities (λ x. times x (whos (stack_of start.now.top)))) }
{
    for x in 0..layout.entities() {
        starts.push(times_on(start.top, x))?;
    }
    Ok(())
}

// How many requests each task has.
fn put_counts(starts: &mut Values, layout: &Layout, start: &Start) -> Result<(), AllocError>
    requires { length start.now.fresh.items ≤ 255 }
    ensures { OnOk result (starts.new ≡ starts.old ++ table layout.now.entities (λ t. times t (whos (stack_of start.now.top)) + times t start.now.fresh.items)) }
{
    for t in 0..layout.entities() {
        starts.push(requests(start, t))?;
    }
    Ok(())
}

// The requests of a level.
fn put_level(starts: &mut Values, layout: &Layout, start: &Start, l: u8) -> Result<(), AllocError>
    ensures { OnOk result (starts.new ≡ starts.old ++ table (room_in layout.now l) (λ i. mark_at (plan_in layout.now).mark (fresh_at (seen layout.now) l start.now.fresh.items) i)) }
{
    for i in 0..layout.room(l) {
        starts.push(mark_at(layout, start.fresh.as_slice(), l, i))?;
    }
    Ok(())
}

fn put_requests(starts: &mut Values, layout: &Layout, start: &Start) -> Result<(), AllocError>
    ensures { OnOk result (starts.new ≡ starts.old ++ concat_below ((seen layout.now).top + 1) (λ l. table (room_in layout.now l) (λ i. mark_at (plan_in layout.now).mark (fresh_at (seen layout.now) l start.now.fresh.items) i))) }
{
    for l in 0..layout.levels() {
        put_level(starts, layout, start, l)?;
    }
    Ok(())
}

// Zeros, so many times.
fn put_zeros(starts: &mut Values, count: u8) -> Result<(), AllocError>
    ensures { OnOk result (starts.new ≡ starts.old ++ table count (λ q. 0)) }
{
    for _q in 0..count {
        starts.push(0)?;
    }
    Ok(())
}

// No entity has a resource.
fn put_kept(starts: &mut Values, layout: &Layout) -> Result<(), AllocError>
    ensures { OnOk result (starts.new ≡ starts.old ++ concat_below layout.now.entities (λ e. table layout.now.resources (λ q. 0))) }
{
    for _e in 0..layout.entities() {
        put_zeros(starts, layout.resources())?;
    }
    Ok(())
}

/// The start values of the program's cells.
pub fn starts_of(
    alloc: Global,
    layout: &Layout,
    code: &Code,
    start: &Start,
) -> Result<Values, AllocError>
    requires { length start.now.fresh.items ≤ 255 }
    ensures { IfOk result (λ starts. starts ≡
        map (λ n. n.start) (cells_of code.now)
        ++ (table layout.now.entities (λ x. times x (whos (stack_of start.now.top)))
        ++ (table layout.now.entities (λ t. times t (whos (stack_of start.now.top)) + times t start.now.fresh.items)
        ++ (concat_below ((seen layout.now).top + 1) (λ l. table (room_in layout.now l) (λ i. mark_at (plan_in layout.now).mark (fresh_at (seen layout.now) l start.now.fresh.items) i))
        ++ (table layout.now.resources (λ q. 0)
        ++ concat_below layout.now.entities (λ e. table layout.now.resources (λ q. 0))))))) }
{
    let mut starts = code_starts(alloc, code)?;
    put_stack(&mut starts, layout, start)?;
    put_counts(&mut starts, layout, start)?;
    put_requests(&mut starts, layout, start)?;
    put_zeros(&mut starts, layout.resources())?;
    put_kept(&mut starts, layout)?;
    Ok(starts)
}

/// The stack at the start, the bottom first.
pub fn first_of(alloc: Global, layout: &Layout, start: &Start) -> Result<Stack, AllocError>
    ensures { IfOk result (λ first. first ≡ reverse (places (plan_in layout.now) (stack_of start.now.top))) }
{
    let mut first = Stack::new(alloc);
    first.push(0)?;
    match start.top {
        None => Ok(first),
        Some(t) => {
            first.push(layout.number(t, 0))?;
            Ok(first)
        }
    }
}
