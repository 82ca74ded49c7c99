// The machine at the start.
ghost use Rattle.std.specs.Prelude.{◌≡◌, ◌+◌, ◌++◌, ◌≤◌, IfOk, OnOk, length};
ghost use Rattle.one_stack.specs.Built.{mark_at};
ghost use Rattle.one_stack.specs.PlainCode.{PlainCode, steps_of};
ghost use Rattle.one_stack.specs.Starting.{IsStart, first_task, without_task};
ghost use Rattle.one_stack.specs.Tables.{seen};
ghost use Rattle.step_ir.specs.Agreement.{fresh_at};
ghost use Rattle.step_ir.specs.Numbers.{times};
ghost use Rattle.step_ir.specs.OneStackMachine as machine;
ghost use Rattle.step_ir.specs.Setting.{foremost, started_from};

use crate::layout::Layout;
use application::app::Task;
use std::alloc::{AllocError, Global};

/// The task on the stack, and the fresh requests in order.
#[derive(Drop)]
pub struct Start {
    pub top: Option<u8>,
    pub fresh: Vec<u8>,
}

// The numbers of those of these tasks that are started; the first has this number.
fn put_started(list: &mut Vec<u8>, number: u8, tasks: &[Task]) -> Result<(), AllocError>
    requires { number + length tasks.now ≤ 255 }
    ensures { OnOk result (list.new.items ≡ list.old.items ++ started_from number tasks.now) }
{
    let Some((task, others)) = tasks.split_first() else {
        return Ok(());
    };
    if task.autostart {
        list.push(number)?;
        put_started(list, number + 1, others)
    } else {
        put_started(list, number + 1, others)
    }
}

// The first of those of greatest level.
fn foremost(layout: &Layout, tasks: &[u8]) -> Option<u8>
    ensures { result ≡ foremost (seen layout.now) tasks.now }
{
    match tasks.split_first() {
        None => None,
        Some((t, others)) => match foremost(layout, others) {
            None => Some(*t),
            Some(f) => {
                if layout.level(*t) < layout.level(f) {
                    Some(f)
                } else {
                    Some(*t)
                }
            }
        },
    }
}

// These requests without the first of a task.
fn put_without(list: &mut Vec<u8>, t: u8, tasks: &[u8]) -> Result<(), AllocError>
    ensures { OnOk result (list.new.items ≡ list.old.items ++ machine.without t tasks.now) }
{
    let Some((x, others)) = tasks.split_first() else {
        return Ok(());
    };
    if *x == t {
        list.extend_from_slice(others)
    } else {
        list.push(*x)?;
        put_without(list, t, others)
    }
}

// The tasks that are started.
fn started(alloc: Global, layout: &Layout) -> Result<Vec<u8>, AllocError>
    requires { length layout.now.app.tasks ≤ 16 }
    ensures tasks { IfOk result (λ list. list.items ≡ (seen layout.now).autostart) }
    ensures few { IfOk result (λ list. length list.items ≤ 16) }
{
    let mut list = Vec::new(alloc);
    put_started(&mut list, 0, layout.tasks())?;
    Ok(list)
}

// The foremost of these tasks, if it is above the idle level.
fn first_task(layout: &Layout, tasks: &[u8]) -> Option<u8>
    ensures { result ≡ first_task (seen layout.now) (foremost (seen layout.now) tasks.now) }
{
    match foremost(layout, tasks) {
        None => None,
        Some(t) => { if 0 < layout.level(t) { Some(t) } else { None } }
    }
}

// These requests without the first of this task.
fn fresh_of(alloc: Global, top: Option<u8>, tasks: &[u8]) -> Result<Vec<u8>, AllocError>
    ensures { IfOk result (λ list. list.items ≡ without_task top tasks.now) }
{
    let mut list = Vec::new(alloc);
    match top {
        None => list.extend_from_slice(tasks)?,
        Some(t) => put_without(&mut list, t, tasks)?,
    }
    Ok(list)
}

/// The machine at the start: the foremost of the tasks that are started is on the stack.
pub fn start_of(alloc: Global, layout: &Layout) -> Result<Start, AllocError>
    requires { length layout.now.app.tasks ≤ 16 }
    ensures start { (code : PlainCode) → IfOk result (λ s. IsStart (machine.start (seen layout.now) (steps_of code) code.start) s.top s.fresh.items) }
    ensures few { IfOk result (λ s. length s.fresh.items ≤ 16) }
{
    let started = started(alloc, layout)?;
    let tasks = started.as_slice();
    let top = first_task(layout, tasks);
    let fresh = fresh_of(alloc, top, tasks)?;
    Ok(Start { top, fresh })
}

/// How often a task stands in a list.
pub fn times(t: u8, tasks: &[u8]) -> u32
    requires { length tasks.now ≤ 255 }
    ensures count { result ≡ times t tasks.now }
    ensures few { result ≤ length tasks.now }
{
    match tasks.split_first() {
        None => 0,
        Some((x, others)) => {
            let rest = times(t, others);
            if *x == t { rest + 1 } else { rest }
        }
    }
}

/// The mark at place i of a level's requests, and 0 behind them.
pub fn mark_at(layout: &Layout, tasks: &[u8], l: u8, i: u8) -> u32
    ensures { result ≡ mark_at (λ t. t + 1) (fresh_at (seen layout.now) l tasks.now) i }
{
    match tasks.split_first() {
        None => 0,
        Some((t, others)) => {
            if layout.level(*t) != l {
                mark_at(layout, others, l, i)
            } else if i == 0 {
                *t as u32 + 1
            } else {
                mark_at(layout, others, l, i - 1)
            }
        }
    }
}
