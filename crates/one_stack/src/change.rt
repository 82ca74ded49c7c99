// What a step changes, and what a slot holds afterwards.
ghost use Rattle.std.specs.Prelude.{◌≡◌, ◌+◌, ◌<◌, IfOk, option_map, None, Some};
ghost use Rattle.chk_base.specs.Term.{term_of};
ghost use Rattle.one_stack.specs.Plain.{change_of};
ghost use Rattle.one_stack.specs.Rules as rules;
ghost use Rattle.one_stack.specs.Tables.{plan_in, seen};

use crate::layout::{Layout, Slot};
use crate::terms::{bin, choose};
use chk_base::expr::{BinOp, Expr};
use std::alloc::{AllocError, Global};

/// What a step changes: who is put on the stack and who leaves it, which task has a request more and which one less, which fresh request
/// is taken and which is put, and which resource an entity takes or releases.
#[derive(Clone, Copy)]
pub struct Change {
    pub starts: Option<u8>,
    pub leaves: Option<u8>,
    pub asks: Option<u8>,
    pub ends: Option<u8>,
    pub takes: Option<u8>,
    pub puts: Option<u8>,
    pub gets: Option<(u8, u8)>,
    pub releases: Option<(u8, u8)>,
}

impl Change {
    /// Nothing changes.
    fn none() -> Change
        ensures { result ≡ record { starts = None; leaves = None; asks = None; ends = None; takes = None; puts = None; gets = None; releases = None } }
    {
        Change {
            starts: None,
            leaves: None,
            asks: None,
            ends: None,
            takes: None,
            puts: None,
            gets: None,
            releases: None,
        }
    }

    /// `e` ends, after the request `x` was put, and `t` starts.
    pub fn end(e: u8, x: Option<u8>, t: Option<u8>) -> Change
        ensures { change_of result ≡ rules.end_change e x t }
    {
        Change {
            starts: t,
            leaves: Some(e),
            asks: x,
            ends: Some(e),
            takes: t,
            puts: x,
            ..Change::none()
        }
    }

    /// A request is put.
    pub fn added(x: u8) -> Change
        ensures { change_of result ≡ rules.added x }
    {
        Change {
            asks: Some(x),
            puts: Some(x),
            ..Change::none()
        }
    }

    /// A request starts at once.
    pub fn pushed(x: u8) -> Change
        ensures { change_of result ≡ rules.pushed x }
    {
        Change {
            starts: Some(x),
            asks: Some(x),
            ..Change::none()
        }
    }

    /// `e` takes the resource `r`.
    pub fn got(e: u8, r: u8) -> Change
        ensures { change_of result ≡ rules.got e r }
    {
        Change {
            gets: Some((e, r)),
            ..Change::none()
        }
    }

    /// `e` releases the resource `r`, and `t` starts.
    pub fn released(e: u8, r: u8, t: Option<u8>) -> Change
        ensures { change_of result ≡ rules.released e r t }
    {
        Change {
            starts: t,
            takes: t,
            releases: Some((e, r)),
            ..Change::none()
        }
    }
}

fn mark_of(layout: &Layout, t: Option<u8>) -> u32
    ensures { result ≡ rules.mark_of (plan_in layout.now) t }
{
    match t {
        None => 0,
        Some(t) => t as u32 + 1,
    }
}

pub fn is_it(t: Option<u8>, x: u8) -> bool
    ensures { result ≡ rules.is_it t x }
{
    match t {
        None => false,
        Some(t) => t == x,
    }
}

fn is_first(pair: Option<(u8, u8)>, e: u8) -> bool
    ensures { result ≡ rules.is_first pair e }
{
    match pair {
        None => false,
        Some((first, _)) => first == e,
    }
}

fn is_second(pair: Option<(u8, u8)>, r: u8) -> bool
    ensures { result ≡ rules.is_second pair r }
{
    match pair {
        None => false,
        Some((_, second)) => second == r,
    }
}

fn second_of(pair: Option<(u8, u8)>) -> u8
    ensures { result ≡ rules.second_of pair }
{
    match pair {
        None => 0,
        Some((_, second)) => second,
    }
}

pub fn is_level(layout: &Layout, t: Option<u8>, l: u8) -> bool
    ensures { result ≡ rules.is_level (seen layout.now) t l }
{
    match t {
        None => false,
        Some(t) => layout.level(t) == l,
    }
}

// The value of a slot with this much more or less, of which four bits count.
fn counted(alloc: Global, op: BinOp, count: Expr) -> Result<Expr, AllocError>
    ensures { IfOk result (λ t. term_of t ≡ rules.binary BinOp.And (rules.binary op (term_of count) (rules.constant 1)) (rules.constant 15)) }
{
    let value = bin(alloc, op, count, Expr::Const(1))?;
    bin(alloc, BinOp::And, value, Expr::Const(15))
}

// The requests of a task with one more.
fn more(alloc: Global, layout: &Layout, t: u8) -> Result<Expr, AllocError>
    ensures { IfOk result (λ x. term_of x ≡ rules.more (seen layout.now) (plan_in layout.now) t) }
{
    if layout.limit(t) == 1 {
        Ok(Expr::Const(1))
    } else {
        counted(alloc, BinOp::Add, layout.cell(Slot::Count(t)))
    }
}

// And with one less.
fn fewer(alloc: Global, layout: &Layout, t: u8) -> Result<Expr, AllocError>
    ensures { IfOk result (λ x. term_of x ≡ rules.fewer (seen layout.now) (plan_in layout.now) t) }
{
    if layout.limit(t) == 1 {
        Ok(Expr::Const(0))
    } else {
        counted(alloc, BinOp::Sub, layout.cell(Slot::Count(t)))
    }
}

// Whether an entity is on the stack, where that changes.
pub fn on_set(c: Change, x: u8) -> Option<Expr>
    ensures { option_map term_of result ≡ rules.on_set (change_of c) x }
{
    if is_it(c.starts, x) {
        Some(Expr::Const(1))
    } else if is_it(c.leaves, x) {
        Some(Expr::Const(0))
    } else {
        None
    }
}

// Whether a resource is held.
pub fn held_set(c: Change, r: u8) -> Option<Expr>
    ensures { option_map term_of result ≡ rules.held_set (change_of c) r }
{
    if is_second(c.gets, r) {
        Some(Expr::Const(1))
    } else if is_second(c.releases, r) {
        Some(Expr::Const(0))
    } else {
        None
    }
}

// The requests of a task.
pub fn count_set(
    alloc: Global,
    layout: &Layout,
    c: Change,
    t: u8,
) -> Result<Option<Expr>, AllocError>
    ensures { IfOk result (λ x. option_map term_of x ≡ rules.count_set (seen layout.now) (plan_in layout.now) (change_of c) t) }
{
    let ends = is_it(c.ends, t);
    if is_it(c.asks, t) {
        if ends {
            Ok(None)
        } else {
            let value = more(alloc, layout, t)?;
            Ok(Some(value))
        }
    } else if ends {
        let value = fewer(alloc, layout, t)?;
        Ok(Some(value))
    } else {
        Ok(None)
    }
}

fn waits(layout: &Layout, l: u8, i: u8) -> Expr
    ensures { term_of result ≡ rules.cell (seen layout.now) (plan_in layout.now) (rules.Waits l i) }
{
    layout.cell(Slot::Waits { level: l, at: i })
}

// What stands at place i of a level's requests after the first was taken.
fn taken_at(layout: &Layout, l: u8, i: u8) -> Expr
    requires { i < 255 }
    ensures { term_of result ≡ rules.taken_at (seen layout.now) (plan_in layout.now) l i }
{
    if i + 1 < layout.room(l) {
        waits(layout, l, i + 1)
    } else {
        Expr::Const(0)
    }
}

// The mark at an empty place.
fn empty_place(alloc: Global, layout: &Layout, l: u8, i: u8, mark: u32) -> Result<Expr, AllocError>
    ensures { IfOk result (λ x. term_of x ≡ rules.empty_place (seen layout.now) (plan_in layout.now) l i mark) }
{
    if i == 0 {
        Ok(Expr::Const(mark))
    } else {
        let before = waits(layout, l, i - 1);
        choose(alloc, before, Expr::Const(mark), Expr::Const(0))
    }
}

// What stands at place i after the mark was put last.
fn put_at(alloc: Global, layout: &Layout, l: u8, i: u8, mark: u32) -> Result<Expr, AllocError>
    ensures { IfOk result (λ x. term_of x ≡ rules.put_at (seen layout.now) (plan_in layout.now) l i mark) }
{
    let empty = empty_place(alloc, layout, l, i, mark)?;
    choose(alloc, waits(layout, l, i), waits(layout, l, i), empty)
}

// And after both.
fn shifted_at(alloc: Global, layout: &Layout, l: u8, i: u8, mark: u32) -> Result<Expr, AllocError>
    requires { i < 255 }
    ensures { IfOk result (λ x. term_of x ≡ rules.shifted_at (seen layout.now) (plan_in layout.now) l i mark) }
{
    let empty = choose(
        alloc,
        waits(layout, l, i),
        Expr::Const(mark),
        Expr::Const(0),
    )?;
    choose(alloc, taken_at(layout, l, i), taken_at(layout, l, i), empty)
}

// The fresh request at a place of a level.
pub fn waits_set(
    alloc: Global,
    layout: &Layout,
    c: Change,
    l: u8,
    i: u8,
) -> Result<Option<Expr>, AllocError>
    requires { i < 255 }
    ensures { IfOk result (λ x. option_map term_of x ≡ rules.waits_set (seen layout.now) (plan_in layout.now) (change_of c) l i) }
{
    let puts = is_level(layout, c.puts, l);
    let mark = mark_of(layout, c.puts);
    if is_level(layout, c.takes, l) {
        if puts {
            let value = shifted_at(alloc, layout, l, i, mark)?;
            Ok(Some(value))
        } else {
            Ok(Some(taken_at(layout, l, i)))
        }
    } else if puts {
        let value = put_at(alloc, layout, l, i, mark)?;
        Ok(Some(value))
    } else {
        Ok(None)
    }
}

// What stands at place i of an entity's resources after r was taken.
fn pushed_at(layout: &Layout, e: u8, r: u8, i: u8) -> Expr
    ensures { term_of result ≡ rules.pushed_at (seen layout.now) (plan_in layout.now) e r i }
{
    if i == 0 {
        Expr::Const(r as u32 + 1)
    } else {
        layout.cell(Slot::Kept {
            entity: e,
            at: i - 1,
        })
    }
}

// And after the last one was released.
fn popped_at(layout: &Layout, e: u8, i: u8) -> Expr
    requires { i < 255 }
    ensures { term_of result ≡ rules.popped_at (seen layout.now) (plan_in layout.now) e i }
{
    if i + 1 < layout.resources() {
        layout.cell(Slot::Kept {
            entity: e,
            at: i + 1,
        })
    } else {
        Expr::Const(0)
    }
}

// The resource at a place of an entity.
pub fn kept_set(layout: &Layout, c: Change, e: u8, i: u8) -> Option<Expr>
    requires { i < 255 }
    ensures { option_map term_of result ≡ rules.kept_set (seen layout.now) (plan_in layout.now) (change_of c) e i }
{
    if is_first(c.gets, e) {
        Some(pushed_at(layout, e, second_of(c.gets), i))
    } else if is_first(c.releases, e) {
        Some(popped_at(layout, e, i))
    } else {
        None
    }
}
