// Drafts of guarded programs.
ghost use Rattle.std.specs.Prelude.{◌≡◌, ◌++◌, ◌∷◌, [], IfOk, OnOk, OnErr, length, reverse, slice_get};
ghost use Rattle.std.specs.Option.{option_copied};

use chk_base::expr::Expr;
use chk_base::sets::{Sets, Values};
use chk_base::word::{Width, Widths};
use std::alloc::{AllocError, Global};
use std::marker::Model;

/// What a turn does to the stack of points. `Goto` replaces the top. `Push` replaces the top by `below` and puts
/// `start` on it. `Pop` takes the top away, and `PopPush` puts its point in the place of the top that it takes away.
/// `Fail` keeps the stack and ends the run.
#[derive(Clone, Copy, PartialEq, Eq, Debug)]
pub enum Control {
    Goto(u16),
    Push { below: u16, start: u16 },
    Pop,
    PopPush(u16),
    Fail,
}

/// A turn that may be taken where the value of `guard` isn't 0. `sets` are simultaneous: each value is taken over the
/// old cells, modulo the width of its cell. Where there is an `input`, the first set takes the turn's word of that
/// width in place of its value.
#[derive(Drop)]
pub struct Alternative {
    pub label: u32,
    pub guard: Expr,
    pub sets: Sets,
    pub control: Control,
    pub input: Option<Width>,
}

/// The alternatives of a point, in order.
#[derive(Drop)]
pub struct Alternatives {
    items: Vec<Alternative>,
}

impl Model for Alternatives {
    ghost use Rattle.std.specs.Prelude.{List};
    ghost use Rattle.guard_prog.specs.declared.draft.Alternative.{Alternative};
    ghost use Rattle.chk_base.specs.contracts.expr.Expr as e;
    ghost use Rattle.std.specs.Coded.{codes};

    ghost Value = { List Alternative };

    ghost coded = { Prim.hlevel (codes, e.the_row.coded) };

    ghost view = { λ a. a.items.items };
}

impl Alternatives {
    pub fn new(alloc: Global) -> Self
        ensures { result ≡ [] }
    {
        Alternatives {
            items: Vec::new(alloc),
        }
    }

    pub fn push(&mut self, item: Alternative) -> Result<(), AllocError>
        ensures ok { OnOk result (self.new ≡ self.old ++ item ∷ []) }
        ensures err { OnErr result (self.new ≡ self.old) }
    {
        self.items.push(item)?;
        Ok(())
    }

    pub fn len(&self) -> usize
        ensures { result ≡ length self.now }
    {
        self.items.len()
    }

    pub fn get(&self, at: usize) -> Option<&Alternative>
        ensures { option_copied result ≡ slice_get self.now at }
    {
        self.items.get(at)
    }

    pub fn items(&self) -> &[Alternative]
        ensures { result.now ≡ self.now }
    {
        self.items.as_slice()
    }
}

/// The points of a program, in order of their numbers from 0; each is a list of alternatives.
#[derive(Drop)]
pub struct GuardPoints {
    items: Vec<Alternatives>,
}

impl Model for GuardPoints {
    ghost use Rattle.std.specs.Prelude.{List};
    ghost use Rattle.guard_prog.specs.declared.draft.Alternative.{Alternative};
    ghost use Rattle.chk_base.specs.contracts.expr.Expr as e;
    ghost use Rattle.std.specs.Coded.{codes};

    ghost Value = { List (List Alternative) };

    ghost coded = { Prim.hlevel (codes, e.the_row.coded) };

    ghost view = { λ a. a.items.items };
}

impl GuardPoints {
    pub fn new(alloc: Global) -> Self
        ensures { result ≡ [] }
    {
        GuardPoints {
            items: Vec::new(alloc),
        }
    }

    pub fn push(&mut self, item: Alternatives) -> Result<(), AllocError>
        ensures ok { OnOk result (self.new ≡ self.old ++ item ∷ []) }
        ensures err { OnErr result (self.new ≡ self.old) }
    {
        self.items.push(item)?;
        Ok(())
    }

    pub fn len(&self) -> usize
        ensures { result ≡ length self.now }
    {
        self.items.len()
    }

    pub fn get(&self, at: usize) -> Option<&Alternatives>
        ensures { option_copied result ≡ slice_get self.now at }
    {
        self.items.get(at)
    }

    pub fn items(&self) -> &[Alternatives]
        ensures { result.now ≡ self.now }
    {
        self.items.as_slice()
    }
}

/// Numbers of points, in order.
#[derive(Drop)]
pub struct Stack {
    items: Vec<u16>,
}

impl Model for Stack {
    ghost use Rattle.std.specs.Prelude.{List, ℕ};

    ghost Value = { List ℕ };

    ghost view = { λ a. a.items.items };
}

impl Stack {
    pub fn new(alloc: Global) -> Self
        ensures { result ≡ [] }
    {
        Stack {
            items: Vec::new(alloc),
        }
    }

    pub fn push(&mut self, item: u16) -> Result<(), AllocError>
        ensures ok { OnOk result (self.new ≡ self.old ++ item ∷ []) }
        ensures err { OnErr result (self.new ≡ self.old) }
    {
        self.items.push(item)?;
        Ok(())
    }

    pub fn len(&self) -> usize
        ensures { result ≡ length self.now }
    {
        self.items.len()
    }

    pub fn get(&self, at: usize) -> Option<&u16>
        ensures { option_copied result ≡ slice_get self.now at }
    {
        self.items.get(at)
    }

    pub fn items(&self) -> &[u16]
        ensures { result.now ≡ self.now }
    {
        self.items.as_slice()
    }

    // These points in the other order.
    pub(crate) fn reversed(alloc: Global, points: &[u16]) -> Result<Stack, AllocError>
        ensures { IfOk result (λ stack. stack ≡ reverse points.now) }
    {
        let items = points.iter().rev().copied().collect(alloc)?;
        Ok(Stack { items })
    }

    // Puts these points at the end.
    pub(crate) fn append(&mut self, points: &[u16]) -> Result<(), AllocError>
        ensures ok { OnOk result (self.new ≡ self.old ++ points.now) }
        ensures err { OnErr result (self.new ≡ self.old) }
    {
        self.items.extend_from_slice(points)?;
        Ok(())
    }
}

/// A guarded program that nobody has looked at yet. Item i of `widths` and of `starts` is the width and the start value
/// of cell i. `first` is the stack at the start, bottom first. `depth` is the greatest number of points above the bottom.
#[derive(Drop)]
pub struct Draft {
    pub widths: Widths,
    pub starts: Values,
    pub first: Stack,
    pub points: GuardPoints,
    pub depth: u8,
}
