// Codes: the points that entities step through, and the cells that they read and set.
ghost use Rattle.std.specs.Prelude.{◌≡◌, OnOk, OnErr, length, slice_get, [], ◌∷◌, ◌++◌};
ghost use Rattle.std.specs.Option.{option_copied};

use crate::event::Service;
use chk_base::expr::Expr;
use chk_base::place::Place;
use chk_base::sets::Sets;
use chk_base::text::Text;
use chk_base::word::Width;
use std::alloc::{AllocError, Global};
use std::marker::Model;

/// A cell with its name. `element` is the place in the array whose element it is, `signed` how its word is read, and `start` the word's
/// bits at the start.
#[derive(Drop)]
pub struct CellName {
    pub text: Text,
    pub element: Option<u8>,
    pub width: Width,
    pub signed: bool,
    pub start: u32,
}

/// Cells in order.
#[derive(Drop)]
pub struct CellNames {
    items: Vec<CellName>,
}

impl Model for CellNames {
    ghost use Rattle.std.specs.Prelude.{List};
    ghost use Rattle.step_ir.specs.declared.code.CellName.{CellName};

    ghost Value = { List CellName };

    ghost view = { λ a. a.items.items };
}

impl CellNames {
    pub fn new(alloc: Global) -> Self
        ensures { result ≡ [] }
    {
        CellNames {
            items: Vec::new(alloc),
        }
    }

    pub fn push(&mut self, item: CellName) -> Result<(), AllocError>
        ensures ok { OnOk result (self.new ≡ self.old ++ item ∷ []) }
        ensures err { OnErr result (self.new ≡ self.old) }
    {
        self.items.push(item)?;
        Ok(())
    }

    pub fn len(&self) -> usize
        ensures { result ≡ length self.now }
    {
        self.items.len()
    }

    pub fn get(&self, at: usize) -> Option<&CellName>
        ensures { option_copied result ≡ slice_get self.now at }
    {
        self.items.get(at)
    }

    pub fn items(&self) -> &[CellName]
        ensures { result.now ≡ self.now }
    {
        self.items.as_slice()
    }
}

/// Names of functions, in the order of their numbers.
#[derive(Drop)]
pub struct Names {
    items: Vec<Text>,
}

impl Model for Names {
    ghost use Rattle.std.specs.Prelude.{List, ℕ};

    ghost Value = { List (List ℕ) };

    ghost view = { λ a. a.items.items };
}

impl Names {
    pub fn new(alloc: Global) -> Self
        ensures { result ≡ [] }
    {
        Names {
            items: Vec::new(alloc),
        }
    }

    pub fn push(&mut self, item: Text) -> Result<(), AllocError>
        ensures ok { OnOk result (self.new ≡ self.old ++ item ∷ []) }
        ensures err { OnErr result (self.new ≡ self.old) }
    {
        self.items.push(item)?;
        Ok(())
    }

    pub fn len(&self) -> usize
        ensures { result ≡ length self.now }
    {
        self.items.len()
    }

    pub fn get(&self, at: usize) -> Option<&Text>
        ensures { option_copied result ≡ slice_get self.now at }
    {
        self.items.get(at)
    }

    pub fn items(&self) -> &[Text]
        ensures { result.now ≡ self.now }
    {
        self.items.as_slice()
    }
}

/// A variable, or an element of an array: of the `len` cells from `base` on, the one at the index, or the only one.
#[derive(Drop)]
pub struct Target {
    pub base: u16,
    pub len: u8,
    pub index: Option<Expr>,
}

/// What is done in the step of a point. The values of `Write`, `Local`, `Return` and the sets of a `Call` are cut to the width of the cell
/// that takes them; `Branch` and `Assert` ask whether their value is 0.
#[derive(Drop)]
pub enum Action {
    Read { target: Target, into: u16 },
    Write { target: Target, value: Expr },
    Local { cell: u16, value: Expr },
    Branch(Expr),
    Input(u16),
    Call { function: u16, sets: Sets },
    Return(Option<(u16, Expr)>),
    Service(Service),
    Assert(Expr),
    End,
}

/// What a point tests before its action: expressions, each with the number of the failure that it stands for.
#[derive(Drop)]
pub struct Traps {
    items: Vec<(Expr, u8)>,
}

impl Model for Traps {
    ghost use Rattle.std.specs.Prelude.{List, ℕ};
    ghost use Rattle.chk_base.specs.declared.expr.Expr.{Expr};
    ghost use Rattle.chk_base.specs.contracts.expr.Expr as e;
    ghost use Rattle.std.specs.Coded.{codes};

    ghost Value = { List (Expr × ℕ) };

    ghost coded = { Prim.hlevel (codes, e.the_row.coded) };

    ghost view = { λ a. a.items.items };
}

impl Traps {
    pub fn new(alloc: Global) -> Self
        ensures { result ≡ [] }
    {
        Traps {
            items: Vec::new(alloc),
        }
    }

    pub fn push(&mut self, item: (Expr, u8)) -> Result<(), AllocError>
        ensures ok { OnOk result (self.new ≡ self.old ++ item ∷ []) }
        ensures err { OnErr result (self.new ≡ self.old) }
    {
        self.items.push(item)?;
        Ok(())
    }

    pub fn len(&self) -> usize
        ensures { result ≡ length self.now }
    {
        self.items.len()
    }

    pub fn get(&self, at: usize) -> Option<&(Expr, u8)>
        ensures { option_copied result ≡ slice_get self.now at }
    {
        self.items.get(at)
    }

    pub fn items(&self) -> &[(Expr, u8)]
        ensures { result.now ≡ self.now }
    {
        self.items.as_slice()
    }
}

/// Where an entity may go on: expressions, each with a point.
#[derive(Drop)]
pub struct Nexts {
    items: Vec<(Expr, u16)>,
}

impl Model for Nexts {
    ghost use Rattle.std.specs.Prelude.{List, ℕ};
    ghost use Rattle.chk_base.specs.declared.expr.Expr.{Expr};
    ghost use Rattle.chk_base.specs.contracts.expr.Expr as e;
    ghost use Rattle.std.specs.Coded.{codes};

    ghost Value = { List (Expr × ℕ) };

    ghost coded = { Prim.hlevel (codes, e.the_row.coded) };

    ghost view = { λ a. a.items.items };
}

impl Nexts {
    pub fn new(alloc: Global) -> Self
        ensures { result ≡ [] }
    {
        Nexts {
            items: Vec::new(alloc),
        }
    }

    pub fn push(&mut self, item: (Expr, u16)) -> Result<(), AllocError>
        ensures ok { OnOk result (self.new ≡ self.old ++ item ∷ []) }
        ensures err { OnErr result (self.new ≡ self.old) }
    {
        self.items.push(item)?;
        Ok(())
    }

    pub fn len(&self) -> usize
        ensures { result ≡ length self.now }
    {
        self.items.len()
    }

    pub fn get(&self, at: usize) -> Option<&(Expr, u16)>
        ensures { option_copied result ≡ slice_get self.now at }
    {
        self.items.get(at)
    }

    pub fn items(&self) -> &[(Expr, u16)]
        ensures { result.now ≡ self.now }
    {
        self.items.as_slice()
    }
}

/// A point: one step of an entity. The first trap whose expression isn't 0 over the cells before the step is the step's failure. Else the
/// action is done, and the entity goes on at the first of `next` whose expression isn't 0 over the cells after the action.
#[derive(Drop)]
pub struct Point {
    pub place: Place,
    pub action: Action,
    pub traps: Traps,
    pub next: Nexts,
}

/// The points of an entity; it starts at the first.
#[derive(Drop)]
pub struct Points {
    items: Vec<Point>,
}

impl Model for Points {
    ghost use Rattle.std.specs.Prelude.{List};
    ghost use Rattle.step_ir.specs.declared.code.Point.{Point};
    ghost use Rattle.chk_base.specs.contracts.expr.Expr as e;
    ghost use Rattle.std.specs.Coded.{codes};

    ghost Value = { List Point };

    ghost coded = { Prim.hlevel (codes, e.the_row.coded) };

    ghost view = { λ a. a.items.items };
}

impl Points {
    pub fn new(alloc: Global) -> Self
        ensures { result ≡ [] }
    {
        Points {
            items: Vec::new(alloc),
        }
    }

    pub fn push(&mut self, item: Point) -> Result<(), AllocError>
        ensures ok { OnOk result (self.new ≡ self.old ++ item ∷ []) }
        ensures err { OnErr result (self.new ≡ self.old) }
    {
        self.items.push(item)?;
        Ok(())
    }

    pub fn len(&self) -> usize
        ensures { result ≡ length self.now }
    {
        self.items.len()
    }

    pub fn get(&self, at: usize) -> Option<&Point>
        ensures { option_copied result ≡ slice_get self.now at }
    {
        self.items.get(at)
    }

    pub fn items(&self) -> &[Point]
        ensures { result.now ≡ self.now }
    {
        self.items.as_slice()
    }
}

/// The points of an entity, and the cells that are its own.
#[derive(Drop)]
pub struct EntityCode {
    pub points: Points,
    pub names: CellNames,
}

/// The entities' points and cells, in the order of the entities' numbers.
#[derive(Drop)]
pub struct EntityCodes {
    items: Vec<EntityCode>,
}

impl Model for EntityCodes {
    ghost use Rattle.std.specs.Prelude.{List};
    ghost use Rattle.step_ir.specs.declared.code.EntityCode.{EntityCode};
    ghost use Rattle.chk_base.specs.contracts.expr.Expr as e;
    ghost use Rattle.std.specs.Coded.{codes};

    ghost Value = { List EntityCode };

    ghost coded = { Prim.hlevel (codes, e.the_row.coded) };

    ghost view = { λ a. a.items.items };
}

impl EntityCodes {
    pub fn new(alloc: Global) -> Self
        ensures { result ≡ [] }
    {
        EntityCodes {
            items: Vec::new(alloc),
        }
    }

    pub fn push(&mut self, item: EntityCode) -> Result<(), AllocError>
        ensures ok { OnOk result (self.new ≡ self.old ++ item ∷ []) }
        ensures err { OnErr result (self.new ≡ self.old) }
    {
        self.items.push(item)?;
        Ok(())
    }

    pub fn len(&self) -> usize
        ensures { result ≡ length self.now }
    {
        self.items.len()
    }

    pub fn get(&self, at: usize) -> Option<&EntityCode>
        ensures { option_copied result ≡ slice_get self.now at }
    {
        self.items.get(at)
    }

    pub fn items(&self) -> &[EntityCode]
        ensures { result.now ≡ self.now }
    {
        self.items.as_slice()
    }
}

/// The code of an application. Cells are numbered over the whole code, the globals first and then those of each entity. `cells` counts the
/// bits of all cells, and `weight` the work of one step as a formula.
#[derive(Drop)]
pub struct Code {
    pub entities: EntityCodes,
    pub globals: CellNames,
    pub functions: Names,
    pub cells: u32,
    pub weight: u64,
}
