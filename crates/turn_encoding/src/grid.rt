// Grids of literals.
ghost use Rattle.std.specs.Prelude.{◌≡◌, [], ◌∷◌, ◌++◌, OnErr, OnOk, length, slice_get};
ghost use Rattle.std.specs.Option.{option_copied};
ghost use Rattle.turn_encoding.specs.Grids.{lit_at};

use clause_form::lit::{Lists, Lit, Lits};
use std::alloc::{AllocError, Global};
use std::marker::Model;

/// Rows of literals. Rows and columns are counted from 0.
#[derive(Drop)]
pub struct Grid {
    rows: Lists,
}

impl Model for Grid {
    ghost use Rattle.std.specs.Prelude.{List};
    ghost use Rattle.clause_form.specs.declared.lit.Lit.{Lit};

    ghost Value = { List (List Lit) };

    ghost view = { λ g. g.rows };
}

impl Grid {
    pub fn new(alloc: Global) -> Grid
        ensures { result ≡ [] }
    {
        Grid {
            rows: Lists::new(alloc),
        }
    }

    pub fn push(&mut self, row: Lits) -> Result<(), AllocError>
        ensures ok { OnOk result (self.new ≡ self.old ++ row ∷ []) }
        ensures err { OnErr result (self.new ≡ self.old) }
    {
        self.rows.push(row)
    }

    // The number of rows.
    pub fn len(&self) -> usize
        ensures { result ≡ length self.now }
    {
        self.rows.len()
    }

    // The literals of a row.
    pub fn row(&self, row: usize) -> Option<&Lits>
        ensures { option_copied result ≡ slice_get self.now row }
    {
        self.rows.get(row)
    }

    /// All rows.
    pub fn rows(&self) -> &Lists
        ensures { result.now ≡ self.now }
    {
        &self.rows
    }

    /// The literal of a row and a column, and None exactly outside the rows and columns.
    pub fn at(&self, row: u16, column: u32) -> Option<Lit>
        ensures { result ≡ lit_at self.now row column }
    {
        match self.rows.get(row as usize) {
            Some(lits) => lits.get(column as usize).copied(),
            None => None,
        }
    }
}
