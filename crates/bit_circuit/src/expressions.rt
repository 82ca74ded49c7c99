// Expressions over cells.
ghost use Rattle.std.specs.Prelude.{◌≡◌, ℕ, ◌+◌, ◌*◌, ◌<◌, ◌≤◌, IfOk, OnOk, Some, length, slice_get};
ghost use Rattle.chk_base.specs.Term.{term_of};
ghost use Rattle.chk_base.specs.Widths.{read_as};
ghost use Rattle.chk_base.specs.WordValue.{value, picked, chosen, word_at, IsWithin};
ghost use Rattle.clause_form.specs.Literals.{AreOf};
ghost use Rattle.bit_circuit.specs.BusValue.{MakesBus, number};
ghost use Rattle.bit_circuit.specs.Selection.{AreCells, IsGathered, node_count, words_of};

use crate::bus::{Bus, Buses};
use crate::circuit::Circuit;
use chk_base::expr::Expr;
use chk_base::word::{Width, Widths};
use std::alloc::AllocError;

// The width of a cell.
fn width_of(widths: &Widths, at: usize) -> Width
    requires { at < length widths.now }
    ensures { slice_get widths.now at ≡ Some result }
{
    match widths.get(at) {
        Some(width) => *width,
        None => unreachable!(),
    }
}

impl Circuit {
    // The bus of a cell, read with or without a sign.
    fn cell(&self, at: usize, signed: bool, widths: &Widths, cells: &Buses) -> Bus
        requires cells { AreCells self.now widths.now cells.now }
        requires at { at < length cells.now }
        ensures { MakesBus self.now self.now result.lits (λ v. read_as signed (word_at (words_of v widths.now cells.now) at)) 0 }
    {
        let bus = cells.at(at);
        if signed {
            let bits = width_of(widths, at).bits() as usize;
            self.extend(bus, bits, bus.lits[bits - 1])
        } else {
            bus
        }
    }

    // The buses of cells in a row.
    fn gather(
        &self,
        base: u16,
        count: u8,
        signed: bool,
        widths: &Widths,
        cells: &Buses,
    ) -> Result<Buses, AllocError>
        requires cells { AreCells self.now widths.now cells.now }
        requires within { base + count ≤ length cells.now }
        ensures { IfOk result (λ r. IsGathered self.now widths.now cells.now base signed count r) }
    {
        let mut items = Buses::new(self.allocator());
        for i in 0..count {
            items.push(self.cell(base as usize + i as usize, signed, widths, cells))?;
        }
        Ok(items)
    }

    // The cell at the index, and 0 outside the array.
    fn pick_cell(
        &mut self,
        base: u16,
        count: u8,
        signed: bool,
        index: Bus,
        widths: &Widths,
        cells: &Buses,
    ) -> Result<Bus, AllocError>
        requires cells { AreCells self.old widths.now cells.now }
        requires within { base + count ≤ length cells.now }
        requires index { AreOf self.old.variables index.lits }
        ensures { IfOk result (λ r. MakesBus self.old self.new r.lits (λ v. picked (word_at (words_of v widths.now cells.now)) base count signed (number v index.lits)) 65536) }
    {
        let items = self.gather(base, count, signed, widths, cells)?;
        self.select(&items, index)
    }

    // The second bus where the first isn't 0, and else the third.
    fn choose_bus(&mut self, c: Bus, a: Bus, b: Bus) -> Result<Bus, AllocError>
        requires c { AreOf self.old.variables c.lits }
        requires a { AreOf self.old.variables a.lits }
        requires b { AreOf self.old.variables b.lits }
        ensures { IfOk result (λ r. MakesBus self.old self.new r.lits (λ v. chosen (number v c.lits) (number v a.lits) (number v b.lits)) 65536) }
    {
        let is_true = self.is_nonzero(c)?;
        self.pick(is_true, b, a)
    }

    // The value of an expression, and the buses of the cells still stand for them.
    fn node(&mut self, expr: &Expr, widths: &Widths, cells: &Buses) -> Result<Bus, AllocError>
        requires cells { AreCells self.old widths.now cells.now }
        requires names { IsWithin (length cells.now) (term_of expr.now) }
        ensures cells { OnOk result (AreCells self.new widths.now cells.now) }
        ensures made { IfOk result (λ r. MakesBus self.old self.new r.lits (λ v. value (term_of expr.now) (word_at (words_of v widths.now cells.now))) (65536 * node_count (term_of expr.now))) }
    {
        match expr {
            Expr::Const(n) => Ok(self.constant(*n)),
            Expr::Cell { at, signed } => Ok(self.cell(*at as usize, *signed, widths, cells)),
            Expr::Pick {
                base,
                len,
                signed,
                index,
            } => {
                let place = self.node(index, widths, cells)?;
                self.pick_cell(*base, *len, *signed, place, widths, cells)
            }
            Expr::Un(op, a) => {
                let operand = self.node(a, widths, cells)?;
                self.unary(*op, operand)
            }
            Expr::Bin(op, a, b) => {
                let left = self.node(a, widths, cells)?;
                let right = self.node(b, widths, cells)?;
                self.binary(*op, left, right)
            }
            Expr::Choose(c, a, b) => {
                let test = self.node(c, widths, cells)?;
                let then = self.node(a, widths, cells)?;
                let other = self.node(b, widths, cells)?;
                self.choose_bus(test, then, other)
            }
        }
    }

    /// The value of an expression, where each cell is a bus.
    pub fn expr(&mut self, expr: &Expr, widths: &Widths, cells: &Buses) -> Result<Bus, AllocError>
        requires cells { AreCells self.old widths.now cells.now }
        requires names { IsWithin (length cells.now) (term_of expr.now) }
        ensures { IfOk result (λ r. MakesBus self.old self.new r.lits (λ v. value (term_of expr.now) (word_at (words_of v widths.now cells.now))) (65536 * node_count (term_of expr.now))) }
    {
        self.node(expr, widths, cells)
    }
}
