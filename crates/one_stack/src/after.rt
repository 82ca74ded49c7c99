// Expressions over the cells after sets, as expressions over the cells before.
ghost use Rattle.std.specs.Prelude.{◌≡◌, ◌+◌, IfOk, ◌&&◌, nat_le, nat_lt};
ghost use Rattle.chk_base.specs.Term.{term_of};
ghost use Rattle.guard_prog.specs.Drafts.{plain_sets};
ghost use Rattle.one_stack.specs.Rules as rules;
ghost use Rattle.one_stack.specs.Cells.{width_at};

use crate::terms::{bin, choose, copy, read_back, un};
use chk_base::expr::{BinOp, Expr};
use chk_base::sets::Set;
use chk_base::word::Width;
use std::alloc::{AllocError, Global};

fn width_of(widths: &[Width], at: u16) -> Width
    ensures { result ≡ width_at widths.now at }
{
    match widths.get(at as usize) {
        Some(w) => *w,
        None => Width::W32,
    }
}

fn cell_after(
    alloc: Global,
    widths: &[Width],
    sets: &[Set],
    at: u16,
    signed: bool,
) -> Result<Expr, AllocError>
    ensures { IfOk result (λ t. term_of t ≡ rules.cell_after (width_at widths.now) (plain_sets sets.now) at signed) }
{
    match sets.split_first() {
        None => Ok(Expr::Cell { at, signed }),
        Some((s, others)) => {
            if s.cell == at {
                let value = copy(alloc, &s.value)?;
                read_back(alloc, width_of(widths, at), signed, value)
            } else {
                cell_after(alloc, widths, others, at, signed)
            }
        }
    }
}

fn is_within(base: u16, len: u8, cell: u16) -> bool
    ensures { result ≡ nat_le base cell && nat_lt cell (base + len) }
{
    base <= cell && (cell as usize) < base as usize + len as usize
}

// One element of an array, where the set names it.
fn element_after(
    alloc: Global,
    width: Width,
    signed: bool,
    s: &Set,
    at: u16,
    index: &Expr,
    other: Expr,
) -> Result<Expr, AllocError>
    ensures { IfOk result (λ t. term_of t ≡ rules.choice (rules.binary BinOp.Eq (term_of index.now) (rules.constant at)) (rules.read_back width signed (term_of s.now.value)) (term_of other)) }
{
    let place = copy(alloc, index)?;
    let test = bin(alloc, BinOp::Eq, place, Expr::Const(at as u32))?;
    let value = copy(alloc, &s.value)?;
    let read = read_back(alloc, width, signed, value)?;
    choose(alloc, test, read, other)
}

fn pick_after(
    alloc: Global,
    widths: &[Width],
    sets: &[Set],
    base: u16,
    len: u8,
    signed: bool,
    index: &Expr,
) -> Result<Expr, AllocError>
    ensures { IfOk result (λ t. term_of t ≡ rules.pick_after (width_at widths.now) (plain_sets sets.now) base len signed (term_of index.now)) }
{
    match sets.split_first() {
        None => {
            let inner = copy(alloc, index)?;
            Ok(Expr::Pick {
                base,
                len,
                signed,
                index: Box::new(alloc, inner)?,
            })
        }
        Some((s, others)) => {
            let other = pick_after(alloc, widths, others, base, len, signed, index)?;
            if is_within(base, len, s.cell) {
                element_after(
                    alloc,
                    width_of(widths, s.cell),
                    signed,
                    s,
                    s.cell - base,
                    index,
                    other,
                )
            } else {
                Ok(other)
            }
        }
    }
}

/// An expression over the cells after these sets, as one over the cells before.
pub fn after(alloc: Global, widths: &[Width], sets: &[Set], expr: &Expr) -> Result<Expr, AllocError>
    ensures { IfOk result (λ t. term_of t ≡ rules.after (width_at widths.now) (plain_sets sets.now) (term_of expr.now)) }
{
    match expr {
        Expr::Const(n) => Ok(Expr::Const(*n)),
        Expr::Cell { at, signed } => cell_after(alloc, widths, sets, *at, *signed),
        Expr::Pick {
            base,
            len,
            signed,
            index,
        } => {
            let inner = after(alloc, widths, sets, index)?;
            pick_after(alloc, widths, sets, *base, *len, *signed, &inner)
        }
        Expr::Un(op, a) => {
            let inner = after(alloc, widths, sets, a)?;
            un(alloc, *op, inner)
        }
        Expr::Bin(op, a, b) => {
            let left = after(alloc, widths, sets, a)?;
            let right = after(alloc, widths, sets, b)?;
            bin(alloc, *op, left, right)
        }
        Expr::Choose(c, a, b) => {
            let test = after(alloc, widths, sets, c)?;
            let left = after(alloc, widths, sets, a)?;
            let right = after(alloc, widths, sets, b)?;
            choose(alloc, test, left, right)
        }
    }
}
