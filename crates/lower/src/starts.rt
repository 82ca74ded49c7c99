// The first point that runs, which is the same whatever the cells hold.
ghost use Rattle.std.specs.Prelude.{◌≡◌, IfOk, map, max, replicate};
ghost use Rattle.chk_base.specs.declared.word.Width.TheVariants.{W32};
ghost use Rattle.chk_base.specs.Operators.{truth};
ghost use Rattle.chk_base.specs.Term.{term_of};
ghost use Rattle.chk_base.specs.Widths.{zero_word};
ghost use Rattle.chk_base.specs.WordValue.{IsWithin};
ghost use Rattle.step_ir.specs.Points.{item_of};
ghost use Rattle.step_ir.specs.PointStep.{first, or_zero};
ghost use Rattle.lower.specs.Zeros.{at_zero};

use chk_base::cells::Cells;
use chk_base::expr::Expr;
use chk_base::meaning::eval;
use chk_base::word::Width;
use std::alloc::{AllocError, Global};

fn greater(a: usize, b: usize) -> usize
    ensures { result ≡ max a b }
{
    if a < b { b } else { a }
}

// An expression reads only the first cells, so many.
#[tactic(auto, using(crate::proofs::Zeros::within_first, crate::proofs::Zeros::within_second, crate::proofs::Zeros::within_choose))]
fn reach(expr: &Expr) -> usize
    ensures { IsWithin result (term_of expr.now) }
{
    match expr {
        Expr::Const(_) => 0,
        Expr::Cell { at, .. } => *at as usize + 1,
        Expr::Pick {
            base,
            len,
            index,
            ..
        } => greater(*base as usize + *len as usize, reach(index)),
        Expr::Un(_, a) => reach(a),
        Expr::Bin(_, a, b) => greater(reach(a), reach(b)),
        Expr::Choose(c, a, b) => greater(reach(c), greater(reach(a), reach(b))),
    }
}

// So many cells that hold 0.
fn zero_cells(alloc: Global, count: usize) -> Result<Cells, AllocError>
    ensures { IfOk result (λ cells. cells ≡ map zero_word (replicate count W32)) }
{
    let widths = Vec::from_elem(alloc, Width::W32, count)?;
    Cells::new(alloc, &widths)
}

// Whether an expression isn't 0 where all cells hold 0.
fn runs(alloc: Global, expr: &Expr) -> Result<bool, AllocError>
    ensures { IfOk result (λ b. b ≡ truth (at_zero (term_of expr.now))) }
{
    let cells = zero_cells(alloc, reach(expr))?;
    let word = eval(expr, &cells);
    Ok(word.bits != 0)
}

// The point of the first next whose expression isn't 0 where all cells hold 0.
#[tactic(auto, using(crate::proofs::Zeros::nexts_more))]
pub(crate) fn first_running(alloc: Global, nexts: &[(Expr, u16)]) -> Result<u16, AllocError>
    ensures { IfOk result (λ z. z ≡ or_zero (first at_zero (map item_of nexts.now))) }
{
    for next in nexts {
        if runs(alloc, &next.0)? {
            return Ok(next.1);
        }
    }
    Ok(0)
}
