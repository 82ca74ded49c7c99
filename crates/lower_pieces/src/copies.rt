// Copies of expressions, and tests under guards.
ghost use Rattle.std.specs.Prelude.{◌≡◌, ◌+◌, IfOk, option_map};
ghost use Rattle.chk_base.specs.Term.{term_of};
ghost use Rattle.step_ir.specs.Points.{target_of};
ghost use Rattle.lower_law.specs.Items.{guarded};
ghost use Rattle.lower_pieces.specs.Guards.{guard_of, guard_term};

use chk_base::expr::Expr;
use std::alloc::{AllocError, Global};
use step_ir::code::Target;

/// All of these aren't 0.
#[derive(Clone, Copy)]
pub enum Guard<'a> {
    Always,
    When(&'a Expr, &'a Guard<'a>),
}

/// The same expression again.
pub fn copy(alloc: Global, e: &Expr) -> Result<Expr, AllocError>
    ensures { IfOk result (λ c. term_of c ≡ term_of e.now) }
{
    Ok(match e {
        Expr::Const(n) => Expr::Const(*n),
        Expr::Cell { at, signed } => Expr::Cell {
            at: *at,
            signed: *signed,
        },
        Expr::Pick {
            base,
            len,
            signed,
            index,
        } => Expr::Pick {
            base: *base,
            len: *len,
            signed: *signed,
            index: Box::new(alloc, copy(alloc, index)?)?,
        },
        Expr::Un(op, a) => Expr::Un(*op, Box::new(alloc, copy(alloc, a)?)?),
        Expr::Bin(op, a, b) => Expr::Bin(
            *op,
            Box::new(alloc, copy(alloc, a)?)?,
            Box::new(alloc, copy(alloc, b)?)?,
        ),
        Expr::Choose(c, a, b) => Expr::Choose(
            Box::new(alloc, copy(alloc, c)?)?,
            Box::new(alloc, copy(alloc, a)?)?,
            Box::new(alloc, copy(alloc, b)?)?,
        ),
    })
}

/// The same again, where there is one.
pub fn copy_if(alloc: Global, e: &Option<Expr>) -> Result<Option<Expr>, AllocError>
    ensures { IfOk result (λ c. option_map term_of c ≡ option_map term_of e.now) }
{
    match e {
        None => Ok(None),
        Some(e) => Ok(Some(copy(alloc, e)?)),
    }
}

/// The same target again.
pub fn copy_target(alloc: Global, t: &Target) -> Result<Target, AllocError>
    ensures { IfOk result (λ c. target_of c ≡ target_of t.now) }
{
    Ok(Target {
        base: t.base,
        len: t.len,
        index: copy_if(alloc, &t.index)?,
    })
}

/// The test where the guard holds, and else 0.
pub fn guard_test(alloc: Global, guard: &Guard<'_>, test: Expr) -> Result<Expr, AllocError>
    ensures { IfOk result (λ e. term_of e ≡ guarded (guard_of guard.now) (term_of test)) }
{
    match guard {
        Guard::Always => Ok(test),
        Guard::When(g, more) => {
            let inner = guard_test(alloc, more, test)?;
            Ok(Expr::Choose(
                Box::new(alloc, copy(alloc, g)?)?,
                Box::new(alloc, inner)?,
                Box::new(alloc, Expr::Const(0))?,
            ))
        }
    }
}

/// The guard as one expression, where it has any.
pub fn joined_guard(alloc: Global, guard: &Guard<'_>) -> Result<Option<Expr>, AllocError>
    ensures { IfOk result (λ g. option_map term_of g ≡ guard_term (guard_of guard.now)) }
{
    match guard {
        Guard::Always => Ok(None),
        Guard::When(_, _) => Ok(Some(guard_test(alloc, guard, Expr::Const(1))?)),
    }
}
