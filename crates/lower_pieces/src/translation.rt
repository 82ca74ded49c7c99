// Typed expressions over cells.
ghost use Rattle.std.specs.Prelude.{◌≡◌, ◌+◌, ◌<◌, ◌≤◌, ◌^◌, IfOk, option_map, slice_get, take, length, min};
ghost use Rattle.typed_unit.specs.Plain.{type_of};
ghost use Rattle.typed_unit.specs.Views.{expr_of};
ghost use Rattle.lower_law.specs.Typed as plain;
ghost use Rattle.lower_law.specs.Translated.{elements, cell_count, global_cell, global_type, binary, expr};
ghost use Rattle.lower_pieces.specs.Trees.{tree_of};
ghost use Rattle.lower_pieces.specs.Within.{LocalsBelow};

use crate::tree::ExpressionTree;
use c_unit::expression::{BinaryOperator, UnaryOperator};
use chk_base::word::Width;
use std::alloc::{AllocError, Global};
use typed_unit::typed::{CType, GlobalVar, TypedExpr};

/// The type of an expression. It takes no memory.
pub fn ctype_of(e: &TypedExpr) -> CType
    ensures { result ≡ type_of (expr_of e.now) }
{
    match e {
        TypedExpr::Number(_, ctype, _) => *ctype,
        TypedExpr::Truth(_, ctype, _) => *ctype,
        TypedExpr::Local(_, ctype, _) => *ctype,
        TypedExpr::Global(_, ctype, _) => *ctype,
        TypedExpr::Element { ctype, .. } => *ctype,
        TypedExpr::Parenthesis(_, ctype, _) => *ctype,
        TypedExpr::Unary(_, ctype, _, _) => *ctype,
        TypedExpr::Cast(_, ctype, _) => *ctype,
        TypedExpr::Binary(_, ctype, _, _, _) => *ctype,
        TypedExpr::Conditional(_, ctype, _, _, _) => *ctype,
        TypedExpr::Conversion(_, ctype, _) => *ctype,
    }
}

// How many cells a variable has.
fn elements(len: Option<u8>) -> u16
    ensures { result ≡ elements len }
{
    match len {
        None => 1,
        Some(len) => len as u16,
    }
}

// How many cells variables have.
#[tactic(auto, using(crate::proofs::Cells::globals_more))]
fn cell_count(globals: &[GlobalVar]) -> u16
    requires { cell_count globals.now < 2 ^ 16 }
    ensures { result ≡ cell_count globals.now }
{
    let mut total: u16 = 0;
    for global in globals {
        total += elements(global.len);
    }
    total
}

/// The first cell of a variable. It takes no memory.
#[tactic(auto, using(crate::proofs::Cells::few_before, crate::proofs::Cells::all_before))]
pub fn global_cell(globals: &[GlobalVar], g: usize) -> u16
    requires { cell_count globals.now < 2 ^ 16 }
    ensures { result ≡ global_cell globals.now g }
{
    if g < globals.len() {
        cell_count(&globals[..g])
    } else {
        cell_count(globals)
    }
}

/// The type that a variable was declared with. It takes no memory.
pub fn global_type(globals: &[GlobalVar], g: usize) -> CType
    ensures { result ≡ global_type globals.now g }
{
    match globals.get(g) {
        None => CType {
            width: Width::W32,
            signed: false,
        },
        Some(global) => global.ctype,
    }
}

// An operator on values, or `&&` or `||`.
fn binary(
    alloc: Global,
    op: BinaryOperator,
    signed: bool,
    a: ExpressionTree,
    b: ExpressionTree,
) -> Result<ExpressionTree, AllocError>
    ensures { IfOk result (λ t. tree_of t ≡ binary op signed (tree_of a) (tree_of b)) }
{
    let a = Box::new(alloc, a)?;
    let b = Box::new(alloc, b)?;
    Ok(match op {
        BinaryOperator::LogicalAnd => ExpressionTree::Conjunction(a, b),
        BinaryOperator::LogicalOr => ExpressionTree::Disjunction(a, b),
        _ => ExpressionTree::Binary(op, signed, a, b),
    })
}

fn element(
    alloc: Global,
    globals: &[GlobalVar],
    g: usize,
    len: u8,
    index: ExpressionTree,
) -> Result<ExpressionTree, AllocError>
    requires { cell_count globals.now < 2 ^ 16 }
    ensures { IfOk result (λ t. tree_of t ≡ plain.Element (global_cell globals.now g) len (global_type globals.now g) (tree_of index)) }
{
    Ok(ExpressionTree::Element {
        cell: global_cell(globals, g),
        len,
        ctype: global_type(globals, g),
        index: Box::new(alloc, index)?,
    })
}

fn unary(
    alloc: Global,
    op: UnaryOperator,
    signed: bool,
    a: ExpressionTree,
) -> Result<ExpressionTree, AllocError>
    ensures { IfOk result (λ t. tree_of t ≡ plain.Unary op signed (tree_of a)) }
{
    Ok(ExpressionTree::Unary(op, signed, Box::new(alloc, a)?))
}

fn converted(alloc: Global, ctype: CType, a: ExpressionTree) -> Result<ExpressionTree, AllocError>
    ensures { IfOk result (λ t. tree_of t ≡ plain.Converted ctype (tree_of a)) }
{
    Ok(ExpressionTree::Converted(ctype, Box::new(alloc, a)?))
}

fn conditional(
    alloc: Global,
    c: ExpressionTree,
    a: ExpressionTree,
    b: ExpressionTree,
) -> Result<ExpressionTree, AllocError>
    ensures { IfOk result (λ t. tree_of t ≡ plain.Conditional (tree_of c) (tree_of a) (tree_of b)) }
{
    Ok(ExpressionTree::Conditional(
        Box::new(alloc, c)?,
        Box::new(alloc, a)?,
        Box::new(alloc, b)?,
    ))
}

/// A typed expression over cells.
pub fn expression(
    alloc: Global,
    globals: &[GlobalVar],
    e: &TypedExpr,
) -> Result<ExpressionTree, AllocError>
    requires cells { cell_count globals.now < 2 ^ 16 }
    requires locals { LocalsBelow (2 ^ 16) (expr globals.now (expr_of e.now)) }
    ensures { IfOk result (λ t. tree_of t ≡ expr globals.now (expr_of e.now)) }
{
    match e {
        TypedExpr::Number(_, _, n) => Ok(ExpressionTree::Number(*n)),
        TypedExpr::Truth(_, _, b) => Ok(ExpressionTree::Number(if *b { 1 } else { 0 })),
        TypedExpr::Local(_, ctype, local) => Ok(ExpressionTree::Local {
            at: *local as u16,
            ctype: *ctype,
        }),
        TypedExpr::Global(_, _, g) => Ok(ExpressionTree::Global {
            cell: global_cell(globals, *g),
            ctype: global_type(globals, *g),
        }),
        TypedExpr::Element {
            global,
            len,
            index,
            ..
        } => {
            let index = expression(alloc, globals, index.get())?;
            element(alloc, globals, *global, *len, index)
        }
        TypedExpr::Parenthesis(_, _, a) => expression(alloc, globals, a.get()),
        TypedExpr::Unary(_, _, op, a) => {
            let signed = ctype_of(a.get()).signed;
            let a = expression(alloc, globals, a.get())?;
            unary(alloc, *op, signed, a)
        }
        TypedExpr::Cast(_, ctype, a) => {
            let a = expression(alloc, globals, a.get())?;
            converted(alloc, *ctype, a)
        }
        TypedExpr::Binary(_, _, op, a, b) => {
            let signed = ctype_of(a.get()).signed;
            let a = expression(alloc, globals, a.get())?;
            let b = expression(alloc, globals, b.get())?;
            binary(alloc, *op, signed, a, b)
        }
        TypedExpr::Conditional(_, _, c, a, b) => {
            let c = expression(alloc, globals, c.get())?;
            let a = expression(alloc, globals, a.get())?;
            let b = expression(alloc, globals, b.get())?;
            conditional(alloc, c, a, b)
        }
        TypedExpr::Conversion(_, ctype, a) => {
            let a = expression(alloc, globals, a.get())?;
            converted(alloc, *ctype, a)
        }
    }
}
