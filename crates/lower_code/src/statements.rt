// Typed statements over cells.
ghost use Rattle.std.specs.Prelude.{◌≡◌, ◌<◌, ◌^◌, ◌≤◌, IfOk, OnOk, length, drop, map, option_map, ◌∷◌, []};
ghost use Rattle.typed_unit.specs.Views as typed;
ghost use Rattle.typed_unit.specs.Views.{expr_of};
ghost use Rattle.lower_law.specs.Statements.{block};
ghost use Rattle.lower_law.specs.Translated.{cell_count, local_type, expr, condition, taken, statement, statements};
ghost use Rattle.lower_code.specs.Chains.{NumbersBelow, AllNumbersBelow, IfNumbers, ArgumentsBelow, TakenUnder, branch_cells, chained_cells, branched_cells, BranchesBelow};
ghost use Rattle.lower_pieces.specs.Trees.{tree_of, takes_of, statement_of};
ghost use Rattle.lower_pieces.specs.Within.{LocalsBelow};

use chk_base::place::Place;
use chk_base::word::Width;
use lower_pieces::translation::{expression, global_cell, global_type};
use lower_pieces::tree::{ExpressionTree, StatementTree, Takes};
use std::alloc::{AllocError, Global};
use typed_unit::typed::{CType, GlobalVar, Local, Taker, TypedBranch, TypedExpr, TypedStatement};

/// The type that a local was declared with. It takes no memory.
pub fn local_type(locals: &[Local], l: usize) -> CType
    ensures { result ≡ local_type locals.now l }
{
    match locals.get(l) {
        None => CType {
            width: Width::W32,
            signed: false,
        },
        Some(local) => local.ctype,
    }
}

// An empty condition is 1.
fn condition(
    alloc: Global,
    globals: &[GlobalVar],
    e: &Option<TypedExpr>,
) -> Result<ExpressionTree, AllocError>
    requires cells { cell_count globals.now < 2 ^ 16 }
    requires locals { LocalsBelow (2 ^ 16) (condition globals.now (option_map expr_of e.now)) }
    ensures { IfOk result (λ t. tree_of t ≡ condition globals.now (option_map expr_of e.now)) }
{
    match e {
        None => Ok(ExpressionTree::Number(1)),
        Some(e) => expression(alloc, globals, e),
    }
}

// A value, where there is one.
fn optional(
    alloc: Global,
    globals: &[GlobalVar],
    e: &Option<TypedExpr>,
) -> Result<Option<ExpressionTree>, AllocError>
    requires cells { cell_count globals.now < 2 ^ 16 }
    requires locals { IfNumbers (2 ^ 16) (option_map (expr globals.now) (option_map expr_of e.now)) }
    ensures { IfOk result (λ t. option_map tree_of t ≡ option_map (expr globals.now) (option_map expr_of e.now)) }
{
    match e {
        None => Ok(None),
        Some(e) => Ok(Some(expression(alloc, globals, e)?)),
    }
}

// The arguments of a call.
#[tactic(auto, using(crate::proofs::Chained::exprs_more, std::proofs::Common::append_assoc))]
fn arguments(
    alloc: Global,
    globals: &[GlobalVar],
    es: &[TypedExpr],
) -> Result<Vec<ExpressionTree>, AllocError>
    requires cells { cell_count globals.now < 2 ^ 16 }
    requires locals { ArgumentsBelow (2 ^ 16) (map (expr globals.now) (map expr_of es.now)) }
    ensures { IfOk result (λ t. map tree_of t.items ≡ map (expr globals.now) (map expr_of es.now)) }
{
    let mut trees = Vec::new(alloc);
    for e in es {
        trees.push(expression(alloc, globals, e)?)?;
    }
    Ok(trees)
}

// The local that takes a result.
fn taken(locals: &[Local], t: Option<Taker>) -> Option<Takes>
    requires { TakenUnder (2 ^ 16) (option_map (taken [] locals.now) t) }
    ensures { option_map takes_of result ≡ option_map (taken [] locals.now) t }
{
    match t {
        None => None,
        Some(t) => Some(Takes {
            at: t.local as u16,
            ctype: local_type(locals, t.local),
        }),
    }
}

/// A typed statement over cells.
#[cycle(statements)]
#[tactic(auto, using(crate::proofs::Chained::while_is, crate::proofs::Chained::block_is, crate::proofs::Chained::for_condition))]
pub fn statement(
    alloc: Global,
    globals: &[GlobalVar],
    locals: &[Local],
    s: &TypedStatement,
) -> Result<StatementTree, AllocError>
    requires cells { cell_count globals.now < 2 ^ 16 }
    requires numbers { NumbersBelow (2 ^ 16) (statement globals.now locals.now (typed.statement_of s.now)) }
    ensures { IfOk result (λ t. statement_of t ≡ statement globals.now locals.now (typed.statement_of s.now)) }
{
    match s {
        TypedStatement::Set {
            place,
            local,
            value,
        } => Ok(StatementTree::Set {
            place: *place,
            at: *local as u16,
            ctype: local_type(locals, *local),
            value: expression(alloc, globals, value)?,
        }),
        TypedStatement::Write {
            place,
            global,
            value,
        } => Ok(StatementTree::Write {
            place: *place,
            cell: global_cell(globals, *global),
            ctype: global_type(globals, *global),
            value: expression(alloc, globals, value)?,
        }),
        TypedStatement::WriteElement {
            place,
            global,
            len,
            index,
            value,
        } => Ok(StatementTree::WriteAt {
            place: *place,
            cell: global_cell(globals, *global),
            len: *len,
            ctype: global_type(globals, *global),
            index: expression(alloc, globals, index)?,
            value: expression(alloc, globals, value)?,
        }),
        TypedStatement::Input { place, taker } => Ok(StatementTree::Input {
            place: *place,
            at: taker.local as u16,
            ctype: local_type(locals, taker.local),
        }),
        TypedStatement::Call {
            place,
            function,
            arguments: args,
            taker,
            ..
        } => Ok(StatementTree::Call {
            place: *place,
            function: *function as u16,
            arguments: arguments(alloc, globals, args.as_slice())?,
            into: taken(locals, *taker),
        }),
        TypedStatement::Service { place, service, .. } => Ok(StatementTree::Serve {
            place: *place,
            service: *service,
        }),
        TypedStatement::Assert { place, condition } => Ok(StatementTree::Assert {
            place: *place,
            condition: expression(alloc, globals, condition)?,
        }),
        TypedStatement::If {
            place,
            branches,
            otherwise,
        } => match otherwise {
            None => branched(
                alloc,
                globals,
                locals,
                *place,
                branches.as_slice(),
                Vec::new(alloc),
            ),
            Some(body) => {
                let off = statement_block(alloc, globals, locals, body.as_slice())?;
                branched(alloc, globals, locals, *place, branches.as_slice(), off)
            }
        },
        TypedStatement::While {
            place,
            condition,
            body,
        } => Ok(StatementTree::Loop {
            place: *place,
            condition: expression(alloc, globals, condition)?,
            third: Vec::new(alloc),
            body: statement_block(alloc, globals, locals, body.as_slice())?,
        }),
        TypedStatement::For {
            place,
            start,
            condition: test,
            step,
            body,
        } => {
            let mut all = statement_block(alloc, globals, locals, start.as_slice())?;
            all.push(StatementTree::Loop {
                place: *place,
                condition: condition(alloc, globals, test)?,
                third: statement_block(alloc, globals, locals, step.as_slice())?,
                body: statement_block(alloc, globals, locals, body.as_slice())?,
            })?;
            Ok(StatementTree::Block(all))
        }
        TypedStatement::Return { place, value } => Ok(StatementTree::Return {
            place: *place,
            value: optional(alloc, globals, value)?,
        }),
        TypedStatement::Block { body, .. } => {
            Ok(StatementTree::Block(statement_block(alloc, globals, locals, body.as_slice())?))
        }
    }
}

/// Typed statements over cells.
#[cycle(statements)]
#[tactic(auto, using(crate::proofs::Chained::typed_more, crate::proofs::Chained::trees_push))]
pub fn statement_block(
    alloc: Global,
    globals: &[GlobalVar],
    locals: &[Local],
    ss: &[TypedStatement],
) -> Result<Vec<StatementTree>, AllocError>
    requires cells { cell_count globals.now < 2 ^ 16 }
    requires numbers { AllNumbersBelow (2 ^ 16) (statements globals.now locals.now (typed.block_of ss.now)) }
    ensures { IfOk result (λ b. block (map statement_of b.items) ≡ statements globals.now locals.now (typed.block_of ss.now)) }
{
    let mut trees = Vec::new(alloc);
    for s in ss {
        trees.push(statement(alloc, globals, locals, s)?)?;
    }
    Ok(trees)
}

// A branch, and what is done where its condition is 0.
#[cycle(statements)]
#[tactic(auto, using(crate::proofs::Chained::branch_is))]
fn branch(
    alloc: Global,
    globals: &[GlobalVar],
    locals: &[Local],
    b: &TypedBranch,
    off: Vec<StatementTree>,
) -> Result<StatementTree, AllocError>
    requires cells { cell_count globals.now < 2 ^ 16 }
    requires numbers { BranchesBelow globals.now locals.now (2 ^ 16) (typed.branch_of b.now ∷ []) }
    ensures { IfOk result (λ t. statement_of t ≡ branch_cells globals.now locals.now (typed.branch_of b.now) (block (map statement_of off.items))) }
{
    Ok(StatementTree::If {
        place: b.place,
        condition: expression(alloc, globals, &b.condition)?,
        on: statement_block(alloc, globals, locals, b.block.as_slice())?,
        off,
    })
}

// The branches from this one on, one behind another, the last first.
#[cycle(statements)]
#[tactic(auto, using(crate::proofs::Chained::chained_more))]
fn chained(
    alloc: Global,
    globals: &[GlobalVar],
    locals: &[Local],
    branches: &[TypedBranch],
    from: usize,
    off: Vec<StatementTree>,
) -> Result<Vec<StatementTree>, AllocError>
    requires cells { cell_count globals.now < 2 ^ 16 }
    requires numbers { BranchesBelow globals.now locals.now (2 ^ 16) (map typed.branch_of branches.now) }
    requires from { from ≤ length branches.now }
    ensures { IfOk result (λ b. block (map statement_of b.items) ≡ chained_cells globals.now locals.now (map typed.branch_of (drop from branches.now)) (block (map statement_of off.items))) }
{
    let mut rest = off;
    let mut i = branches.len();
    while i > from {
        i -= 1;
        let one = branch(alloc, globals, locals, &branches[i], rest)?;
        rest = Vec::new(alloc);
        rest.push(one)?;
    }
    Ok(rest)
}

// An `if` with its branches and its last block.
#[cycle(statements)]
#[tactic(auto, using(crate::proofs::Chained::branches_more, crate::proofs::Chained::one_below))]
fn branched(
    alloc: Global,
    globals: &[GlobalVar],
    locals: &[Local],
    place: Place,
    branches: &[TypedBranch],
    off: Vec<StatementTree>,
) -> Result<StatementTree, AllocError>
    requires cells { cell_count globals.now < 2 ^ 16 }
    requires numbers { BranchesBelow globals.now locals.now (2 ^ 16) (map typed.branch_of branches.now) }
    ensures { IfOk result (λ t. statement_of t ≡ branched_cells globals.now locals.now place (map typed.branch_of branches.now) (block (map statement_of off.items))) }
{
    match branches.get(0) {
        None => Ok(StatementTree::Block(off)),
        Some(first) => {
            let off = chained(alloc, globals, locals, branches, 1, off)?;
            branch(alloc, globals, locals, first, off)
        }
    }
}
