// The things that bodies do, each with what is counted for it.
ghost use Rattle.std.specs.Prelude.{◌≡◌, ◌++◌, [], ◌∷◌, OnOk, IfOk, Some, None, map, option_map};
ghost use Rattle.typed_unit.specs.Views.{expr_of};
ghost use Rattle.lower_law.specs.Counts.{asking, if_there};
ghost use Rattle.unit_counts.specs.Sizes.{size_of, statement_sizes, block_sizes, branches_sizes};

use crate::expressions::{plus, reads, reads_all, weight, weight_all};
use sqlite_items::Items;
use std::alloc::{AllocError, Global};
use typed_unit::typed::{TypedBranch, TypedExpr, TypedStatement};

/// What is counted for a thing that a body does, without the body of the function that it calls: its read sites, what its operators and
/// its array accesses weigh, and the number of the function.
#[derive(Clone, Copy, PartialEq, Eq, Debug)]
pub struct ThingSize {
    pub reads: u64,
    pub weight: u64,
    pub calls: Option<usize>,
}

/// The things of a body in the order of the text.
pub type ThingSizes = Items<ThingSize>;

// A thing that asks nothing.
fn no_question() -> ThingSize
    ensures { result ≡ size_of (asking []) }
{
    ThingSize {
        reads: 0,
        weight: 0,
        calls: None,
    }
}

// A thing that asks one expression.
fn question(e: &TypedExpr) -> ThingSize
    ensures { result ≡ size_of (asking (expr_of e.now ∷ [])) }
{
    ThingSize {
        reads: reads(e),
        weight: weight(e),
        calls: None,
    }
}

fn optional_question(e: &Option<TypedExpr>) -> ThingSize
    ensures { result ≡ size_of (asking (if_there (option_map expr_of e.now))) }
{
    match e {
        None => no_question(),
        Some(e) => question(e),
    }
}

// A write into an array of this length.
fn element_write(len: u8, index: &TypedExpr, value: &TypedExpr) -> ThingSize
    ensures { result ≡ size_of (record { asks = expr_of index.now ∷ expr_of value.now ∷ []; target = len; calls = None }) }
{
    ThingSize {
        reads: plus(reads(index), reads(value)),
        weight: plus(plus(weight(index), weight(value)), len as u64),
        calls: None,
    }
}

// A call of this function.
fn call(function: usize, arguments: &[TypedExpr]) -> ThingSize
    ensures { result ≡ size_of (record { asks = map expr_of arguments.now; target = 0; calls = Some function }) }
{
    ThingSize {
        reads: reads_all(arguments),
        weight: weight_all(arguments),
        calls: Some(function),
    }
}

// Puts the things of a statement at the end.
#[cycle(walk)]
#[tactic(auto, using(crate::proofs::ThingParts::of_if, crate::proofs::ThingParts::of_lone_if, crate::proofs::ThingParts::of_while, crate::proofs::ThingParts::of_for))]
fn push_statement(sizes: &mut ThingSizes, statement: &TypedStatement) -> Result<(), AllocError>
    ensures { OnOk result (sizes.new ≡ sizes.old ++ statement_sizes statement.now) }
{
    match statement {
        TypedStatement::Set { value, .. } => sizes.push(question(value)),
        TypedStatement::Write { value, .. } => sizes.push(question(value)),
        TypedStatement::WriteElement {
            len,
            index,
            value,
            ..
        } => sizes.push(element_write(*len, index, value)),
        TypedStatement::Input { .. } => sizes.push(no_question()),
        TypedStatement::Call {
            function,
            arguments,
            ..
        } => sizes.push(call(*function, arguments.as_slice())),
        TypedStatement::Service { .. } => sizes.push(no_question()),
        TypedStatement::Assert { condition, .. } => sizes.push(question(condition)),
        TypedStatement::If {
            branches,
            otherwise,
            ..
        } => {
            push_branches(sizes, branches.as_slice())?;
            match otherwise {
                None => Ok(()),
                Some(body) => push_block(sizes, body.as_slice()),
            }
        }
        TypedStatement::While {
            condition,
            body,
            ..
        } => {
            sizes.push(question(condition))?;
            push_block(sizes, body.as_slice())
        }
        TypedStatement::For {
            start,
            condition,
            step,
            body,
            ..
        } => {
            push_block(sizes, start.as_slice())?;
            sizes.push(optional_question(condition))?;
            push_block(sizes, step.as_slice())?;
            push_block(sizes, body.as_slice())
        }
        TypedStatement::Return { value, .. } => sizes.push(optional_question(value)),
        TypedStatement::Block { body, .. } => push_block(sizes, body.as_slice()),
    }
}

// The same for statements one after another.
#[cycle(walk)]
#[tactic(auto, using(crate::proofs::ThingParts::statement_more))]
fn push_block(sizes: &mut ThingSizes, block: &[TypedStatement]) -> Result<(), AllocError>
    ensures { OnOk result (sizes.new ≡ sizes.old ++ block_sizes block.now) }
{
    for statement in block {
        push_statement(sizes, statement)?;
    }
    Ok(())
}

// The same for branches one after another.
#[cycle(walk)]
#[tactic(auto, using(crate::proofs::ThingParts::branch_more))]
fn push_branches(sizes: &mut ThingSizes, branches: &[TypedBranch]) -> Result<(), AllocError>
    ensures { OnOk result (sizes.new ≡ sizes.old ++ branches_sizes branches.now) }
{
    for branch in branches {
        sizes.push(question(&branch.condition))?;
        push_block(sizes, branch.block.as_slice())?;
    }
    Ok(())
}

/// The things of a body.
pub fn things_of(alloc: Global, block: &[TypedStatement]) -> Result<ThingSizes, AllocError>
    ensures { IfOk result (λ sizes. sizes ≡ block_sizes block.now) }
{
    let mut sizes = Items::new(alloc);
    push_block(&mut sizes, block)?;
    Ok(sizes)
}
