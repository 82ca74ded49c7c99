// What the completing point of a thing does.
ghost use Rattle.std.specs.Prelude.{◌≡◌, ◌+◌, ◌-◌, ◌<◌, ◌^◌, ◌++◌, ◌∷◌, [], IfOk, OnOk, map, option_map, length, min, None};
ghost use Rattle.chk_base.specs.Term.{term_of};
ghost use Rattle.step_ir.specs.Points.{plain_action, return_of};
ghost use Rattle.step_ir.specs.Points as code;
ghost use Rattle.lower_law.specs.Lowered.{first_term, second_term, sets, set_of, leaving};
ghost use Rattle.lower_pieces.specs.Acting.{acting, context_of, params_of, ActsBelow};
ghost use Rattle.lower_pieces.specs.Trees.{tree_of, takes_of, statement_of};

use crate::copies::copy;
use crate::tree::{ExpressionTree, FunctionTree, StatementTree, Takes};
use chk_base::expr::Expr;
use chk_base::sets::{Set, Sets};
use lower_law::operations::convert;
use std::alloc::{AllocError, Global};
use step_ir::code::{Action, Nexts, Target};
use typed_unit::typed::CType;

/// The body that statements stand in: its first local's cell, and, unless it is an entity's own, where a return goes and the cell that it
/// sets.
#[derive(Drop)]
pub struct Frame {
    pub base: u16,
    pub inner: bool,
    pub after: Nexts,
    pub into: Option<Takes>,
}

/// The first term.
pub fn first_term(alloc: Global, terms: &[Expr]) -> Result<Expr, AllocError>
    ensures { IfOk result (λ t. term_of t ≡ first_term (map term_of terms.now)) }
{
    match terms.get(0) {
        None => Ok(Expr::Const(0)),
        Some(t) => copy(alloc, t),
    }
}

/// The second term.
pub fn second_term(alloc: Global, terms: &[Expr]) -> Result<Expr, AllocError>
    ensures { IfOk result (λ t. term_of t ≡ second_term (map term_of terms.now)) }
{
    match terms.get(1) {
        None => Ok(Expr::Const(0)),
        Some(t) => copy(alloc, t),
    }
}

fn fewer(a: usize, b: usize) -> usize
    ensures { result ≡ min a b }
{
    if a < b { a } else { b }
}

// One more cell with its value.
fn set_one(alloc: Global, sets: &mut Sets, cell: u16, term: &Expr) -> Result<(), AllocError>
    ensures { OnOk result (map code.set_of sets.new ≡ map code.set_of sets.old ++ (cell, term_of term.now) ∷ []) }
{
    let value = copy(alloc, term)?;
    sets.push(Set { cell, value })?;
    Ok(())
}

// Each parameter's cell with its value.
#[tactic(auto, using(crate::proofs::Walked::sets_more, std::proofs::Common::append_assoc))]
fn sets(alloc: Global, cell: u16, params: &[CType], terms: &[Expr]) -> Result<Sets, AllocError>
    requires { cell + length params.now < 2 ^ 16 }
    ensures { IfOk result (λ s. map code.set_of s ≡ sets cell params.now (map term_of terms.now)) }
{
    let mut sets = Sets::new(alloc);
    let mut cell = cell;
    for i in 0..fewer(params.len(), terms.len()) {
        set_one(alloc, &mut sets, cell, &terms[i])?;
        cell += 1;
    }
    Ok(sets)
}

// What a return sets, where a result is given and taken.
fn return_set(
    alloc: Global,
    into: Option<Takes>,
    value: &Option<ExpressionTree>,
    terms: &[Expr],
) -> Result<Option<(u16, Expr)>, AllocError>
    ensures { IfOk result (λ s. option_map return_of s ≡ set_of (option_map takes_of into) (option_map tree_of value.now) (map term_of terms.now)) }
{
    match into {
        None => Ok(None),
        Some(a) => match value {
            None => Ok(None),
            Some(_) => Ok(Some((a.at, convert(alloc, a.ctype, first_term(alloc, terms)?)?))),
        },
    }
}

/// The end of a call, or of an entity's body.
pub fn leaving(inner: bool, set: Option<(u16, Expr)>) -> Action
    ensures { plain_action result ≡ leaving inner (option_map return_of set) }
{
    if inner {
        Action::Return(set)
    } else {
        Action::End
    }
}

/// The parameters of a function.
pub fn params_of(functions: &[FunctionTree], f: u16) -> &[CType]
    ensures { result.now ≡ params_of functions.now f }
{
    match functions.get(f as usize) {
        None => &[],
        Some(f) => f.params.as_slice(),
    }
}

/// What the completing point of a thing does, where the cells of its call begin at `cell`.
pub fn acting(
    alloc: Global,
    functions: &[FunctionTree],
    frame: &Frame,
    cell: u16,
    s: &StatementTree,
    terms: &[Expr],
) -> Result<Action, AllocError>
    requires { ActsBelow (2 ^ 16) functions.now frame.now.base cell (statement_of s.now) }
    ensures { IfOk result (λ a. plain_action a ≡ acting functions.now (context_of frame.now) cell (statement_of s.now) (map term_of terms.now)) }
{
    Ok(match s {
        StatementTree::Set { at, .. } => Action::Local {
            cell: frame.base + *at,
            value: first_term(alloc, terms)?,
        },
        StatementTree::Write { cell, .. } => Action::Write {
            target: Target {
                base: *cell,
                len: 1,
                index: None,
            },
            value: first_term(alloc, terms)?,
        },
        StatementTree::WriteAt { cell, len, .. } => Action::Write {
            target: Target {
                base: *cell,
                len: *len,
                index: Some(first_term(alloc, terms)?),
            },
            value: second_term(alloc, terms)?,
        },
        StatementTree::If { .. } => Action::Branch(first_term(alloc, terms)?),
        StatementTree::Loop { .. } => Action::Branch(first_term(alloc, terms)?),
        StatementTree::Assert { .. } => Action::Assert(first_term(alloc, terms)?),
        StatementTree::Input { at, .. } => Action::Input(frame.base + *at),
        StatementTree::Call { function, .. } => Action::Call {
            function: *function,
            sets: sets(alloc, cell, params_of(functions, *function), terms)?,
        },
        StatementTree::Return { value, .. } => leaving(
            frame.inner,
            return_set(alloc, frame.into, value, terms)?,
        ),
        StatementTree::Serve { service, .. } => Action::Service(*service),
        StatementTree::Block(_) => Action::End,
    })
}
