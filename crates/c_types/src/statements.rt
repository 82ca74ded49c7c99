// Statements with what each name means and with the types of their expressions.
ghost use Rattle.std.specs.Prelude.{◌≡◌, ◌++◌, ◌∷◌, [], map, IfOk, OnOk, option_map};
ghost use Rattle.c_rules.specs.Files.{meaning};
ghost use Rattle.c_rules.specs.Scopes.{entered, left};
ghost use Rattle.c_rules.specs.StatementRules.{after, after_block, after_branches, after_local, after_start, after_declarators};
ghost use Rattle.c_rules.specs.Written.{written, written_block, written_branches};
ghost use Rattle.typed_unit.specs.Plain as p;
ghost use Rattle.typed_unit.specs.Views.{expr_of, statement_of, branch_of, block_of as plain_block, branched, block_or_none};
ghost use Rattle.typed_unit.specs.TypedStatements.{set_of, set_element_of, assign_of, update_of, one_at, simple_of, target_of, initial_of, declarators_of, local_of, start_of, step_of, optional_of, result_of, value_of, typed_statement, typed_statements, typed_branches};

use crate::calls::{call_of, nothing_done, taker_of};
use crate::convert::{binary_of, converted, ctype_named, int32, promoted};
use crate::expressions::{array_length, typed_expression, variable_of};
use c_rules::meaning::{LocalMeaning, Meaning};
use c_rules::names::Names;
use c_rules::scope::Scope;
use c_unit::expression::{BinaryOperator, Expression, RightSide, TypeName};
use c_unit::statement::{Branch, Declarator, Local, Simple, Start, Statement};
use chk_base::place::Place;
use chk_base::text::Name;
use sqlite_items::Items;
use std::alloc::{AllocError, Global};
use typed_unit::typed::{CType, TypedBlock, TypedBranch, TypedBranches, TypedExpr, TypedStatement};

// A value to the scalar of this meaning.
fn set_of(
    alloc: Global,
    place: Place,
    target: Meaning,
    value: TypedExpr,
) -> Result<TypedStatement, AllocError>
    ensures { IfOk result (λ s. statement_of s ≡ set_of place target (expr_of value)) }
{
    match target {
        Meaning::Local(l) => Ok(TypedStatement::Set {
            place,
            local: l.number,
            value: converted(alloc, ctype_named(l.type_name), value)?,
        }),
        Meaning::Variable(v) => Ok(TypedStatement::Write {
            place,
            global: v.number,
            value: converted(alloc, ctype_named(v.type_name), value)?,
        }),
        _ => Ok(nothing_done(alloc, place)),
    }
}

// A value to an element of what has this meaning.
fn set_element_of(
    alloc: Global,
    place: Place,
    target: Meaning,
    index: TypedExpr,
    value: TypedExpr,
) -> Result<TypedStatement, AllocError>
    ensures { IfOk result (λ s. statement_of s ≡ set_element_of place target (expr_of index) (expr_of value)) }
{
    match target {
        Meaning::Variable(v) => Ok(TypedStatement::WriteElement {
            place,
            global: v.number,
            len: array_length(v.len),
            index: promoted(alloc, index)?,
            value: converted(alloc, ctype_named(v.type_name), value)?,
        }),
        _ => Ok(nothing_done(alloc, place)),
    }
}

// An assignment to what has this meaning.
fn assign_of(
    alloc: Global,
    names: &Names<'_>,
    scope: &Scope<'_>,
    place: Place,
    target: Meaning,
    right: &RightSide,
) -> Result<TypedStatement, AllocError>
    ensures { IfOk result (λ s. statement_of s ≡ assign_of names.now place target (meaning names.now scope.now.visible) right.now) }
{
    match right {
        RightSide::Value(e) => {
            let value = typed_expression(alloc, names, scope, e)?;
            set_of(alloc, place, target, value)
        }
        RightSide::Call(call) => call_of(alloc, names, scope, place, taker_of(target), call),
    }
}

// The target is set to what the operator gives for it and a value.
fn update_of(
    alloc: Global,
    place: Place,
    target: Meaning,
    op: BinaryOperator,
    e: TypedExpr,
) -> Result<TypedStatement, AllocError>
    ensures { IfOk result (λ s. statement_of s ≡ update_of place target op (expr_of e)) }
{
    let value = binary_of(alloc, place, op, variable_of(place, target), e)?;
    set_of(alloc, place, target, value)
}

fn one_at(place: Place) -> TypedExpr
    ensures { expr_of result ≡ one_at place }
{
    TypedExpr::Number(place, int32(), 1)
}

// A statement without statements in it.
#[tactic(auto, unfolding(typed_unit::specs::TypedStatements::simple_of))]
fn simple_of(
    alloc: Global,
    names: &Names<'_>,
    scope: &Scope<'_>,
    simple: &Simple,
) -> Result<TypedStatement, AllocError>
    ensures { IfOk result (λ s. statement_of s ≡ simple_of names.now (meaning names.now scope.now.visible) simple.now) }
{
    match simple {
        Simple::Assign(name, right) => {
            let target = names.meaning(scope, name.text.as_bytes());
            assign_of(alloc, names, scope, name.place, target, right)
        }
        Simple::AssignElement(name, index, value) => {
            let target = names.meaning(scope, name.text.as_bytes());
            let index = typed_expression(alloc, names, scope, index)?;
            let value = typed_expression(alloc, names, scope, value)?;
            set_element_of(alloc, name.place, target, index, value)
        }
        Simple::Update(name, op, value) => {
            let target = names.meaning(scope, name.text.as_bytes());
            let value = typed_expression(alloc, names, scope, value)?;
            update_of(alloc, name.place, target, *op, value)
        }
        Simple::PostIncrement(name) => {
            let target = names.meaning(scope, name.text.as_bytes());
            update_of(
                alloc,
                name.place,
                target,
                BinaryOperator::Add,
                one_at(name.place),
            )
        }
        Simple::PostDecrement(name) => {
            let target = names.meaning(scope, name.text.as_bytes());
            update_of(
                alloc,
                name.place,
                target,
                BinaryOperator::Subtract,
                one_at(name.place),
            )
        }
        Simple::PreIncrement(place, name) => {
            let target = names.meaning(scope, name.text.as_bytes());
            update_of(alloc, *place, target, BinaryOperator::Add, one_at(*place))
        }
        Simple::PreDecrement(place, name) => {
            let target = names.meaning(scope, name.text.as_bytes());
            update_of(
                alloc,
                *place,
                target,
                BinaryOperator::Subtract,
                one_at(*place),
            )
        }
        Simple::Call(call) => call_of(alloc, names, scope, call.name.place, None, call),
        Simple::Assert(place, condition) => Ok(TypedStatement::Assert {
            place: *place,
            condition: typed_expression(alloc, names, scope, condition)?,
        }),
    }
}

// A local as a target, by its number.
fn target_of(number: usize, type_name: TypeName) -> Meaning
    ensures { result ≡ target_of number type_name }
{
    Meaning::Local(LocalMeaning {
        number,
        type_name,
        constant: false,
    })
}

// Puts what a declared local is set to behind the others.
#[tactic(auto, using(crate::proofs::Parts::put_one))]
fn put_initial(
    alloc: Global,
    names: &Names<'_>,
    scope: &Scope<'_>,
    block: &mut TypedBlock,
    name: &Name,
    target: Meaning,
    initial: &Option<RightSide>,
) -> Result<(), AllocError>
    ensures { OnOk result (map statement_of block.new ≡ map statement_of block.old ++ initial_of names.now name.now target (meaning names.now scope.now.visible) initial.now) }
{
    match initial {
        None => Ok(()),
        Some(right) => {
            let s = assign_of(alloc, names, scope, name.place, target, right)?;
            block.push(s)
        }
    }
}

// Puts what declared locals are set to behind the others; the scope has them then.
#[tactic(auto, using(crate::proofs::Parts::one_declarator, crate::proofs::Parts::one_declared))]
fn put_declarators<'a>(
    alloc: Global,
    names: &Names<'_>,
    scope: &mut Scope<'a>,
    block: &mut TypedBlock,
    type_name: TypeName,
    constant: bool,
    declarators: &'a [Declarator],
) -> Result<(), AllocError>
    ensures block { OnOk result (map statement_of block.new ≡ map statement_of block.old ++ declarators_of names.now type_name constant declarators.now scope.old) }
    ensures scope { OnOk result (scope.new ≡ after_declarators type_name constant declarators.now scope.old) }
{
    for d in declarators {
        let target = target_of(scope.len(), type_name);
        put_initial(alloc, names, scope, block, &d.name, target, &d.initial)?;
        scope.declare(&d.name, type_name, constant)?;
    }
    Ok(())
}

fn put_local<'a>(
    alloc: Global,
    names: &Names<'_>,
    scope: &mut Scope<'a>,
    block: &mut TypedBlock,
    local: &'a Local,
) -> Result<(), AllocError>
    ensures block { OnOk result (map statement_of block.new ≡ map statement_of block.old ++ local_of names.now local.now scope.old) }
    ensures scope { OnOk result (scope.new ≡ after_local local.now scope.old) }
{
    put_declarators(
        alloc,
        names,
        scope,
        block,
        local.type_name,
        local.constant,
        local.declarators.as_slice(),
    )
}

// Puts a statement without statements in it behind the others.
#[tactic(auto, using(crate::proofs::Parts::put_one))]
fn put_simple(
    alloc: Global,
    names: &Names<'_>,
    scope: &Scope<'_>,
    block: &mut TypedBlock,
    simple: &Simple,
) -> Result<(), AllocError>
    ensures { OnOk result (map statement_of block.new ≡ map statement_of block.old ++ simple_of names.now (meaning names.now scope.now.visible) simple.now ∷ []) }
{
    let s = simple_of(alloc, names, scope, simple)?;
    block.push(s)
}

// Puts what stands first in the head of a `for` behind the others.
fn put_start<'a>(
    alloc: Global,
    names: &Names<'_>,
    scope: &mut Scope<'a>,
    block: &mut TypedBlock,
    start: &'a Option<Start>,
) -> Result<(), AllocError>
    ensures block { OnOk result (map statement_of block.new ≡ map statement_of block.old ++ start_of names.now start.now scope.old) }
    ensures scope { OnOk result (scope.new ≡ after_start start.now scope.old) }
{
    match start {
        None => Ok(()),
        Some(Start::Local(local)) => put_local(alloc, names, scope, block, local),
        Some(Start::Simple(simple)) => put_simple(alloc, names, scope, block, simple),
    }
}

// What stands last in it.
fn step_of(
    alloc: Global,
    names: &Names<'_>,
    scope: &Scope<'_>,
    step: &Option<Simple>,
) -> Result<TypedBlock, AllocError>
    ensures { IfOk result (λ b. map statement_of b ≡ step_of names.now (meaning names.now scope.now.visible) step.now) }
{
    let mut block = Items::new(alloc);
    match step {
        None => {}
        Some(simple) => put_simple(alloc, names, scope, &mut block, simple)?,
    }
    Ok(block)
}

fn optional_of(
    alloc: Global,
    names: &Names<'_>,
    scope: &Scope<'_>,
    e: &Option<Expression>,
) -> Result<Option<TypedExpr>, AllocError>
    ensures { IfOk result (λ x. option_map expr_of x ≡ optional_of e.now (meaning names.now scope.now.visible)) }
{
    match e {
        None => Ok(None),
        Some(e) => Ok(Some(typed_expression(alloc, names, scope, e)?)),
    }
}

// A value in the type of the result.
fn result_of(alloc: Global, gives: Option<CType>, e: TypedExpr) -> Result<TypedExpr, AllocError>
    ensures { IfOk result (λ x. expr_of x ≡ result_of gives (expr_of e)) }
{
    match gives {
        None => Ok(e),
        Some(t) => converted(alloc, t, e),
    }
}

fn value_of(
    alloc: Global,
    names: &Names<'_>,
    scope: &Scope<'_>,
    gives: Option<CType>,
    e: &Option<Expression>,
) -> Result<Option<TypedExpr>, AllocError>
    ensures { IfOk result (λ x. option_map expr_of x ≡ value_of gives e.now (meaning names.now scope.now.visible)) }
{
    match e {
        None => Ok(None),
        Some(e) => {
            let e = typed_expression(alloc, names, scope, e)?;
            Ok(Some(result_of(alloc, gives, e)?))
        }
    }
}

// A block.
#[tactic(auto, using(crate::proofs::StatementParts::block_seen))]
fn block_statement(place: Place, body: TypedBlock) -> TypedStatement
    ensures { statement_of result ≡ p.Block place (plain_block body) }
{
    TypedStatement::Block { place, body }
}

// Branches, and what is done where no condition holds.
#[tactic(auto, using(crate::proofs::StatementParts::if_seen))]
fn if_statement(
    place: Place,
    branches: TypedBranches,
    otherwise: Option<TypedBlock>,
) -> TypedStatement
    ensures { statement_of result ≡ branched place (map branch_of branches) (block_or_none (option_map (map statement_of) otherwise)) }
{
    TypedStatement::If {
        place,
        branches,
        otherwise,
    }
}

// A condition and a block.
#[tactic(auto, using(crate::proofs::StatementParts::while_seen))]
fn while_statement(place: Place, condition: TypedExpr, body: TypedBlock) -> TypedStatement
    ensures { statement_of result ≡ p.While place (expr_of condition) (plain_block body) }
{
    TypedStatement::While {
        place,
        condition,
        body,
    }
}

// The head of a `for` and its block.
#[tactic(auto, using(crate::proofs::StatementParts::for_seen))]
fn for_statement(
    place: Place,
    start: TypedBlock,
    condition: Option<TypedExpr>,
    step: TypedBlock,
    body: TypedBlock,
) -> TypedStatement
    ensures { statement_of result ≡ p.For place (plain_block start) (option_map expr_of condition) (plain_block step) (plain_block body) }
{
    TypedStatement::For {
        place,
        start,
        condition,
        step,
        body,
    }
}

// The end of a body.
#[tactic(auto, using(crate::proofs::StatementParts::return_seen))]
fn return_statement(place: Place, value: Option<TypedExpr>) -> TypedStatement
    ensures { statement_of result ≡ p.Return place (option_map expr_of value) }
{
    TypedStatement::Return { place, value }
}

// Puts what a statement does behind the others; the scope has its locals then.
#[cycle(statements)]
#[tactic(auto, using(crate::proofs::Parts::put_one, crate::proofs::Parts::left_entered, crate::proofs::StatementParts::block_typed, crate::proofs::StatementParts::if_typed, crate::proofs::StatementParts::else_typed, crate::proofs::StatementParts::while_typed, crate::proofs::StatementParts::for_typed, crate::proofs::StatementParts::return_typed))]
fn put_statement<'a>(
    alloc: Global,
    names: &Names<'_>,
    scope: &mut Scope<'a>,
    gives: Option<CType>,
    statement: &'a Statement,
    block: &mut TypedBlock,
) -> Result<(), AllocError>
    ensures block { OnOk result (map statement_of block.new ≡ map statement_of block.old ++ typed_statement names.now gives (written statement.now) scope.old) }
    ensures scope { OnOk result (scope.new ≡ after (written statement.now) scope.old) }
{
    match statement {
        Statement::Empty(_) => Ok(()),
        Statement::Block(place, body) => {
            let body = inner_of(alloc, names, scope, gives, body.as_slice())?;
            block.push(block_statement(*place, body))
        }
        Statement::Local(_, local) => put_local(alloc, names, scope, block, local),
        Statement::Simple(_, simple) => put_simple(alloc, names, scope, block, simple),
        Statement::If(place, branches, otherwise) => {
            let branches = branches_of(alloc, names, scope, gives, branches.as_slice())?;
            match otherwise {
                None => block.push(if_statement(*place, branches, None)),
                Some(body) => {
                    let body = inner_of(alloc, names, scope, gives, body.as_slice())?;
                    block.push(if_statement(*place, branches, Some(body)))
                }
            }
        }
        Statement::While(place, condition, body) => {
            let condition = typed_expression(alloc, names, scope, condition)?;
            let body = inner_of(alloc, names, scope, gives, body.as_slice())?;
            block.push(while_statement(*place, condition, body))
        }
        Statement::For(place, start, condition, step, body) => {
            let outer = scope.enter();
            let mut first = Items::new(alloc);
            put_start(alloc, names, scope, &mut first, start)?;
            let condition = optional_of(alloc, names, scope, condition)?;
            let step = step_of(alloc, names, scope, step)?;
            let body = inner_of(alloc, names, scope, gives, body.as_slice())?;
            scope.leave(outer);
            block.push(for_statement(*place, first, condition, step, body))
        }
        Statement::Return(place, value) => {
            let value = value_of(alloc, names, scope, gives, value)?;
            block.push(return_statement(*place, value))
        }
    }
}

// What statements do one after another.
#[cycle(statements)]
#[tactic(auto, using(crate::proofs::Parts::one_statement, crate::proofs::Parts::one_done))]
pub(crate) fn block_of<'a>(
    alloc: Global,
    names: &Names<'_>,
    scope: &mut Scope<'a>,
    gives: Option<CType>,
    statements: &'a [Statement],
) -> Result<TypedBlock, AllocError>
    ensures block { IfOk result (λ b. map statement_of b ≡ typed_statements names.now gives (written_block statements.now) scope.old) }
    ensures scope { OnOk result (scope.new ≡ after_block (written_block statements.now) scope.old) }
{
    let mut block = Items::new(alloc);
    for statement in statements {
        put_statement(alloc, names, scope, gives, statement, &mut block)?;
    }
    Ok(block)
}

// The same in a scope of their own.
#[cycle(statements)]
fn inner_of<'a>(
    alloc: Global,
    names: &Names<'_>,
    scope: &mut Scope<'a>,
    gives: Option<CType>,
    statements: &'a [Statement],
) -> Result<TypedBlock, AllocError>
    ensures block { IfOk result (λ b. map statement_of b ≡ typed_statements names.now gives (written_block statements.now) (entered scope.old)) }
    ensures scope { OnOk result (scope.new ≡ left scope.old (after_block (written_block statements.now) (entered scope.old))) }
{
    let outer = scope.enter();
    let block = block_of(alloc, names, scope, gives, statements)?;
    scope.leave(outer);
    Ok(block)
}

// Branches one after another.
#[cycle(statements)]
#[tactic(auto, using(crate::proofs::Parts::one_branch, crate::proofs::Parts::one_branch_done))]
fn branches_of<'a>(
    alloc: Global,
    names: &Names<'_>,
    scope: &mut Scope<'a>,
    gives: Option<CType>,
    branches: &'a [Branch],
) -> Result<TypedBranches, AllocError>
    ensures branches { IfOk result (λ bs. map branch_of bs ≡ typed_branches names.now gives (written_branches branches.now) scope.old) }
    ensures scope { OnOk result (scope.new ≡ after_branches (written_branches branches.now) scope.old) }
{
    let mut typed = Items::new(alloc);
    for branch in branches {
        let condition = typed_expression(alloc, names, scope, &branch.condition)?;
        let block = inner_of(alloc, names, scope, gives, branch.block.as_slice())?;
        typed.push(TypedBranch {
            place: branch.place,
            condition,
            block,
        })?;
    }
    Ok(typed)
}
