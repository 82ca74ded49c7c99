// The rules on statements.
ghost use Rattle.std.specs.Prelude.{◌≡◌, false, IfOk, OnOk};
ghost use Rattle.c_rules.specs.First.{first_of};
ghost use Rattle.c_rules.specs.Files.{meaning};
ghost use Rattle.c_rules.specs.Scopes.{entered, left};
ghost use Rattle.c_rules.specs.Written.{written, written_block, written_branches};
ghost use Rattle.c_rules.specs.Rules.{target_faults};
ghost use Rattle.c_rules.specs.StatementRules.{simple_faults, initial_faults, declarators_faults, after_declarators, local_faults, after_local, start_faults, after_start, step_faults, statement_faults, block_faults, branches_faults, after, after_block, after_branches, returns_wrongly};

use crate::calls::{seeing_lone_call, seeing_right};
use crate::expressions::{seeing_expression, seeing_optional, seeing_target};
use crate::first::First;
use crate::names::Names;
use crate::scope::Scope;
use c_unit::expression::{RightSide, TypeName};
use c_unit::statement::{Branch, Declarator, Local, Simple, Start, Statement};
use chk_base::text::Name;
use std::alloc::AllocError;

// With the faults of a target that is a name.
fn seeing_name(first: First, names: &Names<'_>, scope: &Scope<'_>, name: &Name) -> First
    ensures { result.fault ≡ first_of first.fault (target_faults false (meaning names.now scope.now.visible name.now.text) name.now.place) }
{
    let meaning = names.meaning(scope, name.text.as_bytes());
    seeing_target(first, false, meaning, name.place)
}

// With the faults of a statement without statements in it.
#[tactic(auto, using(crate::proofs::Firsts::first_of_append), unfolding(crate::specs::StatementRules::simple_faults))]
fn seeing_simple(first: First, names: &Names<'_>, scope: &Scope<'_>, simple: &Simple) -> First
    ensures { result.fault ≡ first_of first.fault (simple_faults (meaning names.now scope.now.visible) simple.now) }
{
    match simple {
        Simple::Assign(name, right) => {
            let target = names.meaning(scope, name.text.as_bytes());
            let first = seeing_target(first, false, target, name.place);
            seeing_right(first, names, scope, target.is_local(), right)
        }
        Simple::AssignElement(name, index, value) => {
            let target = names.meaning(scope, name.text.as_bytes());
            let first = seeing_target(first, true, target, name.place);
            let first = seeing_expression(first, names, scope, index);
            seeing_expression(first, names, scope, value)
        }
        Simple::Update(name, _, value) => {
            let first = seeing_name(first, names, scope, name);
            seeing_expression(first, names, scope, value)
        }
        Simple::PostIncrement(name) => seeing_name(first, names, scope, name),
        Simple::PostDecrement(name) => seeing_name(first, names, scope, name),
        Simple::PreIncrement(_, name) => seeing_name(first, names, scope, name),
        Simple::PreDecrement(_, name) => seeing_name(first, names, scope, name),
        Simple::Call(call) => seeing_lone_call(first, names, scope, call),
        Simple::Assert(_, condition) => seeing_expression(first, names, scope, condition),
    }
}

// With the faults of what a local is set to.
fn seeing_initial(
    first: First,
    names: &Names<'_>,
    scope: &Scope<'_>,
    name: &Name,
    initial: &Option<RightSide>,
) -> First
    ensures { result.fault ≡ first_of first.fault (initial_faults (meaning names.now scope.now.visible) name.now initial.now) }
{
    match initial {
        None => first.seeing(true, 9, name.place),
        Some(right) => seeing_right(first, names, scope, true, right),
    }
}

// With the faults of declared locals, which the scope has then.
#[tactic(auto, using(crate::proofs::StatementParts::declarator_seen, crate::proofs::StatementParts::declarator_declared))]
fn seeing_declarators<'a>(
    first: First,
    names: &Names<'_>,
    scope: &mut Scope<'a>,
    type_name: TypeName,
    constant: bool,
    declarators: &'a [Declarator],
) -> Result<First, AllocError>
    ensures first { IfOk result (λ f. f.fault ≡ first_of first.fault (declarators_faults names.now type_name constant declarators.now scope.old)) }
    ensures scope { OnOk result (scope.new ≡ after_declarators type_name constant declarators.now scope.old) }
{
    let mut first = first;
    for d in declarators {
        first = first.seeing(scope.has(d.name.text.as_bytes()), 3, d.name.place);
        first = seeing_initial(first, names, scope, &d.name, &d.initial);
        scope.declare(&d.name, type_name, constant)?;
    }
    Ok(first)
}

fn seeing_local<'a>(
    first: First,
    names: &Names<'_>,
    scope: &mut Scope<'a>,
    local: &'a Local,
) -> Result<First, AllocError>
    ensures first { IfOk result (λ f. f.fault ≡ first_of first.fault (local_faults names.now local.now scope.old)) }
    ensures scope { OnOk result (scope.new ≡ after_local local.now scope.old) }
{
    seeing_declarators(
        first,
        names,
        scope,
        local.type_name,
        local.constant,
        local.declarators.as_slice(),
    )
}

// With the faults of what stands first in the head of a `for`.
fn seeing_start<'a>(
    first: First,
    names: &Names<'_>,
    scope: &mut Scope<'a>,
    start: &'a Option<Start>,
) -> Result<First, AllocError>
    ensures first { IfOk result (λ f. f.fault ≡ first_of first.fault (start_faults names.now start.now scope.old)) }
    ensures scope { OnOk result (scope.new ≡ after_start start.now scope.old) }
{
    match start {
        None => Ok(first),
        Some(Start::Local(local)) => seeing_local(first, names, scope, local),
        Some(Start::Simple(simple)) => Ok(seeing_simple(first, names, scope, simple)),
    }
}

// With the faults of what stands last in it.
fn seeing_step(first: First, names: &Names<'_>, scope: &Scope<'_>, step: &Option<Simple>) -> First
    ensures { result.fault ≡ first_of first.fault (step_faults (meaning names.now scope.now.visible) step.now) }
{
    match step {
        None => first,
        Some(simple) => seeing_simple(first, names, scope, simple),
    }
}

fn returns_wrongly(has_result: bool, has_value: bool) -> bool
    ensures { result ≡ returns_wrongly has_result has_value }
{
    if has_result { !has_value } else { has_value }
}

// With the faults of a statement, whose locals the scope has then.
#[cycle(statements)]
#[tactic(auto, using(crate::proofs::Firsts::first_of_append, crate::proofs::StatementParts::of_if, crate::proofs::StatementParts::of_while, crate::proofs::StatementParts::of_for))]
fn seeing_statement<'a>(
    first: First,
    names: &Names<'_>,
    scope: &mut Scope<'a>,
    gives: bool,
    statement: &'a Statement,
) -> Result<First, AllocError>
    ensures first { IfOk result (λ f. f.fault ≡ first_of first.fault (statement_faults names.now gives (written statement.now) scope.old)) }
    ensures scope { OnOk result (scope.new ≡ after (written statement.now) scope.old) }
{
    match statement {
        Statement::Empty(_) => Ok(first),
        Statement::Block(_, body) => seeing_inner(first, names, scope, gives, body.as_slice()),
        Statement::Local(_, local) => seeing_local(first, names, scope, local),
        Statement::Simple(_, simple) => Ok(seeing_simple(first, names, scope, simple)),
        Statement::If(_, branches, otherwise) => {
            let first = seeing_branches(first, names, scope, gives, branches.as_slice())?;
            match otherwise {
                None => seeing_inner(first, names, scope, gives, &[]),
                Some(body) => seeing_inner(first, names, scope, gives, body.as_slice()),
            }
        }
        Statement::While(_, condition, body) => {
            let first = seeing_expression(first, names, scope, condition);
            seeing_inner(first, names, scope, gives, body.as_slice())
        }
        Statement::For(_, start, condition, step, body) => {
            let outer = scope.enter();
            let first = seeing_start(first, names, scope, start)?;
            let first = seeing_optional(first, names, scope, condition);
            let first = seeing_step(first, names, scope, step);
            let first = seeing_inner(first, names, scope, gives, body.as_slice())?;
            scope.leave(outer);
            Ok(first)
        }
        Statement::Return(place, value) => {
            let first = first.seeing(returns_wrongly(gives, value.is_some()), 13, *place);
            Ok(seeing_optional(first, names, scope, value))
        }
    }
}

// With the faults of statements one after another.
#[cycle(statements)]
#[tactic(auto, using(crate::proofs::StatementParts::statement_seen, crate::proofs::StatementParts::statement_done))]
pub(crate) fn seeing_block<'a>(
    first: First,
    names: &Names<'_>,
    scope: &mut Scope<'a>,
    gives: bool,
    block: &'a [Statement],
) -> Result<First, AllocError>
    ensures first { IfOk result (λ f. f.fault ≡ first_of first.fault (block_faults names.now gives (written_block block.now) scope.old)) }
    ensures scope { OnOk result (scope.new ≡ after_block (written_block block.now) scope.old) }
{
    let mut first = first;
    for statement in block {
        first = seeing_statement(first, names, scope, gives, statement)?;
    }
    Ok(first)
}

// With the faults of a block in a scope of its own.
#[cycle(statements)]
fn seeing_inner<'a>(
    first: First,
    names: &Names<'_>,
    scope: &mut Scope<'a>,
    gives: bool,
    block: &'a [Statement],
) -> Result<First, AllocError>
    ensures first { IfOk result (λ f. f.fault ≡ first_of first.fault (block_faults names.now gives (written_block block.now) (entered scope.old))) }
    ensures scope { OnOk result (scope.new ≡ left scope.old (after_block (written_block block.now) (entered scope.old))) }
{
    let outer = scope.enter();
    let first = seeing_block(first, names, scope, gives, block)?;
    scope.leave(outer);
    Ok(first)
}

// With the faults of branches one after another.
#[cycle(statements)]
#[tactic(auto, using(crate::proofs::StatementParts::branch_seen, crate::proofs::StatementParts::branch_done))]
fn seeing_branches<'a>(
    first: First,
    names: &Names<'_>,
    scope: &mut Scope<'a>,
    gives: bool,
    branches: &'a [Branch],
) -> Result<First, AllocError>
    ensures first { IfOk result (λ f. f.fault ≡ first_of first.fault (branches_faults names.now gives (written_branches branches.now) scope.old)) }
    ensures scope { OnOk result (scope.new ≡ after_branches (written_branches branches.now) scope.old) }
{
    let mut first = first;
    for branch in branches {
        first = seeing_expression(first, names, scope, &branch.condition);
        first = seeing_inner(first, names, scope, gives, branch.block.as_slice())?;
    }
    Ok(first)
}
