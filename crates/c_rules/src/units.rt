// The rules on what stands at file level.
ghost use Rattle.std.specs.Prelude.{◌≡◌, ◌&&◌, false, IfOk, OnOk, is_some};
ghost use Rattle.std.specs.Option.{option_copied};
ghost use Rattle.std.specs.List.{flat_map};
ghost use Rattle.c_rules.specs.First.{first_of};
ghost use Rattle.c_rules.specs.Written.{written, written_block};
ghost use Rattle.c_rules.specs.UnitRules.{is_no_task, is_no_resource, is_no_length, constant_place, surplus_faults, variable_faults, declaration_faults, ninth_faults, parameters_faults, after_parameters, is_return, ends_in_return, is_main_name, function_faults, same_type, same_result, same_parameters, differs_from, external_faults};

use crate::first::First;
use crate::names::Names;
use crate::objects::{is_scheduler_name, resource_named, same, task_named};
use crate::scope::Scope;
use crate::statements::seeing_block;
use application::app::App;
use c_unit::expression::TypeName;
use c_unit::statement::Statement;
use c_unit::unit::{Constant, Declaration, External, Function, Parameter, Signature, Variable};
use chk_base::place::Place;
use std::alloc::{AllocError, Global};

fn is_no_task(app: &App, name: &[u8]) -> bool
    ensures { result ≡ is_no_task app.now name.now }
{
    !task_named(app, name).is_some()
}

fn is_no_resource(app: &App, name: &[u8]) -> bool
    ensures { result ≡ is_no_resource app.now name.now }
{
    !resource_named(app, name).is_some() && !is_scheduler_name(name)
}

fn is_no_length(n: u32) -> bool
    ensures { result ≡ is_no_length n }
{
    !(1 <= n && n <= 64)
}

fn constant_place(constant: &Constant) -> Place
    ensures { result ≡ constant_place constant.now }
{
    match constant {
        Constant::Number {
            place,
            negative: _,
            number: _,
        } => *place,
        Constant::Truth(place, _) => *place,
    }
}

// With the fault of the first constant too many, if there is one.
fn seeing_surplus(first: First, constant: Option<&Constant>) -> First
    ensures { result.fault ≡ first_of first.fault (surplus_faults (option_copied constant.entry)) }
{
    match constant {
        None => first,
        Some(constant) => first.seeing(true, 7, constant_place(constant)),
    }
}

// With the faults of a file-level variable.
#[tactic(auto, using(crate::proofs::Firsts::first_of_append))]
fn seeing_variable(first: First, variable: &Variable) -> First
    ensures { result.fault ≡ first_of first.fault (variable_faults variable.now) }
{
    match variable {
        Variable::Scalar(_, _) => first,
        Variable::Array(_, len, constants) => {
            let first = first.seeing(is_no_length(len.bits), 6, len.place);
            seeing_surplus(first, constants.get(len.bits as usize))
        }
    }
}

fn seeing_declaration(first: First, d: &Declaration) -> First
    ensures { result.fault ≡ first_of first.fault (declaration_faults d.now) }
{
    seeing_variable(first, &d.variable)
}

#[tactic(auto, using(crate::proofs::Firsts::first_of_more))]
fn seeing_variables(first: First, declarations: &[Declaration]) -> First
    ensures { result.fault ≡ first_of first.fault (flat_map declaration_faults declarations.now) }
{
    let mut first = first;
    for d in declarations {
        first = seeing_declaration(first, d);
    }
    first
}

// With the fault of the ninth parameter, if there is one.
fn seeing_ninth(first: First, ninth: Option<&Parameter>) -> First
    ensures { result.fault ≡ first_of first.fault (ninth_faults (option_copied ninth.entry)) }
{
    match ninth {
        None => first,
        Some(parameter) => first.seeing(true, 19, parameter.name.place),
    }
}

// With the faults of parameters, which the scope has then.
#[tactic(auto, using(crate::proofs::UnitParts::parameter_seen, crate::proofs::UnitParts::parameter_declared))]
fn seeing_parameters<'a>(
    first: First,
    scope: &mut Scope<'a>,
    parameters: &'a [Parameter],
) -> Result<First, AllocError>
    ensures first { IfOk result (λ f. f.fault ≡ first_of first.fault (parameters_faults parameters.now scope.old)) }
    ensures scope { OnOk result (scope.new ≡ after_parameters parameters.now scope.old) }
{
    let mut first = first;
    for p in parameters {
        first = first.seeing(scope.has(p.name.text.as_bytes()), 3, p.name.place);
        scope.declare(&p.name, p.type_name, p.constant)?;
    }
    Ok(first)
}

fn is_return(statement: &Statement) -> bool
    ensures { result ≡ is_return (written statement.now) }
{
    match statement {
        Statement::Return(_, _) => true,
        _ => false,
    }
}

// Whether the last statement is a `return`.
#[tactic(auto, using(crate::proofs::UnitParts::one_ends))]
fn ends_in_return(block: &[Statement]) -> bool
    ensures { result ≡ ends_in_return false (written_block block.now) }
{
    let mut ends = false;
    for statement in block {
        ends = is_return(statement);
    }
    ends
}

#[tactic(auto, unfolding(crate::specs::UnitRules::is_main_name))]
fn is_main_name(name: &[u8]) -> bool
    ensures { result ≡ is_main_name name.now }
{
    same(name, b"main")
}

// With the faults of a function.
#[tactic(auto, using(crate::proofs::Firsts::first_of_append), unfolding(crate::specs::UnitRules::function_faults))]
fn seeing_function(
    alloc: Global,
    first: First,
    names: &Names<'_>,
    f: &Function,
) -> Result<First, AllocError>
    ensures { IfOk result (λ x. x.fault ≡ first_of first.fault (function_faults names.now f.now)) }
{
    let name = &f.signature.name;
    let parameters = &f.signature.parameters;
    let gives = f.signature.result.is_some();
    let mut scope = Scope::new(alloc);
    let first = first.seeing(is_main_name(name.text.as_bytes()), 1, name.place);
    let first = seeing_ninth(first, parameters.get(8));
    let first = seeing_parameters(first, &mut scope, parameters.as_slice())?;
    let first = seeing_block(first, names, &mut scope, gives, f.body.as_slice())?;
    Ok(first.seeing(gives && !ends_in_return(f.body.as_slice()), 14, f.close))
}

fn same_type(a: TypeName, b: TypeName) -> bool
    ensures { result ≡ same_type a b }
{
    match (a, b) {
        (TypeName::Int8, TypeName::Int8) => true,
        (TypeName::Int16, TypeName::Int16) => true,
        (TypeName::Int32, TypeName::Int32) => true,
        (TypeName::Uint8, TypeName::Uint8) => true,
        (TypeName::Uint16, TypeName::Uint16) => true,
        (TypeName::Uint32, TypeName::Uint32) => true,
        (TypeName::Bool, TypeName::Bool) => true,
        _ => false,
    }
}

fn same_result(a: Option<TypeName>, b: Option<TypeName>) -> bool
    ensures { result ≡ same_result a b }
{
    match (a, b) {
        (None, None) => true,
        (Some(a), Some(b)) => same_type(a, b),
        _ => false,
    }
}

// Whether it is so, and both parameters have the same type.
fn and_same(so_far: bool, p: &Parameter, q: &Parameter) -> bool
    ensures { result ≡ (so_far && same_type p.now.type_name q.now.type_name) }
{
    so_far && same_type(p.type_name, q.type_name)
}

// Whether parameters have the same types.
#[tactic(auto, using(crate::proofs::UnitParts::one_same))]
fn same_parameters(a: &[Parameter], b: &[Parameter]) -> bool
    ensures { result ≡ same_parameters a.now b.now }
{
    if a.len() != b.len() {
        return false;
    }
    let mut same = true;
    for i in 0..a.len() {
        same = and_same(same, &a[i], &b[i]);
    }
    same
}

fn differs_from(s: &Signature, function: Option<&Signature>) -> bool
    ensures { result ≡ differs_from s.now (option_copied function.entry) }
{
    match function {
        None => false,
        Some(f) => {
            !(same_result(s.result, f.result)
                && same_parameters(s.parameters.as_slice(), f.parameters.as_slice()))
        }
    }
}

// With the faults of what stands at file level.
#[tactic(auto, unfolding(crate::specs::UnitRules::external_faults))]
fn seeing_external(
    alloc: Global,
    first: First,
    names: &Names<'_>,
    external: &External,
) -> Result<First, AllocError>
    ensures { IfOk result (λ x. x.fault ≡ first_of first.fault (external_faults names.now external.now)) }
{
    match external {
        External::DeclareTask(name) => {
            let is_none = is_no_task(names.app(), name.text.as_bytes());
            Ok(first.seeing(is_none, 17, name.place))
        }
        External::DeclareResource(name) => {
            let is_none = is_no_resource(names.app(), name.text.as_bytes());
            Ok(first.seeing(is_none, 17, name.place))
        }
        External::Entity {
            kind: _,
            name: _,
            body,
            close: _,
        } => {
            let mut scope = Scope::new(alloc);
            seeing_block(first, names, &mut scope, false, body.as_slice())
        }
        External::Variables(declarations) => Ok(seeing_variables(first, declarations.as_slice())),
        External::Function(f) => seeing_function(alloc, first, names, f),
        External::Prototype(s) => {
            let function = names.function_named(s.name.text.as_bytes());
            Ok(first.seeing(differs_from(s, function), 18, s.name.place))
        }
    }
}

// With the faults of all that stands at file level.
#[tactic(auto, using(crate::proofs::Firsts::first_of_more))]
pub(crate) fn seeing_externals(
    alloc: Global,
    first: First,
    names: &Names<'_>,
    externals: &[External],
) -> Result<First, AllocError>
    ensures { IfOk result (λ x. x.fault ≡ first_of first.fault (flat_map (external_faults names.now) externals.now)) }
{
    let mut first = first;
    for external in externals {
        first = seeing_external(alloc, first, names, external)?;
    }
    Ok(first)
}
