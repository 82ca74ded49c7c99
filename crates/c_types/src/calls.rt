// Calls with what each name means and with the types of their arguments.
ghost use Rattle.std.specs.Prelude.{◌≡◌, ◌++◌, ◌∷◌, [], map, slice_get, IfOk, OnOk};
ghost use Rattle.std.specs.Option.{option_copied};
ghost use Rattle.c_rules.specs.Files.{meaning};
ghost use Rattle.typed_unit.specs.Views.{expr_of, statement_of};
ghost use Rattle.typed_unit.specs.TypedStatements.{nothing_done, taker_of, argument_of, arguments_from, argument_meaning, task_of, resource_of, service_of, argument_place, input_of, function_call, service_call, call_of};

use crate::convert::{converted, ctype_named};
use crate::expressions::typed_expression;
use application::app::Entity;
use c_rules::expressions::bare_name;
use c_rules::meaning::{Meaning, ServiceName};
use c_rules::names::Names;
use c_rules::scope::Scope;
use c_unit::expression::{Argument, Call};
use c_unit::unit::{Parameter, Signature};
use chk_base::place::Place;
use sqlite_items::Items;
use std::alloc::{AllocError, Global};
use step_ir::event::Service;
use typed_unit::typed::{Taker, TypedExpr, TypedExprs, TypedStatement};

// A statement that does nothing, where a rule is broken.
pub(crate) fn nothing_done(alloc: Global, place: Place) -> TypedStatement
    ensures { statement_of result ≡ nothing_done place }
{
    TypedStatement::Block {
        place,
        body: Items::new(alloc),
    }
}

// The local of this meaning as what takes a result.
pub(crate) fn taker_of(meaning: Meaning) -> Option<Taker>
    ensures { result ≡ taker_of meaning }
{
    match meaning {
        Meaning::Local(l) => Some(Taker {
            local: l.number,
            ctype: ctype_named(l.type_name),
        }),
        _ => None,
    }
}

// An argument, with the type of its parameter.
fn argument_of(
    alloc: Global,
    names: &Names<'_>,
    scope: &Scope<'_>,
    parameter: Option<&Parameter>,
    argument: &Argument,
) -> Result<TypedExpr, AllocError>
    ensures { IfOk result (λ x. expr_of x ≡ argument_of (meaning names.now scope.now.visible) (option_copied parameter.entry) argument.now) }
{
    let e = typed_expression(alloc, names, scope, &argument.value)?;
    match parameter {
        None => Ok(e),
        Some(q) => converted(alloc, ctype_named(q.type_name), e),
    }
}

// The parameter with this number.
fn parameter_at(parameters: &[Parameter], number: usize) -> Option<&Parameter>
    ensures { option_copied result ≡ slice_get parameters.now number }
{
    parameters.get(number)
}

// Puts an argument, with the type of the parameter with this number, behind the others.
#[tactic(auto, using(crate::proofs::Parts::put_expression))]
fn put_argument(
    alloc: Global,
    names: &Names<'_>,
    scope: &Scope<'_>,
    parameters: &[Parameter],
    number: usize,
    argument: &Argument,
    typed: &mut TypedExprs,
) -> Result<(), AllocError>
    ensures { OnOk result (map expr_of typed.new ≡ map expr_of typed.old ++ argument_of (meaning names.now scope.now.visible) (slice_get parameters.now number) argument.now ∷ []) }
{
    let parameter = parameter_at(parameters, number);
    let e = argument_of(alloc, names, scope, parameter, argument)?;
    typed.push(e)
}

// Arguments, each with the type of its parameter.
#[tactic(auto, using(crate::proofs::Parts::one_argument))]
fn arguments_of(
    alloc: Global,
    names: &Names<'_>,
    scope: &Scope<'_>,
    parameters: &[Parameter],
    arguments: &[Argument],
) -> Result<TypedExprs, AllocError>
    ensures { IfOk result (λ xs. map expr_of xs ≡ arguments_from (meaning names.now scope.now.visible) parameters.now 0 arguments.now) }
{
    let mut typed = Items::new(alloc);
    for i in 0..arguments.len() {
        put_argument(
            alloc,
            names,
            scope,
            parameters,
            i,
            &arguments[i],
            &mut typed,
        )?;
    }
    Ok(typed)
}

// What the first argument means, where it is a bare name.
fn argument_meaning(names: &Names<'_>, scope: &Scope<'_>, argument: Option<&Argument>) -> Meaning
    ensures { result ≡ argument_meaning (meaning names.now scope.now.visible) (option_copied argument.entry) }
{
    match argument {
        None => Meaning::Nothing,
        Some(argument) => match bare_name(&argument.value) {
            None => Meaning::Nothing,
            Some(name) => names.meaning(scope, name.text.as_bytes()),
        },
    }
}

// The task of this meaning.
fn task_of(meaning: Meaning) -> Entity
    ensures { result ≡ task_of meaning }
{
    match meaning {
        Meaning::Task(n) => Entity(n.min(255) as u8),
        _ => Entity(0),
    }
}

// The resource of this meaning, and else the scheduler as one.
fn resource_of(scheduler: usize, meaning: Meaning) -> u8
    ensures { result ≡ resource_of scheduler meaning }
{
    match meaning {
        Meaning::Resource(n) => n.min(255) as u8,
        _ => scheduler.min(255) as u8,
    }
}

// A service with its argument.
fn service_of(service: ServiceName, scheduler: usize, argument: Meaning) -> Service
    ensures { result ≡ service_of service scheduler argument }
{
    match service {
        ServiceName::ActivateTask => Service::Activate(task_of(argument)),
        ServiceName::TerminateTask => Service::Terminate,
        ServiceName::ChainTask => Service::Chain(task_of(argument)),
        ServiceName::Schedule => Service::Schedule,
        ServiceName::GetResource => Service::Get(resource_of(scheduler, argument)),
        ServiceName::ReleaseResource => Service::Release(resource_of(scheduler, argument)),
        ServiceName::DisableAllInterrupts => Service::DisableAll,
        ServiceName::EnableAllInterrupts => Service::EnableAll,
        ServiceName::SuspendAllInterrupts => Service::SuspendAll,
        ServiceName::ResumeAllInterrupts => Service::ResumeAll,
        ServiceName::SuspendOsInterrupts => Service::SuspendOs,
        ServiceName::ResumeOsInterrupts => Service::ResumeOs,
    }
}

fn argument_place(argument: Option<&Argument>) -> Option<Place>
    ensures { result ≡ argument_place (option_copied argument.entry) }
{
    match argument {
        None => None,
        Some(argument) => Some(argument.place),
    }
}

// An input, where something takes it.
fn input_of(alloc: Global, place: Place, taker: Option<Taker>) -> TypedStatement
    ensures { statement_of result ≡ input_of place taker }
{
    match taker {
        None => nothing_done(alloc, place),
        Some(taker) => TypedStatement::Input { place, taker },
    }
}

// A call of a function, whose result is taken or not.
fn function_call(
    alloc: Global,
    names: &Names<'_>,
    scope: &Scope<'_>,
    place: Place,
    taker: Option<Taker>,
    call: &Call,
    function: usize,
) -> Result<TypedStatement, AllocError>
    ensures { IfOk result (λ s. statement_of s ≡ function_call names.now place taker (meaning names.now scope.now.visible) call.now function) }
{
    let arguments = match names.function(function) {
        None => arguments_of(alloc, names, scope, &[], call.arguments.as_slice())?,
        Some(f) => arguments_of(
            alloc,
            names,
            scope,
            f.parameters.as_slice(),
            call.arguments.as_slice(),
        )?,
    };
    Ok(TypedStatement::Call {
        place,
        name: call.name.place,
        function,
        arguments,
        taker,
    })
}

// A call of a service.
fn service_call(
    names: &Names<'_>,
    scope: &Scope<'_>,
    place: Place,
    call: &Call,
    service: ServiceName,
) -> TypedStatement
    ensures { statement_of result ≡ service_call names.now place (meaning names.now scope.now.visible) call.now service }
{
    let argument = call.arguments.get(0);
    let scheduler = names.app().resources.len();
    let meant = argument_meaning(names, scope, argument);
    TypedStatement::Service {
        place,
        service: service_of(service, scheduler, meant),
        argument: argument_place(argument),
    }
}

// A call at a place, whose result is taken or not.
#[tactic(auto, unfolding(typed_unit::specs::TypedStatements::call_of))]
pub(crate) fn call_of(
    alloc: Global,
    names: &Names<'_>,
    scope: &Scope<'_>,
    place: Place,
    taker: Option<Taker>,
    call: &Call,
) -> Result<TypedStatement, AllocError>
    ensures { IfOk result (λ s. statement_of s ≡ call_of names.now place taker (meaning names.now scope.now.visible) call.now) }
{
    match names.meaning(scope, call.name.text.as_bytes()) {
        Meaning::Function(f) => function_call(alloc, names, scope, place, taker, call, f.number),
        Meaning::Service(s) => Ok(service_call(names, scope, place, call, s)),
        Meaning::Input => Ok(input_of(alloc, place, taker)),
        _ => Ok(nothing_done(alloc, place)),
    }
}
