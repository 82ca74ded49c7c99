// The rules on calls.
ghost use Rattle.std.specs.Prelude.{◌≡◌, length};
ghost use Rattle.std.specs.Option.{option_copied};
ghost use Rattle.std.specs.List.{flat_map};
ghost use Rattle.c_rules.specs.First.{first_of};
ghost use Rattle.c_rules.specs.Files.{meaning};
ghost use Rattle.c_rules.specs.Rules.{object_faults, argument_faults, called_faults, call_faults, result_faults, right_faults, lone_call_faults};

use crate::expressions::{bare_name, seeing_expression};
use crate::first::First;
use crate::meaning::Meaning;
use crate::names::Names;
use crate::scope::Scope;
use c_unit::expression::{Argument, Call, RightSide};
use chk_base::place::Place;
use chk_base::text::Name;

// With the faults of an argument that is to be the bare name of a task or else of a resource.
#[tactic(auto, using(crate::proofs::Firsts::first_of_append))]
fn seeing_object(
    first: First,
    names: &Names<'_>,
    scope: &Scope<'_>,
    of_task: bool,
    argument: &Argument,
    bare: Option<&Name>,
) -> First
    ensures { result.fault ≡ first_of first.fault (object_faults of_task (meaning names.now scope.now.visible) argument.now (option_copied bare.entry)) }
{
    match bare {
        None => {
            let first = first.seeing(true, 15, argument.place);
            seeing_expression(first, names, scope, &argument.value)
        }
        Some(name) => {
            let meaning = names.meaning(scope, name.text.as_bytes());
            let is_one = if of_task {
                meaning.is_task()
            } else {
                meaning.is_resource(name.text.as_bytes())
            };
            first.seeing(!is_one, 15, argument.place)
        }
    }
}

// With the faults of an argument of what has this meaning.
#[tactic(auto, unfolding(crate::specs::Rules::argument_faults))]
fn seeing_argument(
    first: First,
    names: &Names<'_>,
    scope: &Scope<'_>,
    called: Meaning,
    argument: &Argument,
) -> First
    ensures { result.fault ≡ first_of first.fault (argument_faults called (meaning names.now scope.now.visible) argument.now) }
{
    if called.takes_task() || called.takes_resource() {
        let bare = bare_name(&argument.value);
        seeing_object(first, names, scope, called.takes_task(), argument, bare)
    } else {
        seeing_expression(first, names, scope, &argument.value)
    }
}

#[tactic(auto, using(crate::proofs::Firsts::first_of_more))]
fn seeing_arguments(
    first: First,
    names: &Names<'_>,
    scope: &Scope<'_>,
    called: Meaning,
    arguments: &[Argument],
) -> First
    ensures { result.fault ≡ first_of first.fault (flat_map (argument_faults called (meaning names.now scope.now.visible)) arguments.now) }
{
    let mut first = first;
    for argument in arguments {
        first = seeing_argument(first, names, scope, called, argument);
    }
    first
}

// With the faults of the name of a call.
#[tactic(auto, using(crate::proofs::Firsts::first_of_append), unfolding(crate::specs::Rules::called_faults))]
fn seeing_called(first: First, called: Meaning, count: usize, place: Place) -> First
    ensures { result.fault ≡ first_of first.fault (called_faults called count place) }
{
    first
        .seeing(called.is_left_out(), 1, place)
        .seeing(called.is_nothing(), 2, place)
        .seeing(called.is_variable(), 4, place)
        .seeing(called.takes_other(count), 5, place)
        .seeing(called.is_object(), 20, place)
}

// With the faults of a call of what has this meaning.
#[tactic(auto, using(crate::proofs::Firsts::first_of_append), unfolding(crate::specs::Rules::call_faults))]
fn seeing_call(
    first: First,
    names: &Names<'_>,
    scope: &Scope<'_>,
    called: Meaning,
    call: &Call,
) -> First
    ensures { result.fault ≡ first_of first.fault (call_faults called (meaning names.now scope.now.visible) call.now) }
{
    let first = seeing_called(first, called, call.arguments.len(), call.name.place);
    seeing_arguments(first, names, scope, called, call.arguments.as_slice())
}

// With the faults of a result that goes to a local or to something else.
#[tactic(auto, using(crate::proofs::Firsts::first_of_append), unfolding(crate::specs::Rules::result_faults))]
fn seeing_result(first: First, to_local: bool, called: Meaning, place: Place) -> First
    ensures { result.fault ≡ first_of first.fault (result_faults to_local called place) }
{
    first
        .seeing(
            (called.is_function() || called.is_input()) && !to_local,
            11,
            place,
        )
        .seeing(called.is_void(), 12, place)
        .seeing(called.is_service(), 16, place)
}

// With the faults of what is assigned, to a local or to something else.
#[tactic(auto, using(crate::proofs::Firsts::first_of_append))]
pub(crate) fn seeing_right(
    first: First,
    names: &Names<'_>,
    scope: &Scope<'_>,
    to_local: bool,
    right: &RightSide,
) -> First
    ensures { result.fault ≡ first_of first.fault (right_faults to_local (meaning names.now scope.now.visible) right.now) }
{
    match right {
        RightSide::Value(e) => seeing_expression(first, names, scope, e),
        RightSide::Call(call) => {
            let called = names.meaning(scope, call.name.text.as_bytes());
            let first = seeing_result(first, to_local, called, call.name.place);
            seeing_call(first, names, scope, called, call)
        }
    }
}

// With the faults of a call whose result isn't taken.
#[tactic(auto, using(crate::proofs::Firsts::first_of_append), unfolding(crate::specs::Rules::lone_call_faults))]
pub(crate) fn seeing_lone_call(
    first: First,
    names: &Names<'_>,
    scope: &Scope<'_>,
    call: &Call,
) -> First
    ensures { result.fault ≡ first_of first.fault (lone_call_faults (meaning names.now scope.now.visible) call.now) }
{
    let called = names.meaning(scope, call.name.text.as_bytes());
    let first = first.seeing(called.is_input(), 11, call.name.place);
    seeing_call(first, names, scope, called, call)
}
