// Units with what each name means and with the types of their expressions.
ghost use Rattle.std.specs.Prelude.{◌≡◌, ◌++◌, map, IfOk, OnOk, option_map};
ghost use Rattle.std.specs.Option.{option_copied};
ghost use Rattle.std.specs.List.{flat_map};
ghost use Rattle.c_rules.specs.Files.{known_of};
ghost use Rattle.c_rules.specs.PlainScopes.{plain_declared};
ghost use Rattle.c_rules.specs.UnitRules.{after_parameters};
ghost use Rattle.c_rules.specs.Written.{written_block};
ghost use Rattle.c_unit.specs.declared.unit.Variable.TheVariants as v;
ghost use Rattle.typed_unit.specs.Conversions.{ctype_named as named};
ghost use Rattle.typed_unit.specs.Views.{function_of as plain_function, entity_of as plain_entity, unit_of};
ghost use Rattle.typed_unit.specs.Typed.{constant_word, start_of, starts_of, global_of, global_declared, globals_in, local_of, locals_of, function_of, functions_in, entity_named, entity_of, entity_in, typed};

use crate::convert::{ctype_named, word_in};
use crate::expressions::length_of;
use crate::statements::block_of;
use application::app::{App, Entity};
use c_rules::names::Names;
use c_rules::objects::{routine_named, task_named};
use c_rules::scope::{Declared, Scope};
use c_unit::expression::TypeName;
use c_unit::statement::Statement;
use c_unit::unit::{
    Constant, Declaration, EntityKind, External, Function, Parameter, Unit, Variable,
};
use chk_base::place::Place;
use chk_base::sets::Values;
use chk_base::text::Name;
use sqlite_items::Items;
use std::alloc::{AllocError, Global};
use typed_unit::typed::{
    CType, GlobalVar, Globals, Local, Locals, TypedEntities, TypedEntity, TypedFunction,
    TypedFunctions, TypedUnit,
};

// A constant as a word of 32 bits.
fn constant_word(constant: &Constant) -> u32
    ensures { result ≡ constant_word constant.now }
{
    match constant {
        Constant::Number {
            place: _,
            negative,
            number,
        } => if *negative {
            0u32.wrapping_sub(number.bits)
        } else {
            number.bits
        },
        Constant::Truth(_, value) => if *value { 1 } else { 0 },
    }
}

// What a scalar or an element begins with.
fn start_of(t: CType, constant: Option<&Constant>) -> u32
    ensures { result ≡ start_of t (option_copied constant.entry) }
{
    match constant {
        None => 0,
        Some(constant) => word_in(t, constant_word(constant)),
    }
}

// What the elements of an array begin with.
#[tactic(auto, using(crate::proofs::Parts::one_start))]
fn starts_of(
    alloc: Global,
    t: CType,
    constants: &[Constant],
    count: usize,
) -> Result<Values, AllocError>
    ensures { IfOk result (λ vs. vs ≡ starts_of t constants.now count) }
{
    let mut values = Values::new(alloc);
    for i in 0..count {
        values.push(start_of(t, constants.get(i)))?;
    }
    Ok(values)
}

fn copy_name(alloc: Global, name: &Name) -> Result<Name, AllocError>
    ensures { IfOk result (λ n. n ≡ name.now) }
{
    Ok(Name {
        text: name.text.copy(alloc)?,
        place: name.place,
    })
}

fn scalar_of(
    alloc: Global,
    t: CType,
    name: &Name,
    start: &Option<Constant>,
) -> Result<GlobalVar, AllocError>
    ensures { IfOk result (λ g. g ≡ global_of t (v.Scalar name.now start.now)) }
{
    let mut values = Values::new(alloc);
    values.push(start_of(t, start.as_ref()))?;
    Ok(GlobalVar {
        name: copy_name(alloc, name)?,
        ctype: t,
        len: None,
        start: values,
    })
}

fn global_of(alloc: Global, t: CType, variable: &Variable) -> Result<GlobalVar, AllocError>
    ensures { IfOk result (λ g. g ≡ global_of t variable.now) }
{
    match variable {
        Variable::Scalar(name, start) => scalar_of(alloc, t, name, start),
        Variable::Array(name, number, constants) => {
            let len = length_of(number.bits);
            Ok(GlobalVar {
                name: copy_name(alloc, name)?,
                ctype: t,
                len: Some(len),
                start: starts_of(alloc, t, constants.as_slice(), len as usize)?,
            })
        }
    }
}

fn global_declared(alloc: Global, d: &Declaration) -> Result<GlobalVar, AllocError>
    ensures { IfOk result (λ g. g ≡ global_declared d.now) }
{
    global_of(alloc, ctype_named(d.type_name), &d.variable)
}

// Puts declared variables behind the others.
#[tactic(auto, using(crate::proofs::Parts::one_mapped))]
fn put_globals(
    alloc: Global,
    globals: &mut Globals,
    declarations: &[Declaration],
) -> Result<(), AllocError>
    ensures { OnOk result (globals.new ≡ globals.old ++ map global_declared declarations.now) }
{
    for d in declarations {
        globals.push(global_declared(alloc, d)?)?;
    }
    Ok(())
}

fn local_of(alloc: Global, d: &Declared<'_>) -> Result<Local, AllocError>
    ensures { IfOk result (λ l. l ≡ local_of (plain_declared d.now)) }
{
    Ok(Local {
        name: copy_name(alloc, d.name)?,
        ctype: ctype_named(d.type_name),
    })
}

// The locals of a body.
#[tactic(auto, using(crate::proofs::Parts::one_local))]
fn locals_of(alloc: Global, scope: &Scope<'_>) -> Result<Locals, AllocError>
    ensures { IfOk result (λ ls. ls ≡ locals_of scope.now) }
{
    let mut locals = Items::new(alloc);
    for d in scope.locals() {
        locals.push(local_of(alloc, d)?)?;
    }
    Ok(locals)
}

#[tactic(auto, using(crate::proofs::Parts::one_parameter))]
fn declare_parameters<'a>(
    scope: &mut Scope<'a>,
    parameters: &'a [Parameter],
) -> Result<(), AllocError>
    ensures { OnOk result (scope.new ≡ after_parameters parameters.now scope.old) }
{
    for p in parameters {
        scope.declare(&p.name, p.type_name, p.constant)?;
    }
    Ok(())
}

fn result_named(name: Option<TypeName>) -> Option<CType>
    ensures { result ≡ option_map named name }
{
    match name {
        None => None,
        Some(name) => Some(ctype_named(name)),
    }
}

// A function with its body.
#[tactic(auto, unfolding(typed_unit::specs::Typed::function_of))]
fn function_of(alloc: Global, names: &Names<'_>, f: &Function) -> Result<TypedFunction, AllocError>
    ensures { IfOk result (λ x. plain_function x ≡ function_of names.now f.now) }
{
    let mut scope = Scope::new(alloc);
    let gives = result_named(f.signature.result);
    declare_parameters(&mut scope, f.signature.parameters.as_slice())?;
    let body = block_of(alloc, names, &mut scope, gives, f.body.as_slice())?;
    Ok(TypedFunction {
        name: copy_name(alloc, &f.signature.name)?,
        result: gives,
        params: f.signature.parameters.len().min(255) as u8,
        locals: locals_of(alloc, &scope)?,
        body,
        close: f.close,
    })
}

// The object of the kind that has the name.
fn entity_named(app: &App, kind: EntityKind, name: &[u8]) -> Option<Entity>
    ensures { result ≡ entity_named app.now kind name.now }
{
    match kind {
        EntityKind::Task => match task_named(app, name) {
            None => None,
            Some(n) => Some(Entity(n.min(255) as u8)),
        },
        EntityKind::Isr => match routine_named(app, name) {
            None => None,
            Some(n) => Some(Entity(app.tasks.len().saturating_add(n).min(255) as u8)),
        },
    }
}

// The body of a task or routine.
#[tactic(auto, unfolding(typed_unit::specs::Typed::entity_of))]
fn entity_of(
    alloc: Global,
    names: &Names<'_>,
    kind: EntityKind,
    name: &Name,
    body: &[Statement],
    close: Place,
) -> Result<TypedEntity, AllocError>
    ensures { IfOk result (λ x. plain_entity x ≡ entity_of names.now kind name.now (written_block body.now) close) }
{
    let mut scope = Scope::new(alloc);
    let block = block_of(alloc, names, &mut scope, None, body)?;
    Ok(TypedEntity {
        kind,
        name: copy_name(alloc, name)?,
        entity: entity_named(names.app(), kind, name.text.as_bytes()),
        locals: locals_of(alloc, &scope)?,
        body: block,
        close,
    })
}

fn put_globals_in(
    alloc: Global,
    globals: &mut Globals,
    external: &External,
) -> Result<(), AllocError>
    ensures { OnOk result (globals.new ≡ globals.old ++ globals_in external.now) }
{
    match external {
        External::Variables(declarations) => {
            put_globals(alloc, globals, declarations.as_slice())
        }
        _ => Ok(()),
    }
}

// The file-level variables.
#[tactic(auto, using(crate::proofs::Parts::one_more))]
fn globals_of(alloc: Global, externals: &[External]) -> Result<Globals, AllocError>
    ensures { IfOk result (λ gs. gs ≡ flat_map globals_in externals.now) }
{
    let mut globals = Items::new(alloc);
    for external in externals {
        put_globals_in(alloc, &mut globals, external)?;
    }
    Ok(globals)
}

#[tactic(auto, using(crate::proofs::Parts::put_function))]
fn put_functions_in(
    alloc: Global,
    names: &Names<'_>,
    functions: &mut TypedFunctions,
    external: &External,
) -> Result<(), AllocError>
    ensures { OnOk result (map plain_function functions.new ≡ map plain_function functions.old ++ functions_in names.now external.now) }
{
    match external {
        External::Function(f) => {
            let function = function_of(alloc, names, f)?;
            functions.push(function)
        }
        _ => Ok(()),
    }
}

// The functions.
#[tactic(auto, using(crate::proofs::Parts::one_more))]
fn functions_of(
    alloc: Global,
    names: &Names<'_>,
    externals: &[External],
) -> Result<TypedFunctions, AllocError>
    ensures { IfOk result (λ fs. map plain_function fs ≡ flat_map (functions_in names.now) externals.now) }
{
    let mut functions = Items::new(alloc);
    for external in externals {
        put_functions_in(alloc, names, &mut functions, external)?;
    }
    Ok(functions)
}

#[tactic(auto, using(crate::proofs::Parts::put_entity))]
fn put_entities_in(
    alloc: Global,
    names: &Names<'_>,
    entities: &mut TypedEntities,
    external: &External,
) -> Result<(), AllocError>
    ensures { OnOk result (map plain_entity entities.new ≡ map plain_entity entities.old ++ entity_in names.now external.now) }
{
    match external {
        External::Entity {
            kind,
            name,
            body,
            close,
        } => {
            let entity = entity_of(alloc, names, *kind, name, body.as_slice(), *close)?;
            entities.push(entity)
        }
        _ => Ok(()),
    }
}

// The bodies of tasks and routines.
#[tactic(auto, using(crate::proofs::Parts::one_more))]
fn entities_of(
    alloc: Global,
    names: &Names<'_>,
    externals: &[External],
) -> Result<TypedEntities, AllocError>
    ensures { IfOk result (λ es. map plain_entity es ≡ flat_map (entity_in names.now) externals.now) }
{
    let mut entities = Items::new(alloc);
    for external in externals {
        put_entities_in(alloc, names, &mut entities, external)?;
    }
    Ok(entities)
}

// The typed unit, where this is what is known of the text.
#[tactic(auto, unfolding(typed_unit::specs::Typed::typed))]
pub(crate) fn typed(
    alloc: Global,
    app: &App,
    unit: &Unit,
    names: &Names<'_>,
) -> Result<TypedUnit, AllocError>
    requires { names.now ≡ known_of app.now unit.now }
    ensures { IfOk result (λ u. unit_of u ≡ typed unit.now app.now) }
{
    let externals = unit.externals.as_slice();
    let globals = globals_of(alloc, externals)?;
    let functions = functions_of(alloc, names, externals)?;
    let entities = entities_of(alloc, names, externals)?;
    Ok(TypedUnit {
        globals,
        functions,
        entities,
        end: unit.end,
    })
}
