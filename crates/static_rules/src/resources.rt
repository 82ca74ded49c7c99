// The rules on resources.
ghost use Rattle.std.specs.Prelude.{◌≡◌, false, IfOk, length, get_or, [], map, if◌then◌else◌};
ghost use Rattle.std.specs.List.{flat_map};
ghost use Rattle.std.specs.Option.{option_copied};
ghost use Rattle.application.specs.Levels.{has_number, is_number, task_declares, routine_declares};
ghost use Rattle.typed_unit.specs.Views.{entity_of};
ghost use Rattle.c_rules.specs.First.{first_of};
ghost use Rattle.static_rules.specs.Chains.{body, sites_of_those, reaches, reached_sites};
ghost use Rattle.static_rules.specs.Found.{IsTable};
ghost use Rattle.static_rules.specs.Sites.{sites_of};
ghost use Rattle.static_rules.specs.Rules.{is_internal, is_scheduler, use_faults, all_use_faults, task_declares_it, routine_declares_it, is_routine, declares, reached_faults, entity_faults, body_resource_faults, resource_faults};

use crate::collect::sites_of;
use crate::found::{body, reached_from};
use crate::site::{Site, Sites};
use application::app::{App, Resource, Routine, Task};
use c_rules::first::First;
use std::alloc::{AllocError, Global};
use typed_unit::typed::TypedEntity;

fn is_internal(resource: Option<&Resource>) -> bool
    ensures { result ≡ is_internal (option_copied resource.entry) }
{
    match resource {
        None => false,
        Some(resource) => resource.internal,
    }
}

fn is_scheduler(app: &App, resource: u8) -> bool
    ensures { result ≡ is_scheduler app.now resource }
{
    resource as usize == app.resources.len()
}

// With the faults of a resource in any body.
#[tactic(auto, using(c_rules::proofs::Firsts::first_of_append), unfolding(crate::specs::Rules::use_faults))]
fn seeing_use(first: First, app: &App, site: Site) -> First
    ensures { result.fault ≡ first_of first.fault (use_faults app.now site) }
{
    match site {
        Site::Use { resource, place } => {
            let internal = is_internal(app.resources.get(resource as usize));
            let first = first.seeing(internal, 7, place);
            first.seeing(is_scheduler(app, resource) && !app.res_scheduler, 10, place)
        }
        Site::Call {
            function: _,
            place: _,
        } => first,
    }
}

#[tactic(auto, using(c_rules::proofs::Firsts::first_of_more), unfolding(crate::specs::Rules::all_use_faults))]
fn seeing_uses(first: First, app: &App, sites: &[Site]) -> First
    ensures { result.fault ≡ first_of first.fault (all_use_faults app.now sites.now) }
{
    let mut first = first;
    for site in sites {
        first = seeing_use(first, app, *site);
    }
    first
}

#[tactic(auto, using(c_rules::proofs::Firsts::first_of_more))]
fn seeing_all_uses(first: First, app: &App, bodies: &[Sites]) -> First
    ensures { result.fault ≡ first_of first.fault (flat_map (all_use_faults app.now) bodies.now) }
{
    let mut first = first;
    for sites in bodies {
        first = seeing_uses(first, app, sites.as_slice());
    }
    first
}

fn has_number(numbers: &[u8], n: u8) -> bool
    ensures { result ≡ has_number numbers.now n }
{
    numbers.iter().any(|m| *m == n)
}

fn is_number(number: Option<u8>, n: u8) -> bool
    ensures { result ≡ is_number number n }
{
    match number {
        None => false,
        Some(m) => m == n,
    }
}

fn task_declares(resource: u8, task: Option<&Task>) -> bool
    ensures { result ≡ task_declares_it resource (option_copied task.entry) }
{
    match task {
        None => false,
        Some(task) => {
            has_number(task.declares.items(), resource) || is_number(task.internal, resource)
        }
    }
}

fn routine_declares(resource: u8, routine: Option<&Routine>) -> bool
    ensures { result ≡ routine_declares_it resource (option_copied routine.entry) }
{
    match routine {
        None => false,
        Some(routine) => has_number(routine.declares.items(), resource),
    }
}

fn is_routine(app: &App, n: usize) -> bool
    ensures { result ≡ is_routine app.now n }
{
    !(n < app.tasks.len())
}

fn declares(app: &App, n: usize, resource: u8) -> bool
    ensures { result ≡ declares app.now n resource }
{
    let tasks = app.tasks.len();
    if is_routine(app, n) {
        routine_declares(resource, app.routines.get(n.saturating_sub(tasks)))
    } else {
        task_declares(resource, app.tasks.get(n))
    }
}

// With the faults of a resource that a task or routine reaches.
#[tactic(auto, using(c_rules::proofs::Firsts::first_of_append), unfolding(crate::specs::Rules::reached_faults))]
fn seeing_reached(first: First, app: &App, n: usize, site: Site) -> First
    ensures { result.fault ≡ first_of first.fault (reached_faults app.now n site) }
{
    match site {
        Site::Use { resource, place } => {
            let scheduler = is_scheduler(app, resource);
            let first = first.seeing(!scheduler && !declares(app, n, resource), 8, place);
            first.seeing(scheduler && is_routine(app, n), 9, place)
        }
        Site::Call {
            function: _,
            place: _,
        } => first,
    }
}

#[tactic(auto, using(c_rules::proofs::Firsts::first_of_more))]
fn seeing_all_reached(first: First, app: &App, n: usize, sites: &[Site]) -> First
    ensures { result.fault ≡ first_of first.fault (flat_map (reached_faults app.now n) sites.now) }
{
    let mut first = first;
    for site in sites {
        first = seeing_reached(first, app, n, *site);
    }
    first
}

fn seeing_reached_if(first: First, wanted: bool, app: &App, n: usize, sites: &[Site]) -> First
    ensures { result.fault ≡ first_of first.fault (flat_map (reached_faults app.now n) (if wanted then sites.now else [])) }
{
    if wanted {
        seeing_all_reached(first, app, n, sites)
    } else {
        first
    }
}

// With the faults of the functions that are flagged.
#[tactic(auto, using(crate::proofs::FaultParts::below_in_more))]
fn seeing_functions(first: First, app: &App, n: usize, bodies: &[Sites], flags: &[bool]) -> First
    requires { length flags.now ≡ length bodies.now }
    ensures { result.fault ≡ first_of first.fault (flat_map (reached_faults app.now n) (sites_of_those bodies.now (λ f. get_or flags.now f false))) }
{
    let mut first = first;
    for f in 0..bodies.len() {
        first = seeing_reached_if(first, flags[f], app, n, body(bodies, f));
    }
    first
}

// With the faults of what the body of a task or routine reaches.
fn seeing_sites(
    alloc: Global,
    first: First,
    app: &App,
    n: usize,
    bodies: &[Sites],
    sites: &[Site],
) -> Result<First, AllocError>
    ensures { IfOk result (λ x. x.fault ≡ first_of first.fault (flat_map (reached_faults app.now n) (reached_sites bodies.now sites.now))) }
{
    let flags = reached_from(alloc, bodies, sites)?;
    let first = seeing_all_reached(first, app, n, sites);
    Ok(seeing_functions(first, app, n, bodies, flags.as_slice()))
}

// With the faults of the resources of the body of a task or routine.
#[tactic(auto, using(c_rules::proofs::Firsts::first_of_append), unfolding(crate::specs::Rules::body_resource_faults))]
fn seeing_body(
    alloc: Global,
    first: First,
    app: &App,
    bodies: &[Sites],
    entity: &TypedEntity,
) -> Result<First, AllocError>
    ensures { IfOk result (λ x. x.fault ≡ first_of first.fault (body_resource_faults app.now bodies.now (entity_of entity.now))) }
{
    let sites = sites_of(alloc, entity.body.as_slice())?;
    let first = seeing_uses(first, app, sites.as_slice());
    match entity.entity {
        None => Ok(first),
        Some(n) => seeing_sites(alloc, first, app, n.0 as usize, bodies, sites.as_slice()),
    }
}

#[tactic(auto, using(crate::proofs::FaultParts::mapped_more))]
fn seeing_entities(
    alloc: Global,
    first: First,
    app: &App,
    bodies: &[Sites],
    entities: &[TypedEntity],
) -> Result<First, AllocError>
    ensures { IfOk result (λ x. x.fault ≡ first_of first.fault (flat_map (body_resource_faults app.now bodies.now) (map entity_of entities.now))) }
{
    let mut first = first;
    for entity in entities {
        first = seeing_body(alloc, first, app, bodies, entity)?;
    }
    Ok(first)
}

/// With the faults of resources.
#[tactic(auto, using(c_rules::proofs::Firsts::first_of_append), unfolding(crate::specs::Rules::resource_faults))]
pub fn seeing_resources(
    alloc: Global,
    first: First,
    app: &App,
    bodies: &[Sites],
    entities: &[TypedEntity],
) -> Result<First, AllocError>
    ensures { IfOk result (λ x. x.fault ≡ first_of first.fault (resource_faults app.now bodies.now (map entity_of entities.now))) }
{
    let first = seeing_all_uses(first, app, bodies);
    seeing_entities(alloc, first, app, bodies, entities)
}
