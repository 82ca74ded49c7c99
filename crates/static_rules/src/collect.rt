// The sites of bodies.
ghost use Rattle.std.specs.Prelude.{◌≡◌, OnOk, IfOk, [], ◌∷◌, ◌++◌, map};
ghost use Rattle.std.specs.List.{flat_map};
ghost use Rattle.typed_unit.specs.Views.{function_of, entity_of};
ghost use Rattle.static_rules.specs.Sites.{argument_at, service_sites, statement_sites, block_sites, branches_sites, function_bodies};
ghost use Rattle.static_rules.specs.Rules.{first_sites};

use crate::site::{Bodies, Site, Sites};
use chk_base::place::Place;
use sqlite_items::Items;
use std::alloc::{AllocError, Global};
use step_ir::event::Service;
use typed_unit::typed::{TypedBranch, TypedEntity, TypedFunction, TypedStatement};

fn argument_at(place: Place, argument: Option<Place>) -> Place
    ensures { result ≡ argument_at place argument }
{
    match argument {
        None => place,
        Some(argument) => argument,
    }
}

// Puts the site of a service at the end, if it is one.
fn push_service(sites: &mut Sites, service: Service, place: Place) -> Result<(), AllocError>
    ensures { OnOk result (sites.new ≡ sites.old ++ service_sites service place) }
{
    match service {
        Service::Get(resource) => sites.push(Site::Use { resource, place }),
        Service::Release(resource) => sites.push(Site::Use { resource, place }),
        _ => Ok(()),
    }
}

// Puts the sites of a statement at the end.
#[cycle(walk)]
#[tactic(auto, using(crate::proofs::SiteParts::of_if, crate::proofs::SiteParts::of_if_else, crate::proofs::SiteParts::of_while, crate::proofs::SiteParts::of_for))]
fn push_statement(sites: &mut Sites, statement: &TypedStatement) -> Result<(), AllocError>
    ensures { OnOk result (sites.new ≡ sites.old ++ statement_sites statement.now) }
{
    match statement {
        TypedStatement::Set { .. } => Ok(()),
        TypedStatement::Write { .. } => Ok(()),
        TypedStatement::WriteElement { .. } => Ok(()),
        TypedStatement::Input { .. } => Ok(()),
        TypedStatement::Call { name, function, .. } => {
            sites.push(Site::Call {
                function: *function,
                place: *name,
            })
        }
        TypedStatement::Service {
            place,
            service,
            argument,
        } => { push_service(sites, *service, argument_at(*place, *argument)) }
        TypedStatement::Assert { .. } => Ok(()),
        TypedStatement::If {
            branches,
            otherwise,
            ..
        } => {
            push_branches(sites, branches.as_slice())?;
            match otherwise {
                None => Ok(()),
                Some(body) => push_block(sites, body.as_slice()),
            }
        }
        TypedStatement::While { body, .. } => push_block(sites, body.as_slice()),
        TypedStatement::For {
            start,
            step,
            body,
            ..
        } => {
            push_block(sites, start.as_slice())?;
            push_block(sites, step.as_slice())?;
            push_block(sites, body.as_slice())
        }
        TypedStatement::Return { .. } => Ok(()),
        TypedStatement::Block { body, .. } => push_block(sites, body.as_slice()),
    }
}

// The same for statements one after another.
#[cycle(walk)]
#[tactic(auto, using(crate::proofs::SiteParts::statement_more))]
fn push_block(sites: &mut Sites, block: &[TypedStatement]) -> Result<(), AllocError>
    ensures { OnOk result (sites.new ≡ sites.old ++ block_sites block.now) }
{
    for statement in block {
        push_statement(sites, statement)?;
    }
    Ok(())
}

// The same for branches one after another.
#[cycle(walk)]
#[tactic(auto, using(crate::proofs::SiteParts::branch_more))]
fn push_branches(sites: &mut Sites, branches: &[TypedBranch]) -> Result<(), AllocError>
    ensures { OnOk result (sites.new ≡ sites.old ++ branches_sites branches.now) }
{
    for branch in branches {
        push_block(sites, branch.block.as_slice())?;
    }
    Ok(())
}

/// The sites of a body.
pub fn sites_of(alloc: Global, body: &[TypedStatement]) -> Result<Sites, AllocError>
    ensures { IfOk result (λ sites. sites ≡ block_sites body.now) }
{
    let mut sites = Items::new(alloc);
    push_block(&mut sites, body)?;
    Ok(sites)
}

/// The sites of each function.
#[tactic(auto, using(crate::proofs::SiteParts::function_more))]
pub fn function_bodies(alloc: Global, functions: &[TypedFunction]) -> Result<Bodies, AllocError>
    ensures { IfOk result (λ bodies. bodies ≡ function_bodies (map function_of functions.now)) }
{
    let mut bodies = Items::new(alloc);
    for function in functions {
        bodies.push(sites_of(alloc, function.body.as_slice())?)?;
    }
    Ok(bodies)
}

// Puts the sites of the body of a task or routine at the end.
fn push_first(sites: &mut Sites, entity: &TypedEntity) -> Result<(), AllocError>
    ensures { OnOk result (sites.new ≡ sites.old ++ first_sites (entity_of entity.now)) }
{
    if entity.entity.is_some() {
        push_block(sites, entity.body.as_slice())
    } else {
        Ok(())
    }
}

/// The sites of all bodies of tasks and routines.
#[tactic(auto, using(crate::proofs::SiteParts::first_more))]
pub fn first_sites(alloc: Global, entities: &[TypedEntity]) -> Result<Sites, AllocError>
    ensures { IfOk result (λ sites. sites ≡ flat_map first_sites (map entity_of entities.now)) }
{
    let mut sites = Items::new(alloc);
    for entity in entities {
        push_first(&mut sites, entity)?;
    }
    Ok(sites)
}
