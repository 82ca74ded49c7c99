// The rules on calls.
ghost use Rattle.std.specs.Prelude.{◌≡◌, IfOk, None, length, [], map, if◌then◌else◌};
ghost use Rattle.std.specs.List.{flat_map};
ghost use Rattle.typed_unit.specs.Views.{entity_of};
ghost use Rattle.c_rules.specs.First.{first_of};
ghost use Rattle.static_rules.specs.Chains.{body, all_below, called_after, reaches};
ghost use Rattle.static_rules.specs.Found.{IsTable};
ghost use Rattle.static_rules.specs.Rules.{call_faults, comes_back, returning_faults, recursion_faults, late_faults, chain_faults, first_sites, calling_faults};

use crate::collect::first_sites;
use crate::found::{body, called_after, reached_from};
use crate::site::{Site, Sites};
use c_rules::first::First;
use std::alloc::{AllocError, Global};
use typed_unit::typed::TypedEntity;

#[tactic(auto, unfolding(crate::specs::Rules::call_faults))]
fn seeing_call(first: First, function: usize, site: Site) -> First
    ensures { result.fault ≡ first_of first.fault (call_faults function site) }
{
    match site {
        Site::Call {
            function: called,
            place,
        } => first.seeing(called == function, 6, place),
        Site::Use {
            resource: _,
            place: _,
        } => first,
    }
}

// With the faults of the calls of a function at these sites, where they are some.
#[tactic(auto, using(c_rules::proofs::Firsts::first_of_more))]
fn seeing_calls(first: First, function: usize, sites: &[Site]) -> First
    ensures { result.fault ≡ first_of first.fault (flat_map (call_faults function) sites.now) }
{
    let mut first = first;
    for site in sites {
        first = seeing_call(first, function, *site);
    }
    first
}

fn seeing_calls_if(first: First, wanted: bool, function: usize, sites: &[Site]) -> First
    ensures { result.fault ≡ first_of first.fault (if wanted then flat_map (call_faults function) sites.now else []) }
{
    if wanted {
        seeing_calls(first, function, sites)
    } else {
        first
    }
}

// With the faults of the calls of a function, which reaches those that are flagged.
#[tactic(auto, using(crate::proofs::FaultParts::below_more), unfolding(crate::specs::Rules::returning_faults))]
fn seeing_returns(first: First, bodies: &[Sites], function: usize, flags: &[bool]) -> First
    requires { IsTable flags.now (length bodies.now) (reaches bodies.now (body bodies.now function)) }
    ensures { result.fault ≡ first_of first.fault (returning_faults bodies.now function) }
{
    let mut first = first;
    for f in 0..bodies.len() {
        first = seeing_calls_if(first, f == function || flags[f], function, body(bodies, f));
    }
    first
}

/// With the faults of calls that come back to the calling function.
#[tactic(auto, using(crate::proofs::FaultParts::below_more), unfolding(crate::specs::Rules::recursion_faults))]
pub fn seeing_recursion(alloc: Global, first: First, bodies: &[Sites]) -> Result<First, AllocError>
    ensures { IfOk result (λ x. x.fault ≡ first_of first.fault (recursion_faults bodies.now)) }
{
    let mut first = first;
    for function in 0..bodies.len() {
        let flags = reached_from(alloc, bodies, body(bodies, function))?;
        first = seeing_returns(first, bodies, function, flags.as_slice());
    }
    Ok(first)
}

#[tactic(auto, unfolding(crate::specs::Rules::late_faults))]
fn seeing_late_call(first: First, site: Site) -> First
    ensures { result.fault ≡ first_of first.fault (late_faults site) }
{
    match site {
        Site::Call { function: _, place } => first.seeing(true, 11, place),
        Site::Use {
            resource: _,
            place: _,
        } => first,
    }
}

#[tactic(auto, using(c_rules::proofs::Firsts::first_of_more))]
fn seeing_late_calls(first: First, sites: &[Site]) -> First
    ensures { result.fault ≡ first_of first.fault (flat_map late_faults sites.now) }
{
    let mut first = first;
    for site in sites {
        first = seeing_late_call(first, *site);
    }
    first
}

fn seeing_late_calls_if(first: First, wanted: bool, sites: &[Site]) -> First
    ensures { result.fault ≡ first_of first.fault (if wanted then flat_map late_faults sites.now else []) }
{
    if wanted {
        seeing_late_calls(first, sites)
    } else {
        first
    }
}

/// With the faults of calls that come too late in a chain from these sites.
#[tactic(auto, using(crate::proofs::FaultParts::below_more), unfolding(crate::specs::Rules::chain_faults))]
pub fn seeing_chains(
    alloc: Global,
    first: First,
    bodies: &[Sites],
    start: &[Site],
) -> Result<First, AllocError>
    ensures { IfOk result (λ x. x.fault ≡ first_of first.fault (chain_faults bodies.now start.now)) }
{
    let flags = called_after(alloc, bodies, start, 15)?;
    let mut first = first;
    for f in 0..bodies.len() {
        first = seeing_late_calls_if(first, flags[f], body(bodies, f));
    }
    Ok(first)
}

/// The first fault of the calls of a unit.
#[tactic(auto, using(crate::proofs::FaultParts::some_broken, crate::proofs::FaultParts::none_broken), unfolding(crate::specs::Rules::calling_faults))]
pub fn first_of_calls(
    alloc: Global,
    bodies: &[Sites],
    entities: &[TypedEntity],
) -> Result<First, AllocError>
    ensures { IfOk result (λ x. x.fault ≡ first_of None (calling_faults bodies.now (map entity_of entities.now))) }
{
    let first = seeing_recursion(alloc, First::none(), bodies)?;
    if first.fault.is_some() {
        return Ok(first);
    }
    let start = first_sites(alloc, entities)?;
    seeing_chains(alloc, first, bodies, start.as_slice())
}
