// Which functions are reached by calls.
ghost use Rattle.std.specs.Prelude.{◌≡◌, ◌==◌, ◌&&◌, ◌<◌, false, IfOk, OnOk, [], length, get_or};
ghost use Rattle.std.specs.List.{flat_map};
ghost use Rattle.static_rules.specs.Chains.{is_call_of, calls, body, any_below, called_after, reaches};
ghost use Rattle.static_rules.specs.Found.{IsTable, Finds};

use crate::site::{Site, Sites};
use std::alloc::{AllocError, Global};

/// Functions that were found: a flag for each, and the numbers of those that were found of late.
#[derive(Drop)]
struct Found {
    flags: Vec<bool>,
    fresh: Vec<usize>,
}

/// The sites of a function, and none where there is no such function. It takes no memory.
pub fn body(bodies: &[Sites], function: usize) -> &[Site]
    ensures { result.now ≡ body bodies.now function }
{
    match bodies.get(function) {
        None => &[],
        Some(sites) => sites.as_slice(),
    }
}

impl Found {
    // None of so many functions.
    #[tactic(auto, using(crate::proofs::Finding::no_flags))]
    fn none(alloc: Global, count: usize) -> Result<Found, AllocError>
        ensures flags { IfOk result (λ found. IsTable found.flags.items count (λ g. false)) }
        ensures fresh { IfOk result (λ found. found.fresh.items ≡ []) }
    {
        let flags = vec![in alloc; false; count]?;
        Ok(Found {
            flags,
            fresh: Vec::new(alloc),
        })
    }

    // A function is found.
    #[tactic(auto, using(crate::proofs::Finding::finds_nothing, crate::proofs::Finding::finds_known, crate::proofs::Finding::finds_beyond, crate::proofs::Finding::finds_new))]
    fn find(&mut self, function: usize) -> Result<(), AllocError>
        ensures { OnOk result (Finds self.old.flags.items self.old.fresh.items self.new.flags.items self.new.fresh.items (λ g. function == g)) }
    {
        if function < self.flags.len() && !self.flags[function] {
            self.fresh.push(function)?;
            self.flags[function] = true;
        }
        Ok(())
    }

    // The function that is called at a site, if one is.
    #[tactic(auto, using(crate::proofs::Finding::finds_nothing))]
    fn find_at(&mut self, site: Site) -> Result<(), AllocError>
        ensures { OnOk result (Finds self.old.flags.items self.old.fresh.items self.new.flags.items self.new.fresh.items (λ g. is_call_of g site)) }
    {
        match site {
            Site::Call { function, place: _ } => self.find(function),
            Site::Use {
                resource: _,
                place: _,
            } => Ok(()),
        }
    }

    // Those that are called at these sites.
    #[tactic(auto, using(crate::proofs::Finding::finds_nothing, crate::proofs::Finding::finds_site))]
    fn find_called(&mut self, sites: &[Site]) -> Result<(), AllocError>
        ensures { OnOk result (Finds self.old.flags.items self.old.fresh.items self.new.flags.items self.new.fresh.items (calls sites.now)) }
    {
        for site in sites {
            self.find_at(*site)?;
        }
        Ok(())
    }

    // The same where it is wanted.
    #[tactic(auto, using(crate::proofs::Finding::finds_nothing))]
    fn find_called_if(&mut self, wanted: bool, sites: &[Site]) -> Result<(), AllocError>
        ensures { OnOk result (Finds self.old.flags.items self.old.fresh.items self.new.flags.items self.new.fresh.items (λ g. wanted && calls sites.now g)) }
    {
        if wanted {
            self.find_called(sites)
        } else {
            Ok(())
        }
    }

    // Those that are called by these functions.
    #[tactic(auto, using(crate::proofs::Finding::finds_nothing, crate::proofs::Finding::finds_body))]
    fn find_called_by(&mut self, bodies: &[Sites], functions: &[usize]) -> Result<(), AllocError>
        ensures { OnOk result (Finds self.old.flags.items self.old.fresh.items self.new.flags.items self.new.fresh.items (calls (flat_map (body bodies.now) functions.now))) }
    {
        for function in functions {
            self.find_called(body(bodies, *function))?;
        }
        Ok(())
    }

    // Those as well that are called by the functions found of late.
    fn next(self, alloc: Global, bodies: &[Sites]) -> Result<Found, AllocError>
        ensures { IfOk result (λ found. Finds self.flags.items [] found.flags.items found.fresh.items (calls (flat_map (body bodies.now) self.fresh.items))) }
    {
        let Found { flags, fresh } = self;
        let mut found = Found {
            flags,
            fresh: Vec::new(alloc),
        };
        found.find_called_by(bodies, fresh.as_slice())?;
        Ok(found)
    }
}

/// For each function, whether it is reached from these sites.
#[tactic(auto, using(crate::proofs::Reaching::spread_begins, crate::proofs::Reaching::spread_more, crate::proofs::Reaching::spread_ends))]
pub fn reached_from(
    alloc: Global,
    bodies: &[Sites],
    start: &[Site],
) -> Result<Vec<bool>, AllocError>
    ensures { IfOk result (λ flags. IsTable flags.items (length bodies.now) (reaches bodies.now start.now)) }
{
    let mut found = Found::none(alloc, bodies.len())?;
    found.find_called(start)?;
    for count in 1..bodies.len() {
        found = found.next(alloc, bodies)?;
    }
    let Found { flags, fresh: _ } = found;
    Ok(flags)
}

// For each function, whether it is called by one of these.
fn called_by(alloc: Global, bodies: &[Sites], functions: &[bool]) -> Result<Vec<bool>, AllocError>
    requires { length functions.now ≡ length bodies.now }
    ensures { IfOk result (λ flags. IsTable flags.items (length bodies.now) (λ g. any_below (λ f. get_or functions.now f false && calls (body bodies.now f) g) (length bodies.now))) }
{
    let mut found = Found::none(alloc, bodies.len())?;
    for f in 0..bodies.len() {
        found.find_called_if(functions[f], body(bodies, f))?;
    }
    let Found { flags, fresh: _ } = found;
    Ok(flags)
}

// For each function, whether it is called at one of these sites.
fn called_at(alloc: Global, bodies: &[Sites], start: &[Site]) -> Result<Vec<bool>, AllocError>
    ensures { IfOk result (λ flags. IsTable flags.items (length bodies.now) (calls start.now)) }
{
    let mut found = Found::none(alloc, bodies.len())?;
    found.find_called(start)?;
    let Found { flags, fresh: _ } = found;
    Ok(flags)
}

/// For each function, whether the call after so many others of a chain from these sites is one of it.
#[tactic(auto, using(crate::proofs::Reaching::chain_begins, crate::proofs::Reaching::chain_more))]
pub fn called_after(
    alloc: Global,
    bodies: &[Sites],
    start: &[Site],
    count: usize,
) -> Result<Vec<bool>, AllocError>
    ensures { IfOk result (λ flags. IsTable flags.items (length bodies.now) (called_after bodies.now start.now count)) }
{
    let mut flags = called_at(alloc, bodies, start)?;
    for after in 0..count {
        flags = called_by(alloc, bodies, flags.as_slice())?;
    }
    Ok(flags)
}
