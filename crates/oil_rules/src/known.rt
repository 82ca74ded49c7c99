// What the whole of a CPU section says, as far as the rules on single attributes ask.
ghost use Rattle.std.specs.Prelude.{◌≡◌, IfOk};
ghost use Rattle.oil_rules.specs.Known.{known_of};

use crate::group::{Group, distinct_names, some_lacks_scheduler};
use crate::names::Names;
use oil_tree::tree::Item;
use std::alloc::{AllocError, Global};

/// The names of the resources, of the internal ones among them and of the modes, each once, and whether USERESSCHEDULER is FALSE.
#[derive(Drop)]
pub struct Known<'a> {
    pub resources: Names<'a>,
    pub internals: Names<'a>,
    pub modes: Names<'a>,
    pub no_scheduler: bool,
}

/// What these items say.
#[tactic(auto, unfolding(crate::specs::Known::known_of))]
pub fn known_of(alloc: Global, items: &[Item]) -> Result<Known<'_>, AllocError>
    ensures { IfOk result (λ known. known ≡ known_of items.now) }
{
    let resources = distinct_names(alloc, Group::Resources, items)?;
    let internals = distinct_names(alloc, Group::Internals, items)?;
    let modes = distinct_names(alloc, Group::Modes, items)?;
    Ok(Known {
        resources,
        internals,
        modes,
        no_scheduler: some_lacks_scheduler(items),
    })
}
