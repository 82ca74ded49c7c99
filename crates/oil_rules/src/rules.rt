// The first fault of a tree.
ghost use Rattle.std.specs.Prelude.{◌≡◌, IfOk, MatchOption, [], Option};
ghost use Rattle.std.specs.Option.{option_copied};
ghost use Rattle.oil_rules.specs.First.{first_of, IsFirst};
ghost use Rattle.oil_rules.specs.Known.{known_of};
ghost use Rattle.oil_rules.specs.Rules.{lacks_modes, lacks_mode, cpu_faults, count_faults, faults};

use crate::first::{Fault, First};
use crate::group::{Group, seeing_beyond, seeing_repeats};
use crate::known::Known;
use crate::object::seeing_items;
use chk_base::place::Place;
use chk_base::text::Text;
use oil_tree::tree::{Item, OilTree};
use std::alloc::{AllocError, Global};

fn lacks_modes(known: &Known<'_>) -> bool
    ensures { result ≡ lacks_modes known.now }
{
    !(0 < known.modes.len())
}

fn lacks_mode(known: &Known<'_>, mode: Option<&Text>) -> bool
    ensures { result ≡ lacks_mode known.now (option_copied mode.entry) }
{
    match mode {
        None => false,
        Some(mode) => 0 < known.modes.len() && !known.modes.has(mode.as_bytes()),
    }
}

#[tactic(auto, using(crate::proofs::Firsts::first_of_append), unfolding(crate::specs::Rules::cpu_faults))]
fn seeing_cpu(first: First, known: &Known<'_>, mode: Option<&Text>, place: Place) -> First
    ensures { result.fault ≡ first_of first.fault (cpu_faults known.now (option_copied mode.entry) place) }
{
    first
        .seeing(lacks_modes(known), 18, place)
        .seeing(lacks_mode(known, mode), 19, place)
}

#[tactic(auto, using(crate::proofs::Firsts::first_of_append), unfolding(crate::specs::Rules::count_faults))]
fn seeing_counts(alloc: Global, first: First, items: &[Item]) -> Result<First, AllocError>
    ensures { IfOk result (λ f. f.fault ≡ first_of first.fault (count_faults items.now)) }
{
    let first = seeing_repeats(alloc, first, 10, Group::Named, items)?;
    let first = seeing_repeats(alloc, first, 10, Group::Modes, items)?;
    let first = seeing_beyond(first, 10, 1, Group::Systems, items);
    let first = seeing_beyond(first, 23, 16, Group::Entities, items);
    Ok(seeing_beyond(first, 24, 16, Group::Resources, items))
}

/// The first fault of a tree, with the mode that is asked for, if one is: that with the least place, and there of the least rule.
/// None exactly where no rule is broken. `known` is what the tree's items say.
pub fn first_fault(
    alloc: Global,
    tree: &OilTree,
    mode: Option<&Text>,
    known: &Known<'_>,
) -> Result<Option<Fault>, AllocError>
    requires { known.now ≡ known_of tree.now.items }
    ensures { IfOk result (λ fault. MatchOption fault (faults tree.now (option_copied mode.entry) ≡ []) (IsFirst (faults tree.now (option_copied mode.entry)))) }
{
    let items = tree.items.items();
    let first = seeing_cpu(First::none(), known, mode, tree.cpu.place);
    let first = seeing_items(alloc, first, known, items)?;
    let first = seeing_counts(alloc, first, items)?;
    Ok(first.fault)
}
