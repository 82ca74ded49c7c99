// The sets of a change.
ghost use Rattle.std.specs.Prelude.{◌≡◌, ◌+◌, ◌++◌, ◌∷◌, [], IfOk, OnOk, option_map};
ghost use Rattle.chk_base.specs.Term.{term_of};
ghost use Rattle.guard_prog.specs.Drafts.{plain_sets};
ghost use Rattle.one_stack.specs.Plain.{change_of, slot_of};
ghost use Rattle.one_stack.specs.Rules as rules;
ghost use Rattle.one_stack.specs.Tables.{place_in, plan_in, room_in, seen};

use crate::change::{Change, count_set, held_set, kept_set, on_set, waits_set};
use crate::layout::{Layout, Slot};
use crate::terms::copy;
use chk_base::expr::Expr;
use chk_base::sets::{Set, Sets};
use std::alloc::{AllocError, Global};

/// Puts a set at the end.
pub fn put_set(sets: &mut Sets, cell: u16, value: Expr) -> Result<(), AllocError>
    ensures { OnOk result (plain_sets sets.new ≡ plain_sets sets.old ++ (cell, term_of value) ∷ []) }
{
    sets.push(Set { cell, value })?;
    Ok(())
}

// The set of a slot, if there is a value.
fn put_slot(
    sets: &mut Sets,
    layout: &Layout,
    slot: Slot,
    value: Option<Expr>,
) -> Result<(), AllocError>
    ensures { OnOk result (plain_sets sets.new ≡ plain_sets sets.old ++ rules.set_at (place_in layout.now (slot_of slot)) (option_map term_of value)) }
{
    match value {
        None => Ok(()),
        Some(value) => {
            let cell = layout.place(slot);
            put_set(sets, cell, value)
        }
    }
}

fn put_stack(sets: &mut Sets, layout: &Layout, c: Change) -> Result<(), AllocError>
    ensures { OnOk result (plain_sets sets.new ≡ plain_sets sets.old ++ rules.collect layout.now.entities (λ x. rules.set_at (place_in layout.now (rules.On x)) (rules.on_set (change_of c) x))) }
{
    for x in (0..layout.entities()).rev() {
        put_slot(sets, layout, Slot::On(x), on_set(c, x))?;
    }
    Ok(())
}

fn put_counts(alloc: Global, sets: &mut Sets, layout: &Layout, c: Change) -> Result<(), AllocError>
    ensures { OnOk result (plain_sets sets.new ≡ plain_sets sets.old ++ rules.collect layout.now.entities (λ t. rules.set_at (place_in layout.now (rules.Count t)) (rules.count_set (seen layout.now) (plan_in layout.now) (change_of c) t))) }
{
    for t in (0..layout.entities()).rev() {
        let value = count_set(alloc, layout, c, t)?;
        put_slot(sets, layout, Slot::Count(t), value)?;
    }
    Ok(())
}

fn put_level(
    alloc: Global,
    sets: &mut Sets,
    layout: &Layout,
    c: Change,
    l: u8,
) -> Result<(), AllocError>
    ensures { OnOk result (plain_sets sets.new ≡ plain_sets sets.old ++ rules.collect (room_in layout.now l) (λ i. rules.set_at (place_in layout.now (rules.Waits l i)) (rules.waits_set (seen layout.now) (plan_in layout.now) (change_of c) l i))) }
{
    for i in (0..layout.room(l)).rev() {
        let value = waits_set(alloc, layout, c, l, i)?;
        put_slot(sets, layout, Slot::Waits { level: l, at: i }, value)?;
    }
    Ok(())
}

fn put_requests(
    alloc: Global,
    sets: &mut Sets,
    layout: &Layout,
    c: Change,
) -> Result<(), AllocError>
    ensures { OnOk result (plain_sets sets.new ≡ plain_sets sets.old ++ rules.collect ((seen layout.now).top + 1) (λ l. rules.collect (room_in layout.now l) (λ i. rules.set_at (place_in layout.now (rules.Waits l i)) (rules.waits_set (seen layout.now) (plan_in layout.now) (change_of c) l i)))) }
{
    for l in (0..layout.levels()).rev() {
        put_level(alloc, sets, layout, c, l)?;
    }
    Ok(())
}

fn put_held(sets: &mut Sets, layout: &Layout, c: Change) -> Result<(), AllocError>
    ensures { OnOk result (plain_sets sets.new ≡ plain_sets sets.old ++ rules.collect layout.now.resources (λ r. rules.set_at (place_in layout.now (rules.Held r)) (rules.held_set (change_of c) r))) }
{
    for r in (0..layout.resources()).rev() {
        put_slot(sets, layout, Slot::Held(r), held_set(c, r))?;
    }
    Ok(())
}

fn put_kept_of(sets: &mut Sets, layout: &Layout, c: Change, e: u8) -> Result<(), AllocError>
    ensures { OnOk result (plain_sets sets.new ≡ plain_sets sets.old ++ rules.collect layout.now.resources (λ i. rules.set_at (place_in layout.now (rules.Kept e i)) (rules.kept_set (seen layout.now) (plan_in layout.now) (change_of c) e i))) }
{
    for i in (0..layout.resources()).rev() {
        let slot = Slot::Kept { entity: e, at: i };
        put_slot(sets, layout, slot, kept_set(layout, c, e, i))?;
    }
    Ok(())
}

fn put_kept(sets: &mut Sets, layout: &Layout, c: Change) -> Result<(), AllocError>
    ensures { OnOk result (plain_sets sets.new ≡ plain_sets sets.old ++ rules.collect layout.now.entities (λ e. rules.collect layout.now.resources (λ i. rules.set_at (place_in layout.now (rules.Kept e i)) (rules.kept_set (seen layout.now) (plan_in layout.now) (change_of c) e i)))) }
{
    for e in (0..layout.entities()).rev() {
        put_kept_of(sets, layout, c, e)?;
    }
    Ok(())
}

/// All sets of a change.
pub fn change_sets(alloc: Global, layout: &Layout, c: Change) -> Result<Sets, AllocError>
    ensures { IfOk result (λ sets. plain_sets sets ≡ rules.change_sets (seen layout.now) (plan_in layout.now) (change_of c)) }
{
    let mut sets = Sets::new(alloc);
    put_stack(&mut sets, layout, c)?;
    put_counts(alloc, &mut sets, layout, c)?;
    put_requests(alloc, &mut sets, layout, c)?;
    put_held(&mut sets, layout, c)?;
    put_kept(&mut sets, layout, c)?;
    Ok(sets)
}

/// Puts copies of these sets at the end.
pub fn put_copies(alloc: Global, sets: &mut Sets, others: &[Set]) -> Result<(), AllocError>
    ensures { OnOk result (plain_sets sets.new ≡ plain_sets sets.old ++ plain_sets others.now) }
{
    for set in others {
        let value = copy(alloc, &set.value)?;
        put_set(sets, set.cell, value)?;
    }
    Ok(())
}
