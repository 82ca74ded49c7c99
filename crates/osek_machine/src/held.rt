// The resources that all entities hold, in one list, the last taken first.
ghost use Rattle.std.specs.Prelude.{◌≡◌, ◌<◌, ◌≤◌, ◌∷◌, [], length, IfNone, IfSome, vec_len, vec_capacity};
ghost use Rattle.osek_machine.specs.Held.{held_by, last_in, any_holds, IsFirstOf, IsFreed, IsReleased};
ghost use Rattle.step_ir.specs.Setting.{current, setting_of};

use crate::levels::{ceiling_at, run_level_at};
use application::app::App;

/// An entity that holds a resource.
#[derive(Clone, Copy)]
pub struct Holding {
    pub entity: u8,
    pub resource: u8,
}

/// Whether any entity holds this resource.
pub fn is_held(held: &[Holding], resource: u8) -> bool
    ensures { result ≡ any_holds resource held.now }
{
    for i in 0..held.len() {
        let holding = held[i];
        if holding.resource == resource {
            return true;
        }
    }
    false
}

// The place of the first of an entity.
fn first_of(held: &[Holding], entity: u8) -> Option<usize>
    ensures none { IfNone result (held_by held.now entity ≡ []) }
    ensures some { IfSome result (λ i. IsFirstOf held.now entity i) }
{
    for i in 0..held.len() {
        let holding = held[i];
        if holding.entity == entity {
            return Some(i);
        }
    }
    None
}

/// The resource that an entity took last.
pub fn last_of(held: &[Holding], entity: u8) -> Option<u8>
    ensures { result ≡ last_in (held_by held.now entity) }
{
    match first_of(held, entity) {
        None => None,
        Some(i) => {
            let holding = held[i];
            Some(holding.resource)
        }
    }
}

/// Takes the one that an entity took last out.
pub fn release_last(held: &mut Vec<Holding>, entity: u8) -> Option<u8>
    ensures none { IfNone result (held_by held.old.items entity ≡ []) }
    ensures kept { IfNone result (held.new.items ≡ held.old.items) }
    ensures some { IfSome result (λ r. IsReleased held.old.items entity r held.new.items) }
    ensures capacity { vec_capacity held.new ≡ vec_capacity held.old }
    ensures length { IfSome result (λ r. length held.new.items < length held.old.items) }
{
    match first_of(held.as_slice(), entity) {
        None => None,
        Some(i) => Some(held.remove(i).resource),
    }
}

/// All that an entity holds is free.
pub fn release_all(held: &mut Vec<Holding>, entity: u8)
    ensures held { IsFreed held.old.items entity held.new.items }
    ensures capacity { vec_capacity held.new ≡ vec_capacity held.old }
{
    while let Some(_) = release_last(held, entity) {}
}

/// The current level of an entity.
pub fn current_level(app: &App, held: &[Holding], entity: u8) -> u8
    ensures { result ≡ current (setting_of app.now) entity (held_by held.now entity) }
{
    let mut level: u8 = 0;
    for i in 0..held.len() {
        let holding = held[i];
        if holding.entity == entity {
            level = level.max(ceiling_at(app, holding.resource));
        }
    }
    level.max(run_level_at(app, entity))
}

/// Puts one before all others, where there is room.
pub fn put_holding(held: &mut Vec<Holding>, holding: Holding)
    requires { vec_len held.old < vec_capacity held.old }
    ensures items { held.new.items ≡ holding ∷ held.old.items }
    ensures capacity { vec_capacity held.old ≤ vec_capacity held.new }
{
    let _ = held.insert(0, holding);
}
