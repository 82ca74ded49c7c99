// The lists that a machine keeps: reading a number of one, and changing it where there is room.
ghost use Rattle.std.specs.Prelude.{◌≡◌, ◌<◌, ◌≤◌, ◌+◌, ◌∷◌, if◌then◌else◌, slice_index, slice_set, vec_capacity, vec_len};
ghost use Rattle.osek_machine.specs.Faults.{IsRestarted};
ghost use Rattle.step_ir.specs.Numbers.{tail};

use crate::held::{Holding, release_all};
use crate::ready::Waiting;
use step_ir::event::Section;

/// The number at this place, and 0 beyond.
pub fn number_at(numbers: &[u8], at: u8) -> u8
    ensures { result ≡ slice_index numbers.now at }
{
    if (at as usize) < numbers.len() {
        numbers[at as usize]
    } else {
        0
    }
}

/// A fresh request starts at its body's beginning, and holds nothing.
pub fn restart(points: &mut Vec<u16>, held: &mut Vec<Holding>, w: Waiting)
    requires { w.task < vec_len points.old }
    ensures points { points.new.items
        ≡ (if w.begun then points.old.items else slice_set points.old.items w.task 0) }
    ensures held { IsRestarted w.begun held.old.items w.task held.new.items }
    ensures capacity { vec_capacity held.new ≡ vec_capacity held.old }
{
    if !w.begun {
        points[w.task as usize] = 0;
        release_all(held, w.task);
    }
}

/// An entity starts at its body's beginning.
pub fn restart_point(points: &mut Vec<u16>, e: u8)
    requires { e < vec_len points.old }
    ensures { points.new.items ≡ slice_set points.old.items e 0 }
{
    points[e as usize] = 0;
}

/// A task has one more request.
pub fn one_more(requests: &mut Vec<u8>, t: u8)
    requires known { t < vec_len requests.old }
    requires room { slice_index requests.old.items t < 8 }
    ensures { requests.new.items ≡ slice_set requests.old.items t (slice_index requests.old.items t + 1) }
{
    requests[t as usize] += 1;
}

/// Opens a section inside the others.
pub fn put_section(sections: &mut Vec<Section>, section: Section)
    requires { vec_len sections.old < vec_capacity sections.old }
    ensures items { sections.new.items ≡ section ∷ sections.old.items }
    ensures capacity { vec_capacity sections.old ≤ vec_capacity sections.new }
{
    let _ = sections.insert(0, section);
}

/// Closes the innermost section, if there is one.
pub fn drop_section(sections: &mut Vec<Section>)
    ensures items { sections.new.items ≡ tail sections.old.items }
    ensures capacity { vec_capacity sections.new ≡ vec_capacity sections.old }
{
    if sections.len() == 0 {
        return;
    }
    sections.remove(0);
}

/// Puts a routine before the active ones.
pub fn put_routine(active: &mut Vec<u8>, r: u8)
    requires { vec_len active.old < vec_capacity active.old }
    ensures items { active.new.items ≡ r ∷ active.old.items }
    ensures capacity { vec_capacity active.old ≤ vec_capacity active.new }
{
    let _ = active.insert(0, r);
}

/// Takes the first active routine out, if there is one.
pub fn drop_routine(active: &mut Vec<u8>)
    ensures items { active.new.items ≡ tail active.old.items }
    ensures capacity { vec_capacity active.new ≡ vec_capacity active.old }
{
    if active.len() == 0 {
        return;
    }
    active.remove(0);
}
