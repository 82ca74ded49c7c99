// The ready entries of all levels, in one list.
ghost use Rattle.std.specs.Prelude.{◌≡◌, ◌<◌, ◌≤◌, ◌∷◌, [], IfNone, IfSome, vec_len, vec_capacity};
ghost use Rattle.osek_machine.specs.Ready.{IsHighestAt, IsTaken};

/// A request at a level: begun and preempted, or fresh.
#[derive(Clone, Copy)]
pub struct Waiting {
    pub level: u8,
    pub task: u8,
    pub begun: bool,
}

// The place of the first entry of greatest level.
fn highest(ready: &[Waiting]) -> Option<usize>
    ensures none { IfNone result (ready.now ≡ []) }
    ensures some { IfSome result (λ i. IsHighestAt ready.now i) }
{
    if ready.len() == 0 {
        return None;
    }
    let mut best: usize = 0;
    for i in 1..ready.len() {
        if ready[i].level > ready[best].level {
            best = i;
        }
    }
    Some(best)
}

// Takes the first entry of greatest level out.
pub fn take_highest(ready: &mut Vec<Waiting>) -> Option<Waiting>
    ensures none { IfNone result (ready.old.items ≡ []) }
    ensures kept { IfNone result (ready.new.items ≡ []) }
    ensures some { IfSome result (λ w. IsTaken ready.old.items w ready.new.items) }
    ensures capacity { vec_capacity ready.new ≡ vec_capacity ready.old }
{
    match highest(ready.as_slice()) {
        None => None,
        Some(i) => Some(ready.remove(i)),
    }
}

// Puts an entry before all others, where there is room.
pub fn put_first(ready: &mut Vec<Waiting>, w: Waiting)
    requires { vec_len ready.old < vec_capacity ready.old }
    ensures items { ready.new.items ≡ w ∷ ready.old.items }
    ensures capacity { vec_capacity ready.old ≤ vec_capacity ready.new }
{
    let _ = ready.insert(0, w);
}
