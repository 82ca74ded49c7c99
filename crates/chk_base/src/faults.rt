// The faults of a desk.
ghost use Rattle.std.specs.Prelude.{◌≡◌, ◌≤◌, Some, None, option_copied};
ghost use Rattle.chk_base.specs.Causes.{Rose};
ghost use Rattle.chk_base.specs.Desk.{Fetch, Begin, Append};

use crate::text::Text;
use std::marker::Model;
use std::snapshot::Snapshot;

// A call that failed, with the name that it was given. Nobody but clauses reads the name, so it takes no memory.
#[derive(Drop)]
pub(crate) enum Call {
    Fetch(Snapshot<Text>),
    Begin(Snapshot<Text>),
    Append(Option<Snapshot<Text>>),
}

// How many calls have failed, and the last one of them.
#[derive(Drop)]
pub(crate) struct Faults {
    earlier: u64,
    last: Option<Call>,
}

impl Model for Faults {
    ghost use Rattle.std.specs.Prelude.{ℕ, ◌+◌, ◌<◌, ◌-◌, ◌^◌, Option, option_map};
    ghost use Rattle.chk_base.specs.Desk.{DeskFault};

    ghost Value = { Option (ℕ × DeskFault) };

    ghost use Rattle.chk_base.specs.Faults.{fault_of};

    ghost view = { λ a. option_map (λ call. (a.earlier, fault_of call)) a.last };

    ghost invariant = { λ a. a.earlier < 2 ^ 64 - 1 };
}

impl Faults {
    ghost use Rattle.chk_base.specs.Faults.{after_fault, count_of, fault_of, last_of};

    pub(crate) fn new() -> Faults
        ensures { result ≡ None }
    {
        Faults {
            earlier: 0,
            last: None,
        }
    }

    fn add(&mut self, call: Call)
        ensures value { self.new ≡ after_fault self.old (fault_of call) }
        ensures later { count_of self.old ≤ count_of self.new }
        ensures rose { Rose (count_of self.old) (count_of self.new) }
    {
        self.earlier = match self.last {
            None => 0,
            Some(_) => (self.earlier + 1).min(u64::MAX - 1),
        };
        self.last = Some(call);
    }

    // A fetch of this file failed.
    pub(crate) fn add_fetch(&mut self, name: &Text)
        ensures value { self.new ≡ after_fault self.old (Fetch name.now) }
        ensures last { last_of self.new ≡ Some (Fetch name.now) }
        ensures later { count_of self.old ≤ count_of self.new }
        ensures rose { Rose (count_of self.old) (count_of self.new) }
    {
        self.add(Call::Fetch(Snapshot::of(name)));
    }

    // A begin of this file failed.
    pub(crate) fn add_begin(&mut self, name: &Text)
        ensures value { self.new ≡ after_fault self.old (Begin name.now) }
        ensures last { last_of self.new ≡ Some (Begin name.now) }
        ensures later { count_of self.old ≤ count_of self.new }
        ensures rose { Rose (count_of self.old) (count_of self.new) }
    {
        self.add(Call::Begin(Snapshot::of(name)));
    }

    // An append to this current file failed.
    pub(crate) fn add_append(&mut self, current: Option<&Text>)
        ensures value { self.new ≡ after_fault self.old (Append (option_copied current.entry)) }
        ensures last { last_of self.new ≡ Some (Append (option_copied current.entry)) }
        ensures later { count_of self.old ≤ count_of self.new }
        ensures rose { Rose (count_of self.old) (count_of self.new) }
    {
        let name = match current {
            None => None,
            Some(name) => Some(Snapshot::of(name)),
        };
        self.add(Call::Append(name));
    }
}
