// A bound on the bytes that one call takes.
ghost use Rattle.std.specs.Prelude.{◌≡◌, ◌≤◌, None, Some, length, take};
ghost use Rattle.chk_base.specs.Pieces.{TakesSome, at_most};

use std::marker::Model;

// The most bytes that one call takes, where a bound was given: at least 1.
#[derive(Drop)]
pub(crate) struct Bound {
    most: Option<u32>,
}

impl Model for Bound {
    ghost use Rattle.std.specs.Prelude.{Option, ℕ, ◌≤◌, IfSome};

    ghost Value = { Option ℕ };

    ghost view = { λ a. a.most };

    ghost invariant = { λ a. IfSome a.most (λ n. 1 ≤ n) };
}

impl Bound {
    pub(crate) fn none() -> Bound
        ensures { result ≡ None }
    {
        Bound { most: None }
    }

    pub(crate) fn of(most: u32) -> Bound
        requires { 1 ≤ most }
        ensures { result ≡ Some most }
    {
        Bound { most: Some(most) }
    }

    // How many bytes of a piece of this length are taken.
    pub(crate) fn taken(&self, len: usize) -> usize
        ensures value { result ≡ at_most self.now len }
        ensures within { result ≤ len }
        ensures some { 1 ≤ len → 1 ≤ result }
    {
        match self.most {
            None => len,
            Some(most) => len.min(most as usize),
        }
    }
}
