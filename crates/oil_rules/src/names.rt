// Sets of names, numbered in the order in which they came.
ghost use Rattle.std.specs.Prelude.{◌≡◌, IfOk, OnErr, length, not, [], position, slice_get};
ghost use Rattle.std.specs.Option.{option_copied};
ghost use Rattle.std.specs.Str.{bytes_eq};
ghost use Rattle.oil_rules.specs.Names.{has_name, with_name};

use indexmap::IndexSet;
use std::alloc::{AllocError, Global};
use std::marker::Model;

/// Names, each once, in the order in which they were added.
#[derive(Drop)]
pub struct Names<'a> {
    set: IndexSet<&'a [u8]>,
}

impl<'a> Model for Names<'a> {
    ghost use Rattle.std.specs.Prelude.{List, ℕ, map};

    ghost Value = { List (List ℕ) };

    ghost view = { λ n. map (λ k. k.now) n.set.keys };
}

impl<'a> Names<'a> {
    /// No names. It takes no memory.
    pub fn new(alloc: Global) -> Names<'a>
        ensures { result ≡ [] }
    {
        Names {
            set: IndexSet::new(alloc),
        }
    }

    /// Adds a name, which goes last if it is new, and says whether it is.
    pub fn add(&mut self, name: &'a [u8]) -> Result<bool, AllocError>
        ensures new { IfOk result (λ is_new. is_new ≡ not (has_name self.old name.now)) }
        ensures names { IfOk result (λ _. self.new ≡ with_name self.old name.now) }
        ensures err { OnErr result (self.new ≡ self.old) }
    {
        let is_new = self.set.insert(name)?;
        Ok(is_new)
    }

    /// Whether the name is there. It takes no memory.
    pub fn has(&self, name: &[u8]) -> bool
        ensures { result ≡ has_name self.now name.now }
    {
        self.set.contains(name)
    }

    /// The number of the name, from 0. It takes no memory.
    pub fn number(&self, name: &[u8]) -> Option<usize>
        ensures { result ≡ position (bytes_eq name.now) self.now }
    {
        self.set.get_index_of(name)
    }

    /// The first name. It takes no memory.
    pub fn first(&self) -> Option<&[u8]>
        ensures { option_copied result ≡ slice_get self.now 0 }
    {
        match self.set.get_index(0) {
            Some(name) => Some(*name),
            None => None,
        }
    }

    /// How many names there are. It takes no memory.
    pub fn len(&self) -> usize
        ensures { result ≡ length self.now }
    {
        self.set.len()
    }
}
