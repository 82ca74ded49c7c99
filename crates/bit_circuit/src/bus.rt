// Buses, which are words of literals, and lists of them.
ghost use Rattle.std.specs.Prelude.{◌≡◌, ◌<◌, [], ◌∷◌, ◌++◌, length, slice_get, OnErr, OnOk, Some};
ghost use Rattle.std.specs.Option.{option_copied};

use clause_form::lit::Lit;
use std::alloc::{AllocError, Global};
use std::marker::Model;

/// The 32 bits of a word as literals, lowest first.
#[derive(Clone, Copy)]
pub struct Bus {
    pub lits: [Lit; 32],
}

/// A list of buses.
#[derive(Drop)]
pub struct Buses {
    items: Vec<Bus>,
}

impl Model for Buses {
    ghost use Rattle.std.specs.Prelude.{List};
    ghost use Rattle.bit_circuit.specs.declared.bus.Bus.{Bus};

    ghost Value = { List Bus };

    ghost view = { λ a. a.items.items };
}

impl Buses {
    pub fn new(alloc: Global) -> Self
        ensures { result ≡ [] }
    {
        Buses {
            items: Vec::new(alloc),
        }
    }

    pub fn push(&mut self, item: Bus) -> Result<(), AllocError>
        ensures ok { OnOk result (self.new ≡ self.old ++ item ∷ []) }
        ensures err { OnErr result (self.new ≡ self.old) }
    {
        self.items.push(item)?;
        Ok(())
    }

    pub fn len(&self) -> usize
        ensures { result ≡ length self.now }
    {
        self.items.len()
    }

    // The bus at a place.
    pub(crate) fn at(&self, at: usize) -> Bus
        requires { at < length self.now }
        ensures { slice_get self.now at ≡ Some result }
    {
        self.items[at]
    }

    pub fn get(&self, at: usize) -> Option<&Bus>
        ensures { option_copied result ≡ slice_get self.now at }
    {
        self.items.get(at)
    }

    /// The buses as a slice.
    pub fn items(&self) -> &[Bus]
        ensures { result.now ≡ self.now }
    {
        self.items.as_slice()
    }
}
