// What can be done with the lists of a tree.
ghost use Rattle.std.specs.Prelude.{◌≡◌, OnOk, OnErr, length, slice_get, [], ◌∷◌, ◌++◌};
ghost use Rattle.std.specs.Option.{option_copied};
ghost use Rattle.oil_tree.specs.PlainAttributes.{NoAttribute};
ghost use Rattle.oil_tree.specs.Listed.{listed};

use crate::tree::{Attribute, Attributes, Item, Items, Places};
use chk_base::place::Place;
use std::alloc::{AllocError, Global};

impl Attributes {
    pub fn new(alloc: Global) -> Self
        ensures { result ≡ NoAttribute }
    {
        Attributes {
            items: Vec::new(alloc),
        }
    }

    #[tactic(auto, using(crate::proofs::Lists::listed_plain))]
    pub fn push(&mut self, item: Attribute) -> Result<(), AllocError>
        ensures ok { OnOk result (listed self.new ≡ listed self.old ++ item ∷ []) }
        ensures err { OnErr result (self.new ≡ self.old) }
    {
        self.items.push(item)?;
        Ok(())
    }

    #[tactic(auto, using(crate::proofs::Lists::listed_plain))]
    pub fn len(&self) -> usize
        ensures { result ≡ length (listed self.now) }
    {
        self.items.len()
    }

    pub fn get(&self, at: usize) -> Option<&Attribute>
        ensures { option_copied result ≡ slice_get (listed self.now) at }
    {
        self.items().get(at)
    }

    #[tactic(auto, using(crate::proofs::Lists::listed_plain))]
    pub fn items(&self) -> &[Attribute]
        ensures { result.now ≡ listed self.now }
    {
        self.items.as_slice()
    }
}

impl Items {
    pub fn new(alloc: Global) -> Self
        ensures { result ≡ [] }
    {
        Items {
            items: Vec::new(alloc),
        }
    }

    pub fn push(&mut self, item: Item) -> Result<(), AllocError>
        ensures ok { OnOk result (self.new ≡ self.old ++ item ∷ []) }
        ensures err { OnErr result (self.new ≡ self.old) }
    {
        self.items.push(item)?;
        Ok(())
    }

    pub fn len(&self) -> usize
        ensures { result ≡ length self.now }
    {
        self.items.len()
    }

    pub fn get(&self, at: usize) -> Option<&Item>
        ensures { option_copied result ≡ slice_get self.now at }
    {
        self.items.get(at)
    }

    pub fn items(&self) -> &[Item]
        ensures { result.now ≡ self.now }
    {
        self.items.as_slice()
    }
}

impl Places {
    pub fn new(alloc: Global) -> Self
        ensures { result ≡ [] }
    {
        Places {
            items: Vec::new(alloc),
        }
    }

    pub fn push(&mut self, item: Place) -> Result<(), AllocError>
        ensures ok { OnOk result (self.new ≡ self.old ++ item ∷ []) }
        ensures err { OnErr result (self.new ≡ self.old) }
    {
        self.items.push(item)?;
        Ok(())
    }

    pub fn len(&self) -> usize
        ensures { result ≡ length self.now }
    {
        self.items.len()
    }

    pub fn get(&self, at: usize) -> Option<&Place>
        ensures { option_copied result ≡ slice_get self.now at }
    {
        self.items.get(at)
    }

    pub fn items(&self) -> &[Place]
        ensures { result.now ≡ self.now }
    {
        self.items.as_slice()
    }
}
