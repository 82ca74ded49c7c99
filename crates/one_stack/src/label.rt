// Labels, and the choices that they stand for.
ghost use Rattle.std.specs.Prelude.{◌≡◌, OnOk, OnErr, length, slice_get, [], ◌∷◌, ◌++◌};
ghost use Rattle.std.specs.Option.{option_copied};

use application::app::Entity;
use chk_base::word::Width;
use std::alloc::{AllocError, Global};
use std::marker::Model;

/// What a label stands for: the arrival of an entity, or a step of it, with an input of this width where it takes one. `point` is one
/// of the program's points at which an alternative has the label, and 0 where none has it.
#[derive(Clone, Copy, PartialEq, Eq, Debug)]
pub struct Label {
    pub entity: Entity,
    pub point: u16,
    pub arrives: bool,
    pub input: Option<Width>,
}

/// The labels from 1 on, in order.
#[derive(Drop)]
pub struct Labels {
    items: Vec<Label>,
}

impl Model for Labels {
    ghost use Rattle.std.specs.Prelude.{List};
    ghost use Rattle.one_stack.specs.declared.label.Label.{Label};

    ghost Value = { List Label };

    ghost view = { λ a. a.items.items };
}

impl Labels {
    pub fn new(alloc: Global) -> Self
        ensures { result ≡ [] }
    {
        Labels {
            items: Vec::new(alloc),
        }
    }

    pub fn push(&mut self, item: Label) -> Result<(), AllocError>
        ensures ok { OnOk result (self.new ≡ self.old ++ item ∷ []) }
        ensures err { OnErr result (self.new ≡ self.old) }
    {
        self.items.push(item)?;
        Ok(())
    }

    pub fn len(&self) -> usize
        ensures { result ≡ length self.now }
    {
        self.items.len()
    }

    pub fn get(&self, at: usize) -> Option<&Label>
        ensures { option_copied result ≡ slice_get self.now at }
    {
        self.items.get(at)
    }

    pub fn items(&self) -> &[Label]
        ensures { result.now ≡ self.now }
    {
        self.items.as_slice()
    }
}
