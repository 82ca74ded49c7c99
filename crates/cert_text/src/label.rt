// What a certificate says of labels.
ghost use Rattle.std.specs.Prelude.{◌≡◌, OnErr, OnOk, [], ◌∷◌, ◌++◌, length, slice_get};
ghost use Rattle.std.specs.Option.{option_copied};

use chk_base::text::Text;
use std::alloc::{AllocError, Global};
use std::marker::Model;

/// What a label stands for: a turn after the run's end, the arrival of the routine of this name, or a step of the entity of this name
/// from one of its points.
#[derive(Drop)]
pub enum LabelText {
    Idle,
    Arrive(Text),
    Step(Text, u16),
}

/// What labels stand for, from label 0 on.
#[derive(Drop)]
pub struct LabelTexts {
    items: Vec<LabelText>,
}

impl Model for LabelTexts {
    ghost use Rattle.std.specs.Prelude.{List};
    ghost use Rattle.cert_text.specs.declared.label.LabelText.{LabelText};

    ghost Value = { List LabelText };

    ghost view = { λ a. a.items.items };
}

impl LabelTexts {
    pub fn new(alloc: Global) -> Self
        ensures { result ≡ [] }
    {
        LabelTexts {
            items: Vec::new(alloc),
        }
    }

    pub fn push(&mut self, item: LabelText) -> Result<(), AllocError>
        ensures ok { OnOk result (self.new ≡ self.old ++ item ∷ []) }
        ensures err { OnErr result (self.new ≡ self.old) }
    {
        self.items.push(item)?;
        Ok(())
    }

    pub fn len(&self) -> usize
        ensures { result ≡ length self.now }
    {
        self.items.len()
    }

    pub fn get(&self, at: usize) -> Option<&LabelText>
        ensures { option_copied result ≡ slice_get self.now at }
    {
        self.items.get(at)
    }
}
