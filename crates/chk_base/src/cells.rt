// Cells: words that a program reads and sets.
ghost use Rattle.std.specs.Prelude.{◌≡◌, ◌<◌, IfOk, length, map, slice_set};
ghost use Rattle.chk_base.specs.Widths.{zero_word};
ghost use Rattle.chk_base.specs.WordValue.{word_at};

use crate::word::{Width, Word};
use std::alloc::{AllocError, Global};
use std::marker::Model;

/// Words in order, each of a width that never changes.
#[derive(Drop)]
pub struct Cells {
    items: Vec<Word>,
}

impl Model for Cells {
    ghost use Rattle.std.specs.Prelude.{List};
    ghost use Rattle.chk_base.specs.Widths.{PlainWord};

    ghost Value = { List PlainWord };

    ghost view = { λ a. a.items.items };
}

impl Cells {
    /// Cells of these widths, whose words are all 0.
    pub fn new(alloc: Global, widths: &[Width]) -> Result<Cells, AllocError>
        ensures { IfOk result (λ cells. cells ≡ map zero_word widths.now) }
    {
        let items = widths
            .iter()
            .map(|width| Word {
                width: *width,
                bits: 0,
            })
            .collect(alloc)?;
        Ok(Cells { items })
    }

    /// The number of cells.
    pub fn len(&self) -> usize
        ensures { result ≡ length self.now }
    {
        self.items.len()
    }

    /// The word with this number, from 0.
    pub fn get(&self, at: u16) -> Word
        requires { at < length self.now }
        ensures { result ≡ word_at self.now at }
    {
        self.items[at as usize]
    }

    /// Sets the word with this number, from 0.
    pub fn set(&mut self, at: u16, word: Word)
        requires within { at < length self.old }
        requires width { word.width ≡ (word_at self.old at).width }
        ensures { self.new ≡ slice_set self.old at word }
    {
        self.items[at as usize] = word;
    }

    // The word with this number, which may be beyond the numbers of `get`.
    pub(crate) fn word(&self, at: usize) -> Word
        requires { at < length self.now }
        ensures { result ≡ word_at self.now at }
    {
        self.items[at]
    }

    /// The same cells with the same words.
    pub fn copy(&self, alloc: Global) -> Result<Cells, AllocError>
        ensures { IfOk result (λ cells. cells ≡ self.now) }
    {
        let items = Vec::from_slice(alloc, &self.items)?;
        Ok(Cells { items })
    }
}
