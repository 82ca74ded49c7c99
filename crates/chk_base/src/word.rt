// Words of 1, 8, 16 or 32 bits.
ghost use Rattle.std.specs.Prelude.{◌≡◌, ◌+◌, ◌<◌, ◌%◌, ◌^◌, ◌↔◌, IsSome, IfSome, OnOk, OnErr, length, slice_get, [], ◌∷◌, ◌++◌};
ghost use Rattle.std.specs.Option.{option_copied};
ghost use Rattle.chk_base.specs.Widths.{bits_of, limit_of, reading_of, read_as, signed_of, unsigned};

use std::alloc::{AllocError, Global};
use std::marker::Model;

/// The number of bits of a word.
#[derive(Clone, Copy, PartialEq, Eq, Debug)]
pub enum Width {
    W1,
    W8,
    W16,
    W32,
}

impl Width {
    /// The number of bits.
    pub fn bits(self) -> u32
        ensures { result ≡ bits_of self }
    {
        match self {
            Width::W1 => 1,
            Width::W8 => 8,
            Width::W16 => 16,
            Width::W32 => 32,
        }
    }

    // The greatest value.
    fn most(self) -> u32
        ensures { result + 1 ≡ limit_of self }
    {
        match self {
            Width::W1 => 1,
            Width::W8 => 0xff,
            Width::W16 => 0xffff,
            Width::W32 => 0xffff_ffff,
        }
    }

    // The signed reading of bits, as 32 bits.
    pub(crate) fn extended(self, bits: u32) -> u32
        requires { bits < limit_of self }
        ensures { result ≡ unsigned (signed_of (bits_of self) bits) }
    {
        let most = self.most();
        if bits > most / 2 {
            bits + (0xffff_ffff - most)
        } else {
            bits
        }
    }
}

/// A word: its bits as a number, which is below 2 to its width.
#[derive(Clone, Copy, PartialEq, Eq, Debug)]
pub struct Word {
    pub width: Width,
    pub bits: u32,
}

impl Model for Word {
    ghost use Rattle.std.specs.Prelude.{ℕ, ◌<◌};
    ghost use Rattle.chk_base.specs.Widths.{PlainWord, limit_of};

    ghost Value = { PlainWord };

    ghost view = { λ a. record { width = a.width; bits = a.bits } };

    ghost invariant = { λ a. a.bits < limit_of a.width };

    ghost inverse = { λ w. record { width = w.width; bits = w.bits } };
}

impl Word {
    /// A word of these bits, where they fit the width.
    pub fn new(width: Width, bits: u32) -> Option<Word>
        ensures fits { IsSome result ↔ (bits < limit_of width) }
        ensures word { IfSome result (λ w. w ≡ record { width = width; bits = bits }) }
    {
        if bits <= width.most() {
            Some(Word { width, bits })
        } else {
            None
        }
    }

    /// A word of 32 bits.
    pub fn whole(bits: u32) -> Word
        ensures { result ≡ record { width = Width.W32; bits = bits } }
    {
        Word {
            width: Width::W32,
            bits,
        }
    }

    /// A number modulo 2 to the width.
    pub fn taken(width: Width, number: u32) -> Word
        ensures { result ≡ record { width = width; bits = number % limit_of width } }
    {
        let bits = match width {
            Width::W1 => number % 2,
            Width::W8 => number % 0x100,
            Width::W16 => number % 0x1_0000,
            Width::W32 => number,
        };
        Word { width, bits }
    }

    /// The number that the word stands for; the signed reading subtracts 2 to the width where the top bit is 1.
    pub fn reading(self, signed: bool) -> i64
        ensures { result ≡ reading_of signed self }
    {
        let bits = self.bits as i64;
        let most = self.width.most() as i64;
        if signed && bits > most / 2 {
            bits - most - 1
        } else {
            bits
        }
    }

    // The reading as a value of 32 bits.
    pub(crate) fn extended(self, signed: bool) -> u32
        ensures { result ≡ read_as signed self }
    {
        if signed {
            self.width.extended(self.bits)
        } else {
            self.bits
        }
    }
}

/// Widths in order.
#[derive(Drop)]
pub struct Widths {
    items: Vec<Width>,
}

impl Model for Widths {
    ghost use Rattle.std.specs.Prelude.{List};
    ghost use Rattle.chk_base.specs.declared.word.Width.{Width};

    ghost Value = { List Width };

    ghost view = { λ a. a.items.items };
}

impl Widths {
    pub fn new(alloc: Global) -> Self
        ensures { result ≡ [] }
    {
        Widths {
            items: Vec::new(alloc),
        }
    }

    pub fn push(&mut self, item: Width) -> Result<(), AllocError>
        ensures ok { OnOk result (self.new ≡ self.old ++ item ∷ []) }
        ensures err { OnErr result (self.new ≡ self.old) }
    {
        self.items.push(item)?;
        Ok(())
    }

    pub fn len(&self) -> usize
        ensures { result ≡ length self.now }
    {
        self.items.len()
    }

    pub fn get(&self, at: usize) -> Option<&Width>
        ensures { option_copied result ≡ slice_get self.now at }
    {
        self.items.get(at)
    }

    pub fn items(&self) -> &[Width]
        ensures { result.now ≡ self.now }
    {
        self.items.as_slice()
    }
}
