// Lists of tokens.
ghost use Rattle.std.specs.Prelude.{◌≡◌, OnOk, OnErr, length, slice_get, [], ◌∷◌, ◌++◌};
ghost use Rattle.std.specs.Option.{option_copied};
ghost use Rattle.chk_base.specs.Places.{place_after};

use crate::token::Token;
use chk_base::place::Place;
use std::alloc::{AllocError, Global};
use std::marker::Model;

/// The tokens of a text in order, and the place of the text's end.
#[derive(Drop)]
pub struct Tokens {
    items: Vec<Token>,
    end: Place,
}

impl Model for Tokens {
    ghost use Rattle.c_lex.specs.PlainTokens.{PlainTokens};

    ghost Value = { PlainTokens };

    ghost view = { λ a. record { items = a.items.items; end = a.end } };
}

impl Tokens {
    /// No tokens, of the empty text. It takes no memory.
    pub fn new(alloc: Global) -> Self
        ensures { result ≡ record { items = []; end = place_after [] } }
    {
        Tokens {
            items: Vec::new(alloc),
            end: Place {
                line: 1,
                column: 1,
                offset: 0,
            },
        }
    }

    /// Puts a token after the others. The place of the text's end stays.
    pub fn push(&mut self, item: Token) -> Result<(), AllocError>
        ensures ok { OnOk result (self.new ≡ record self.old { items = self.old.items ++ item ∷ [] }) }
        ensures err { OnErr result (self.new ≡ self.old) }
    {
        self.items.push(item)?;
        Ok(())
    }

    pub fn len(&self) -> usize
        ensures { result ≡ length self.now.items }
    {
        self.items.len()
    }

    pub fn get(&self, at: usize) -> Option<&Token>
        ensures { option_copied result ≡ slice_get self.now.items at }
    {
        self.items.get(at)
    }

    pub fn items(&self) -> &[Token]
        ensures { result.now ≡ self.now.items }
    {
        self.items.as_slice()
    }

    /// The place after the last byte of the text.
    pub fn end(&self) -> Place
        ensures { result ≡ self.now.end }
    {
        self.end
    }

    /// Says where the text ends. The tokens stay.
    pub fn set_end(&mut self, end: Place)
        ensures { self.new ≡ record self.old { end = end } }
    {
        self.end = end;
    }
}
