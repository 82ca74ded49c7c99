// Why a reader of a part of the grammar stopped.
ghost use Rattle.std.specs.Prelude.{◌≡◌};
ghost use Rattle.c_expression.specs.declared.stop.Stop.TheVariants.{Memory};

use c_lex::token::Token;
use std::alloc::{AllocError, AllocFailed};

/// Why a reader stopped: at the first of these tokens, or at the text's end where there are none.
#[derive(Drop)]
pub enum Stop<'a> {
    Memory,
    At(&'a [Token]),
}

impl From<AllocError> for Stop<'_> {
    ghost from_gives = { λ _ given. given ≡ Memory };

    fn from(_error: AllocError) -> Self {
        Stop::Memory
    }
}

impl<T: Drop> From<AllocFailed<T>> for Stop<'_> {
    ghost from_gives = { λ _ given. given ≡ Memory };

    fn from(_error: AllocFailed<T>) -> Self {
        Stop::Memory
    }
}
