// Why reading stopped.
ghost use Rattle.std.specs.Prelude.{◌≡◌};
ghost use Rattle.oil_text.specs.declared.stop.Stop.TheVariants.{Memory};

use crate::token::Token;
use std::alloc::AllocError;

/// Why a function of the reader stopped: for want of memory, or at the first of these tokens, and at the text's end where there are none.
#[derive(Drop)]
pub(crate) enum Stop<'a> {
    Memory,
    At(&'a [Token]),
}

impl From<AllocError> for Stop<'_> {
    ghost from_gives = { λ _ e. e ≡ Memory };

    fn from(_error: AllocError) -> Self {
        Stop::Memory
    }
}
