// What is wrong with an OIL text.
ghost use Rattle.std.specs.Prelude.{◌≡◌};
ghost use Rattle.oil_text.specs.declared.fault.OilFault.TheVariants as faults;

use chk_base::place::Place;
use std::alloc::AllocError;

/// Why a text is refused, with a place in it. `Byte` is at the first byte where no blank, comment or token begins; else `Token` is at the
/// first token with which the tokens so far are the beginning of no text of the grammar, and `EndOfText`, at the place after the last byte,
/// says that all tokens are such a beginning and no whole text. `Memory` says that memory ran out, and nothing of the text.
#[derive(Clone, Copy, PartialEq, Eq, Debug)]
pub enum OilFault {
    Byte(Place),
    Token(Place),
    EndOfText(Place),
    Memory,
}

impl From<AllocError> for OilFault {
    ghost from_gives = { λ _ e. e ≡ faults.Memory };

    fn from(_error: AllocError) -> Self {
        OilFault::Memory
    }
}
