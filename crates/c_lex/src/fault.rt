// Why a text has no tokens.
ghost use Rattle.std.specs.Prelude.{◌≡◌};
ghost use Rattle.c_lex.specs.declared.fault.LexFault.TheVariants as fault;

use chk_base::place::Place;
use std::alloc::AllocError;

/// Why a text has no tokens: no blank, comment, directive or token begins at a byte, a directive is none of those that are read, a number
/// is none of those that are read, or there was no memory.
#[derive(Clone, Copy, PartialEq, Eq, Debug)]
pub enum LexFault {
    Byte(Place),
    Directive(Place),
    Number(Place),
    Memory,
}

impl From<AllocError> for LexFault {
    ghost from_gives = { λ _ given. given ≡ fault.Memory };

    fn from(_error: AllocError) -> LexFault {
        LexFault::Memory
    }
}
