// Why tokens are no unit.
ghost use Rattle.std.specs.Prelude.{◌≡◌};
ghost use Rattle.c_parse.specs.declared.fault.ParseFault.TheVariants as fault;

use chk_base::place::Place;
use std::alloc::AllocError;

/// Why tokens are no unit: no unit goes on with a token, the text ends too soon, more is nested than is read, or there was no memory.
#[derive(Clone, Copy, PartialEq, Eq, Debug)]
pub enum ParseFault {
    Token(Place),
    EndOfText(Place),
    Depth(Place),
    Memory,
}

impl From<AllocError> for ParseFault {
    ghost from_gives = { λ _ given. given ≡ fault.Memory };

    fn from(_error: AllocError) -> ParseFault {
        ParseFault::Memory
    }
}
