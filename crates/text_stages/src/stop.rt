// Why texts lead to no code.
ghost use Rattle.std.specs.Prelude.{◌≡◌};
ghost use Rattle.text_stages.specs.declared.stop.Stop.TheVariants as stop;

pub use answers::refusal::Refusal;
use std::alloc::AllocError;

/// Why there is no application or no code: the texts are refused, or memory ran out.
#[derive(Clone, Copy, PartialEq, Eq, Debug)]
pub enum Stop {
    Refused(Refusal),
    Memory,
}

impl From<AllocError> for Stop {
    ghost from_gives = { λ _ given. given ≡ stop.Memory };

    fn from(_error: AllocError) -> Stop {
        Stop::Memory
    }
}

impl From<Refusal> for Stop {
    ghost from_gives = { λ refusal given. given ≡ stop.Refused refusal };

    fn from(refusal: Refusal) -> Stop {
        Stop::Refused(refusal)
    }
}
