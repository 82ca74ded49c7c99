// What a search answers.
use clause_form::assignment::Assignment;
use std::alloc::AllocError;
use thiserror::Error;

/// What a search comes to.
#[derive(Drop)]
pub enum Answer {
    /// One value for each variable, which make every clause true.
    Model(Assignment),
    /// No assignment makes every clause true.
    Refuted,
    /// As many lines are kept as the budget allows, and neither was found.
    Spent,
}

/// Why a search has no answer.
#[derive(Clone, Copy, Debug, Error, PartialEq, Eq)]
pub enum SolveFault {
    /// The keep failed to take a line.
    #[error("KeepFailed")]
    KeepFailed,
    /// The store, the keep or the search itself got no memory.
    #[error("Memory")]
    Memory,
}

impl From<AllocError> for SolveFault {
    ghost use Rattle.std.specs.Prelude.{◌≡◌};
    ghost use Rattle.clause_solver.specs.declared.answer.SolveFault.TheVariants.{Memory};

    ghost from_gives = { λ _ e. e ≡ Memory };

    fn from(_error: AllocError) -> SolveFault {
        SolveFault::Memory
    }
}
