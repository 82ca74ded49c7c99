// What is decided of a run.
use replay::run::Replayed;
use step_ir::event::Choices;

/// A schedule that fails: its events, with the failure that the last of them is, and its choices.
#[derive(Drop)]
pub struct Failing {
    pub replayed: Replayed,
    pub choices: Choices,
}

/// What is decided of a run.
#[derive(Drop)]
pub enum Decision {
    /// No permitted schedule within the bounds fails.
    Holds,
    /// This one does.
    Fails(Failing),
    /// As many lines were learned as the budget allows, and neither was found.
    Undecided,
}
