// From one turn that is built to the description of all.
ghost use Rattle.turn_law.specs.Unrolled.{BuiltTurnsAreMade, DraftsOffer, NoTurnIsUnrolled, OneMoreTurnIsUnrolled, UnrolledTurnsDescribe};

/// The alternatives of a draft that is well shaped are those of its program, and none has label 0.
pub fn drafts_offer()
    ensures { DraftsOffer }
{}

/// A turn that is built of free literals, gates and demands shows exactly the turns of the program, each under one assignment.
pub fn built_turns_are_made()
    ensures { BuiltTurnsAreMade }
{}

/// The formula of variable 1 alone shows the start.
pub fn no_turn_is_unrolled()
    ensures { NoTurnIsUnrolled }
{}

/// One more turn shows exactly the runs with one more turn.
pub fn one_more_turn_is_unrolled()
    ensures { OneMoreTurnIsUnrolled }
{}

/// The assignments of turns that are unrolled are the runs of at most so many turns, one for each.
pub fn unrolled_turns_describe()
    ensures { UnrolledTurnsDescribe }
{}
