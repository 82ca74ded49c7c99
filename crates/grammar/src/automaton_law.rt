// The laws of automata, for texts whose counts and orders are part of their grammar.
ghost use Rattle.std.specs.Prelude.{List, ◌↔◌};
ghost use Rattle.grammar.specs.Automaton.{Automaton, CanFinish, IsAccepted, StopsAt, StopsShort};
ghost use Rattle.grammar.specs.FirstFault.{HasOneOutcome, IsCutOff, IsFirstFault};

/// Where some tokens lead from each state that is reached to an end: the first token that isn't taken is the first fault,
/// the text is cut off exactly where all tokens are taken and it may not end there, and each text has one of the three outcomes.
pub fn automaton_is_exact<S, T>()
    ensures fault { (A : Automaton S T) → CanFinish A → (text : List T) (bad : T) (rest : List T)
        → StopsAt A text bad rest ↔ IsFirstFault (IsAccepted A) text bad rest }
    ensures cut_off { (A : Automaton S T) → CanFinish A → (text : List T)
        → StopsShort A text ↔ IsCutOff (IsAccepted A) text }
    ensures one_outcome { (A : Automaton S T) → CanFinish A → (text : List T) → HasOneOutcome (IsAccepted A) text }
{}
