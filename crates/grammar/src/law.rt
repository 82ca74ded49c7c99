// The laws of grammars: one tree, one outcome, and reading that is exact.
ghost use Rattle.std.specs.Prelude.{◌≡◌, ◌<◌, List, [], ◌∷◌, true, false, length, ◌↔◌};
ghost use Rattle.grammar.specs.FirstFault.{HasFirstFault, HasOneOutcome, IsCutOff, IsFirstFault, IsReadAs};
ghost use Rattle.grammar.specs.Grammar.{Derives, Expression, Grammar, IsSentence, IsUnambiguous, Many, Node, Rule, Tree};
ghost use Rattle.grammar.specs.Lookahead.{Lookahead, NextDecides, NextDecidesIn, first};
ghost use Rattle.grammar.specs.Loop.{IsReadMany, IsReadSoFar};
ghost use Rattle.grammar.specs.Reading.{Got, OutOfTurns, Stuck, begins, map_got, reading, turn, unread};

/// In any grammar a whole text has no first fault and isn't cut off, a text with a first fault isn't cut off, and the first fault has one place.
pub fn outcomes_exclude<N, T>()
    ensures whole_or_fault { (G : Grammar N T) (e : Expression N) (text : List T)
        → IsSentence G e text → HasFirstFault (IsSentence G e) text → ⊥ }
    ensures whole_or_cut_off { (G : Grammar N T) (e : Expression N) (text : List T)
        → IsSentence G e text → IsCutOff (IsSentence G e) text → ⊥ }
    ensures fault_or_cut_off { (G : Grammar N T) (e : Expression N) (text : List T)
        → HasFirstFault (IsSentence G e) text → IsCutOff (IsSentence G e) text → ⊥ }
    ensures one_fault { (G : Grammar N T) (e : Expression N) (text : List T) (bad other : T) (rest others : List T)
        → IsFirstFault (IsSentence G e) text bad rest → IsFirstFault (IsSentence G e) text other others
        → (bad ≡ other) × (rest ≡ others) }
{}

/// Where the next token decides, a text has at most one tree.
pub fn one_tree<N, T>()
    ensures { (L : Lookahead N T) (e : Expression N) → NextDecidesIn L e
        → IsUnambiguous L.grammar e }
{}

/// Where the next token decides, each list of tokens is whole, has a first fault or is cut off, and only one of these.
pub fn one_outcome<N, T>()
    ensures { (L : Lookahead N T) (e : Expression N) → NextDecidesIn L e
        → (text : List T) → HasOneOutcome (IsSentence L.grammar e) text }
{}

/// Where the next token decides, reading gives the tree, the first fault and the end that comes too soon, each exactly where it is so.
pub fn reading_is_exact<N, T>()
    ensures whole { (L : Lookahead N T) (e : Expression N) → NextDecidesIn L e
        → (text : List T) (tree : Tree T) → (reading L e text ≡ Got tree []) ↔ Derives L.grammar e tree text }
    ensures fault { (L : Lookahead N T) (e : Expression N) → NextDecidesIn L e
        → (text : List T) (bad : T) (rest : List T)
        → (unread (reading L e text) ≡ bad ∷ rest) ↔ IsFirstFault (IsSentence L.grammar e) text bad rest }
    ensures cut_off { (L : Lookahead N T) (e : Expression N) → NextDecidesIn L e
        → (text : List T) → (reading L e text ≡ Stuck []) ↔ IsCutOff (IsSentence L.grammar e) text }
    ensures answers { (L : Lookahead N T) (e : Expression N) → NextDecidesIn L e
        → (text : List T) → reading L e text ≡ OutOfTurns → ⊥ }
{}

/// Where the next token decides, exactly the whole texts are read as a value, the meaning of the tree that reading gives.
/// In any grammar a text is read as one value at most.
pub fn reading_means<N, T, V>()
    ensures read { (L : Lookahead N T) (e : Expression N) → NextDecidesIn L e
        → (meaning : Tree T → V) (text : List T) (tree : Tree T)
        → reading L e text ≡ Got tree [] → IsReadAs L.grammar e meaning text (meaning tree) }
    ensures whole { (L : Lookahead N T) (e : Expression N) → NextDecidesIn L e
        → (meaning : Tree T → V) (text : List T)
        → IsSentence L.grammar e text ↔ ((value : V) × IsReadAs L.grammar e meaning text value) }
    ensures one_value { (G : Grammar N T) (e : Expression N) (meaning : Tree T → V) (text : List T) (value other : V)
        → IsReadAs G e meaning text value → IsReadAs G e meaning text other → value ≡ other }
{}

/// Where the next token decides, reading follows the grammar: one function for each rule, which looks at the next token alone, reads as `reading` does.
pub fn reading_follows<N, T>()
    ensures rule { (L : Lookahead N T) → NextDecides L → (n : N) (text : List T)
        → reading L (Rule n) text ≡ map_got Node (reading L (L.grammar.rule n) text) }
    ensures turn { (L : Lookahead N T) (e : Expression N) → NextDecidesIn L e
        → (text : List T) → reading L e text ≡ turn L.grammar.class L.firsts (reading L) e text }
    ensures takes { (L : Lookahead N T) (n : N) → NextDecidesIn L (Rule n)
        → (text : List T) (tree : Tree T) (rest : List T) → reading L (Rule n) text ≡ Got tree rest → length rest < length text }
{}

/// Where the next token decides, a loop that reads an item as long as the next token begins one reads many of them:
/// what it has read so far holds at its start, lasts over each item, and is all where no item begins.
pub fn loops<N, T, V>()
    ensures begins { (L : Lookahead N T) (e : Expression N) (add : V → Tree T → V) (empty : V) (start : List T)
        → IsReadSoFar L e add empty start empty start }
    ensures goes_on { (L : Lookahead N T) (e : Expression N) → NextDecidesIn L (Many e)
        → (add : V → Tree T → V) (empty : V) (start : List T) (value : V) (text : List T) → IsReadSoFar L e add empty start value text
        → begins L.grammar.class (first L.firsts e) text ≡ true → (item : Tree T) (rest : List T) → reading L e text ≡ Got item rest
        → IsReadSoFar L e add empty start (add value item) rest }
    ensures breaks { (L : Lookahead N T) (e : Expression N) → NextDecidesIn L (Many e)
        → (add : V → Tree T → V) (empty : V) (start : List T) (value : V) (text : List T) → IsReadSoFar L e add empty start value text
        → begins L.grammar.class (first L.firsts e) text ≡ true → (rest : List T) → reading L e text ≡ Stuck rest
        → reading L (Many e) start ≡ Stuck rest }
    ensures done { (L : Lookahead N T) (e : Expression N) → NextDecidesIn L (Many e)
        → (add : V → Tree T → V) (empty : V) (start : List T) (value : V) (text : List T) → IsReadSoFar L e add empty start value text
        → begins L.grammar.class (first L.firsts e) text ≡ false
        → IsReadMany L e add empty start value text }
{}
