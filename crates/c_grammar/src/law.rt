// The laws that the written and the factored grammar are one, and that the next token decides in the factored one.
ghost use Rattle.std.specs.Prelude.{◌≡◌, ◌↔◌, ℕ, List};
ghost use Rattle.grammar.specs.FirstFault.{IsCutOff, IsFirstFault, IsReadAs};
ghost use Rattle.grammar.specs.Grammar.{Derives, Expression, IsSentence, IsUnambiguous, Tree};
ghost use Rattle.grammar.specs.Lookahead.{NextDecidesIn};
ghost use Rattle.c_lex.specs.declared.token.Token.{Token};
ghost use Rattle.c_grammar.specs.Factored.{Part, factored, factored_unit};
ghost use Rattle.c_grammar.specs.Next.{lookahead};
ghost use Rattle.c_grammar.specs.Regrouping.{renamed};
ghost use Rattle.c_grammar.specs.Symbols.{class_of};
ghost use Rattle.c_grammar.specs.Trees.{factored_image, factored_tree, written_image, written_tree};
ghost use Rattle.c_grammar.specs.Written.{Production, unit, written};

/// The trees of the two grammars go into each other and keep what they spell: each tree of the written grammar becomes one of the factored
/// grammar, from which it comes back, and each tree of the factored grammar becomes one of the written grammar.
pub fn trees_agree<T>()
    ensures factors { (class : T → ℕ) (e : Expression Production) (tree : Tree T) (text : List T)
        → Derives (written class) e tree text → Derives (factored class) (renamed factored_image e) (factored_tree e tree) text }
    ensures writes { (class : T → ℕ) (e : Expression Part) (tree : Tree T) (text : List T)
        → Derives (factored class) e tree text → Derives (written class) (renamed written_image e) (written_tree e tree) text }
    ensures returns { (class : T → ℕ) (e : Expression Production) (tree : Tree T) (text : List T)
        → Derives (written class) e tree text → written_tree (renamed factored_image e) (factored_tree e tree) ≡ tree }
{}

/// The two grammars have the same whole texts, so each text has the same outcome by both.
pub fn texts_agree<T>()
    ensures whole { (class : T → ℕ) (text : List T)
        → IsSentence (factored class) factored_unit text ↔ IsSentence (written class) unit text }
    ensures fault { (class : T → ℕ) (text : List T) (bad : T) (rest : List T)
        → IsFirstFault (IsSentence (factored class) factored_unit) text bad rest ↔ IsFirstFault (IsSentence (written class) unit) text bad rest }
    ensures cut_off { (class : T → ℕ) (text : List T)
        → IsCutOff (IsSentence (factored class) factored_unit) text ↔ IsCutOff (IsSentence (written class) unit) text }
{}

/// What a text of the factored grammar is read as, by the written form of its tree, it is read as by the written grammar.
pub fn meanings_agree<T, V>()
    ensures { (class : T → ℕ) (meaning : Tree T → V) (text : List T) (value : V)
        → IsReadAs (factored class) factored_unit (λ tree. meaning (written_tree factored_unit tree)) text value
        → IsReadAs (written class) unit meaning text value }
{}

/// The next token decides in the factored grammar, so that no text has two trees in either, and a tree of the factored grammar comes back
/// from the written one as it was.
pub fn next_token_decides()
    ensures decides { NextDecidesIn lookahead factored_unit }
    ensures one_tree { IsUnambiguous (written class_of) unit }
    ensures returns { (tree : Tree Token) (text : List Token)
        → Derives (factored class_of) factored_unit tree text → factored_tree unit (written_tree factored_unit tree) ≡ tree }
{}
