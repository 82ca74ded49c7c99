// What is known of the definition of tokens.
ghost use Rattle.std.specs.Prelude.{◌≡◌, List, ℕ};
ghost use Rattle.c_lex.specs.CText.{Reading, IsReading};

/// Every text has a reading, its tokens or its first fault, and no other.
#[tactic(auto, using(crate::proofs::OneReading::some_reading, crate::proofs::OneReading::one_reading))]
pub fn one_reading()
    ensures some { (text : List ℕ) → (reading : Reading) × IsReading text reading }
    ensures one { (text : List ℕ) (reading other : Reading) → IsReading text reading → IsReading text other → reading ≡ other }
{}
