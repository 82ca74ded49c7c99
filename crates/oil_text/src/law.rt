// What the definitions of OIL texts say together.
ghost use Rattle.std.specs.Prelude.{◌≡◌, ◌⊎◌, ℕ, List};
ghost use Rattle.oil_text.specs.OilText.{IsOilText, IsRefusedFor};
ghost use Rattle.oil_text.specs.declared.fault.OilFault.{OilFault};
ghost use Rattle.oil_text.specs.declared.fault.OilFault.TheVariants.{Memory};
ghost use Rattle.oil_tree.specs.declared.tree.OilTree.{OilTree};

/// Each text has exactly one outcome beside want of memory: one tree, or one fault with one place. So `read_oil` answers a tree exactly
/// where the text has one, and each fault exactly where it is the text's, unless memory runs out.
pub fn each_text_has_one_outcome()
    ensures one_tree { (text : List ℕ) (a b : OilTree) → IsOilText text a → IsOilText text b → a ≡ b }
    ensures one_fault { (text : List ℕ) (a b : OilFault) → (a ≡ Memory → ⊥) → (b ≡ Memory → ⊥) → IsRefusedFor text a → IsRefusedFor text b → a ≡ b }
    ensures tree_or_fault { (text : List ℕ) (tree : OilTree) (fault : OilFault) → IsOilText text tree → IsRefusedFor text fault → fault ≡ Memory }
    ensures some_outcome { (text : List ℕ) → ((tree : OilTree) × IsOilText text tree) ⊎ ((fault : OilFault) × (fault ≡ Memory → ⊥) × IsRefusedFor text fault) }
{}
