// The law of names.
ghost use Rattle.std.specs.Prelude.{ℕ, List, Option};
ghost use Rattle.app_model.specs.Application.{application};
ghost use Rattle.name_law.specs.Names.{AreNames, entity_names};
ghost use Rattle.oil_text.specs.OilText.{IsOilText};
ghost use Rattle.oil_tree.specs.declared.tree.OilTree.{OilTree};

/// Whatever mode is asked for, the tasks and routines of the application that an OIL text describes are called as names are written there: a
/// letter or `_`, and then letters, digits and `_`.
pub fn entities_have_names()
    ensures { (oil : List ℕ) (mode : Option (List ℕ)) (tree : OilTree) → IsOilText oil tree → AreNames (entity_names (application tree mode)) }
{}
