// That chains of calls may be taken to be short.
ghost use Rattle.std.specs.Prelude.{◌≡◌, ◌<◌, ℕ, true, List, length};
ghost use Rattle.static_rules.specs.declared.site.Site.{Site as Called};
ghost use Rattle.static_rules.specs.Chains.{called_after, reaches};

/// A function to which a chain of calls leads, of whatever length, is reached.
pub fn chains_may_be_short()
    ensures { (bodies : List (List Called)) (start : List Called) (n g : ℕ) → g < length bodies → called_after bodies start n g ≡ true → reaches bodies start g ≡ true }
{}
