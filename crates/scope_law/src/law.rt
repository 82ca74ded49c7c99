// Typed units of texts that break no rule.
ghost use Rattle.std.specs.Prelude.{◌≡◌, ℕ, ◌+◌, ◌<◌, [], length};
ghost use Rattle.application.specs.declared.app.App.{App};
ghost use Rattle.typed_unit.specs.Plain.{PlainUnit};
ghost use Rattle.typed_unit.specs.Typed.{Fits};
ghost use Rattle.static_rules.specs.Rules.{faults};
ghost use Rattle.scope_law.specs.Right.{AreRight, HasBody};
ghost use Rattle.scope_law.specs.Serving.{AreServing};
ghost use Rattle.scope_law.specs.Sizes.{AreFew};
ghost use Rattle.scope_law.specs.Variables.{AreVariablesFit};

/// In the typed unit of a text that breaks no C rule each name means something that there is and that is of the right kind, and a local is
/// read only where it was set.
pub fn names_are_right()
    ensures { (app : App) (u : PlainUnit) → Fits app u → AreRight u }
{}

/// Each service names a task or resource that there is.
pub fn services_are_right()
    ensures { (app : App) (u : PlainUnit) → Fits app u → AreServing app u }
{}

/// Each array has 1 to 64 elements, and each variable begins with words of its width.
pub fn variables_are_right()
    ensures { (app : App) (u : PlainUnit) → Fits app u → AreVariablesFit u.globals }
{}

/// Where the rules on what bodies do are met as well, no chain of calls is too long, and each task and routine has a body.
pub fn bodies_are_right()
    ensures sizes { (app : App) (u : PlainUnit) → faults u app ≡ [] → AreFew u }
    ensures bodies { (app : App) (u : PlainUnit) → AreRight u → faults u app ≡ [] → (e : ℕ) → e < length app.tasks + length app.routines → HasBody u e }
{}
