// Codes of typed units fit.
ghost use Rattle.std.specs.Prelude.{◌≡◌, ℕ, ◌+◌, ◌<◌, ◌≤◌, length};
ghost use Rattle.application.specs.declared.app.App.{App};
ghost use Rattle.step_ir.specs.declared.code.Code.{Code};
ghost use Rattle.step_ir.specs.Fits.{Fits};
ghost use Rattle.typed_unit.specs.Plain.{PlainUnit};
ghost use Rattle.lower_law.specs.Counts.{bit_total, point_total};
ghost use Rattle.scope_law.specs.Right.{HasBody};
ghost use Rattle.scope_law.specs.Serving.{AreServing};
ghost use Rattle.scope_law.specs.Variables.{AreVariablesFit};
ghost use Rattle.fit_law.specs.Codes.{IsCodeOf};

/// Where each task and routine has a body whose names are right, the code of a unit within the limits fits the application.
pub fn codes_fit()
    ensures { (app : App) (u : PlainUnit) (code : Code)
        → IsCodeOf u (length app.tasks + length app.routines) code
        → AreServing app u
        → AreVariablesFit u.globals
        → ((e : ℕ) → e < length app.tasks + length app.routines → HasBody u e)
        → point_total u (length app.tasks + length app.routines) ≤ 2048
        → bit_total u (length app.tasks + length app.routines) ≤ 8192
        → Fits app code }
{}
