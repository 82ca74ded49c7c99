// The program that is built runs as the one-stack machine does.
ghost use Rattle.std.specs.Prelude.{◌≡◌, ℕ, ◌≤◌, true, List};
ghost use Rattle.application.specs.declared.app.App.{App};
ghost use Rattle.application.specs.InOrder.{IsInOrder};
ghost use Rattle.guard_prog.specs.declared.draft.Draft.{Draft};
ghost use Rattle.guard_prog.specs.Drafts.{program_of};
ghost use Rattle.guard_prog.specs.WellShaped.{IsWellShaped};
ghost use Rattle.one_stack.specs.BuildExact.{IsExact, NamesActors};
ghost use Rattle.one_stack.specs.Built.{IsBuiltOf, built, go_alone};
ghost use Rattle.one_stack.specs.declared.label.Label.{Label};
ghost use Rattle.one_stack.specs.Labelled.{labels_of};
ghost use Rattle.one_stack.specs.PlainCode.{PlainCode, plain_code, steps_of};
ghost use Rattle.one_stack.specs.TaskForm.{IsNumbered, IsTaskForm, is_task_form, resource_count};
ghost use Rattle.step_ir.specs.declared.code.Code.{Code as Lowered};
ghost use Rattle.step_ir.specs.Fits.{Fits};
ghost use Rattle.step_ir.specs.Points.{start_bits};
ghost use Rattle.step_ir.specs.PointStep.{behaviour_of};
ghost use Rattle.step_ir.specs.Setting.{IsSound, Setting, setting_of};

/// In the task form the runs of the built program are exactly the choice lists of the one-stack machine, and a draft that is this
/// program is well shaped and has the same runs; whoever acts in a turn of a run is the entity of the turn's label.
pub fn built_is_exact()
    ensures exact { (app : Setting) → IsSound app → (code : PlainCode) (resources : ℕ)
        → IsTaskForm app resources code → IsNumbered app → resources ≤ 17 → (arrivals : ℕ)
        → IsExact app (steps_of code) code.start arrivals (built app code resources) go_alone }
    ensures form { (app : App) (code : Lowered) → IsInOrder app → Fits app code → is_task_form app code ≡ true
        → IsTaskForm (setting_of app) (resource_count app) (plain_code code) × IsNumbered (setting_of app) }
    ensures drafts { (app : App) (code : Lowered) → IsInOrder app → Fits app code → is_task_form app code ≡ true
        → (draft : Draft) → IsBuiltOf app code draft → (arrivals : ℕ)
        → IsExact (setting_of app) (behaviour_of code) (start_bits code) arrivals (program_of draft) go_alone }
    ensures shaped { (app : App) (code : Lowered) → IsInOrder app → Fits app code → is_task_form app code ≡ true
        → (draft : Draft) → IsBuiltOf app code draft → IsWellShaped draft }
    ensures actors { (app : App) (code : Lowered) → IsInOrder app → Fits app code → is_task_form app code ≡ true
        → (draft : Draft) → IsBuiltOf app code draft → (labels : List Label) → labels ≡ labels_of draft.depth draft.points
        → NamesActors (setting_of app) (behaviour_of code) (start_bits code) (program_of draft) labels }
{}
