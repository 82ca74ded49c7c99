// Laws of codes, levels, lists and stacks, which both schedulers keep.
ghost use Rattle.std.specs.Prelude.{◌≡◌, ◌<◌, ◌≤◌, ◌*◌, ℕ, true, List, [], ◌∷◌, length, Option, Some, None};
ghost use Rattle.application.specs.declared.app.App.{App};
ghost use Rattle.application.specs.declared.app.Entity.{Entity};
ghost use Rattle.application.specs.InOrder.{IsInOrder};
ghost use Rattle.chk_base.specs.Term.{Term};
ghost use Rattle.chk_base.specs.WordValue.{IsWithin};
ghost use Rattle.step_ir.specs.declared.code.Code.{Code as Lowered};
ghost use Rattle.step_ir.specs.declared.event.Failure.{Failure as Failed};
ghost use Rattle.step_ir.specs.declared.event.Service.TheVariants.{Activate, Chain};
ghost use Rattle.step_ir.specs.Agreement.{AllBelow, IsForemost, Rises};
ghost use Rattle.step_ir.specs.EntityStep.{TellsNoFailures};
ghost use Rattle.step_ir.specs.Fits.{AreSetsFit, ReadsBetween, bit_count};
ghost use Rattle.step_ir.specs.Numbers.{AreUnder, times};
ghost use Rattle.step_ir.specs.OneStackMachine;
ghost use Rattle.step_ir.specs.Points.{cells_of, first_cell};
ghost use Rattle.step_ir.specs.PointStep.{behaviour_of};
ghost use Rattle.step_ir.specs.Reschedule.{highest};
ghost use Rattle.step_ir.specs.SchedulerState.{Entry};
ghost use Rattle.step_ir.specs.Services.{Scene, fault_of, leaving};
ghost use Rattle.step_ir.specs.Setting.{IsSound, Setting, current, foremost, setting_of};

/// The entities of a code tell no failure of their own.
pub fn codes_tell_no_failures()
    ensures { (code : Lowered) → TellsNoFailures (behaviour_of code) }
{}

/// An application in order is sound, and a current level is at least the run level and at most the top.
pub fn sound_levels()
    ensures sound { (app : App) → IsInOrder app → IsSound (setting_of app) }
    ensures above { (app : Setting) (e : ℕ) (held : List ℕ) → app.run_level e ≤ current app e held }
    ensures below { (app : Setting) → IsSound app → (e : ℕ) (held : List ℕ)
        → current app e held ≤ app.top }
{}

/// Which list is the highest that isn't empty, and which request the first of greatest level.
pub fn first_entries()
    ensures highest { (ready : ℕ → List Entry) (n l : ℕ) (e : Entry) (es : List Entry)
        → l ≤ n → ready l ≡ e ∷ es → ((k : ℕ) → l < k → ready k ≡ []) → highest ready n ≡ Some l }
    ensures all_empty { (ready : ℕ → List Entry) (n : ℕ)
        → ((k : ℕ) → ready k ≡ []) → highest ready n ≡ None }
    ensures foremost { (app : Setting) (ts : List ℕ) (t : ℕ)
        → foremost app ts ≡ Some t → IsForemost app ts t }
    ensures no_request { (app : Setting) (ts : List ℕ) → foremost app ts ≡ None → ts ≡ [] }
{}

/// What a service without an error has found: a task to activate, or a caller that is a task and holds nothing.
pub fn served_services()
    ensures activated { (app : Setting) → IsSound app → (c : Scene) (t : Entity)
        → fault_of app c (Activate t) ≡ None → app.is_task t.0 ≡ true }
    ensures chained { (app : Setting) → IsSound app → (c : Scene) (t : Entity)
        → fault_of app c (Chain t) ≡ None → app.is_task t.0 ≡ true }
    ensures left { (app : Setting) (c : Scene) (rest : Option Failed)
        → leaving app c rest ≡ None → (app.is_task c.caller ≡ true) × (c.held ≡ []) × (rest ≡ None) }
{}

/// On a stack that rises and whose top stands below a level, every entity's own level is below it, and an entity of that level is absent.
pub fn rising_stacks<S>()
    ensures below { (app : Setting) → IsSound app → (l : ℕ) (fs : List (OneStackMachine.Frame S))
        → OneStackMachine.standing_of_top app fs < l → Rises app fs → AllBelow app l fs }
    ensures absent { (app : Setting) (e : ℕ) (fs : List (OneStackMachine.Frame S))
        → AllBelow app (app.level e) fs → times e (OneStackMachine.whos fs) ≡ 0 }
{}

/// Of numbers below n, each at most k times, there are at most n * k.
pub fn few_numbers()
    ensures { (n k : ℕ) (xs : List ℕ)
        → AreUnder n xs → ((q : ℕ) → times q xs ≤ k) → length xs ≤ n * k }
{}

/// What a point names is within the cells of its code: an expression over an entity's own cells, a target among the globals, and the sets
/// of a call, of which there are no more than cells. A code has no more cells than bits.
pub fn cells_within()
    ensures reads { (low high n : ℕ) (t : Term)
        → ReadsBetween low high t → high ≤ n → IsWithin n t }
    ensures own { (code : Lowered) (e : ℕ) → first_cell code e ≤ length (cells_of code) }
    ensures globals { (code : Lowered) → length code.globals ≤ length (cells_of code) }
    ensures few_cells { (code : Lowered) → length (cells_of code) ≤ bit_count (cells_of code) }
    ensures few_sets { (code : Lowered) (e : ℕ) (sets : List (ℕ × Term))
        → AreSetsFit code e sets → length sets ≤ length (cells_of code) }
{}
