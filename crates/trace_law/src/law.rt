// The law that both schedulers have the same traces.
ghost use Rattle.std.specs.Prelude.{◌≡◌, ◌<◌, ◌≤◌, ℕ, List, [], length, Some};
ghost use Rattle.application.specs.declared.app.App.{App};
ghost use Rattle.application.specs.InOrder.{IsInOrder};
ghost use Rattle.step_ir.specs.declared.code.Code.{Code as Lowered};
ghost use Rattle.step_ir.specs.declared.event.Choice.{Choice as Chosen};
ghost use Rattle.step_ir.specs.declared.event.Event.{Event as Happened};
ghost use Rattle.step_ir.specs.EntityStep.{Behaviour, TellsNoFailures};
ghost use Rattle.step_ir.specs.OneStackMachine;
ghost use Rattle.step_ir.specs.PointStep.{Bits, behaviour_of};
ghost use Rattle.step_ir.specs.Setting.{IsSound, Setting, setting_of};
ghost use Rattle.step_ir.specs.TraceEquality.{HaveSameTraces};

/// Whatever the entities do, both schedulers do the same, for every sound application and so for every one in order, on whose stack at most
/// 16 entities stand.
pub fn same_traces<S, G>()
    ensures sound { (app : Setting) → IsSound app → (beh : Behaviour S G) (globals : G)
        → HaveSameTraces app beh globals }
    ensures in_order { (app : App) → IsInOrder app → (beh : Behaviour S G) (globals : G)
        → HaveSameTraces (setting_of app) beh globals }
    ensures depth { (app : App) → IsInOrder app → (beh : Behaviour S G) (globals : G)
        (choices : List Chosen) (events : List Happened) (m : OneStackMachine.Stacked S G)
        → OneStackMachine.run (setting_of app) beh choices
        (OneStackMachine.start (setting_of app) beh globals) ≡ Some (events, m)
        → length m.stack ≤ 16 }
{}

/// The same where the globals are cells and the entities have any state of their own.
pub fn same_traces_over_cells<S>()
    ensures in_order { (app : App) → IsInOrder app → (beh : Behaviour S Bits) (cells : Bits)
        → HaveSameTraces (setting_of app) beh cells }
    ensures depth { (app : App) → IsInOrder app → (beh : Behaviour S Bits) (cells : Bits)
        (choices : List Chosen) (events : List Happened) (m : OneStackMachine.Stacked S Bits)
        → OneStackMachine.run (setting_of app) beh choices
        (OneStackMachine.start (setting_of app) beh cells) ≡ Some (events, m)
        → length m.stack ≤ 16 }
{}

/// The same over every code, from any contents of its cells.
pub fn same_traces_of_codes()
    ensures in_order { (app : App) → IsInOrder app → (code : Lowered) (cells : Bits)
        → HaveSameTraces (setting_of app) (behaviour_of code) cells }
    ensures no_failures { (code : Lowered) → TellsNoFailures (behaviour_of code) }
    ensures depth { (app : App) → IsInOrder app → (code : Lowered) (cells : Bits)
        (choices : List Chosen) (events : List Happened) (m : OneStackMachine.Stacked ℕ Bits)
        → OneStackMachine.run (setting_of app) (behaviour_of code) choices
        (OneStackMachine.start (setting_of app) (behaviour_of code) cells) ≡ Some (events, m)
        → length m.stack ≤ 16 }
{}
