// From the tree of an OIL text to the application.
ghost use Rattle.std.specs.Prelude.{◌≡◌, IfOk, IfErr, OnOk, []};
ghost use Rattle.std.specs.Option.{option_copied};
ghost use Rattle.oil_rules.specs.Known.{known_of};
ghost use Rattle.oil_rules.specs.Rules.{faults};
ghost use Rattle.app_model.specs.Application.{application};
ghost use Rattle.application.specs.InOrder.{IsInOrder};
ghost use Rattle.app_model.specs.Answers.{IsRefusal};

use crate::declared::chosen_mode;
use crate::notes::notes_of;
use crate::objects::{resources_of, routines_of, set_run_levels, tasks_of};
use application::app::App;
use application::levels::class_of;
use chk_base::place::Place;
use chk_base::text::Text;
use oil_rules::first::Fault;
use oil_rules::known::{Known, known_of};
use oil_rules::rules::first_fault;
use oil_tree::tree::OilTree;
use std::alloc::{AllocError, Global};

/// Why there is no application: `Rule` has the number, 1 to 24, and the place of the first rule that is broken, which is that at the least
/// place, and there that with the least number; `Memory` is want of memory.
#[derive(Clone, Copy, PartialEq, Eq, Debug)]
pub enum AppFault {
    Rule(u8, Place),
    Memory,
}

// The application of a tree that breaks no rule.
#[tactic(auto, unfolding(crate::specs::Application::application))]
fn build(
    alloc: Global,
    tree: &OilTree,
    mode: Option<&Text>,
    known: &Known<'_>,
) -> Result<App, AllocError>
    requires known { known.now ≡ known_of tree.now.items }
    requires accepted { faults tree.now (option_copied mode) ≡ [] }
    ensures { IfOk result (λ app. app ≡ application tree.now (option_copied mode.entry)) }
{
    let items = tree.items.items();
    let mode = chosen_mode(alloc, known, mode)?;
    let mut tasks = tasks_of(alloc, known, mode.as_bytes(), items)?;
    set_run_levels(alloc, &mut tasks)?;
    let routines = routines_of(alloc, known, items)?;
    let resources = resources_of(alloc, tasks.items(), routines.items(), items)?;
    let notes = notes_of(alloc, tree)?;
    let class = class_of(tasks.items());
    Ok(App {
        tasks,
        routines,
        resources,
        res_scheduler: !known.no_scheduler,
        class,
        mode,
        notes,
    })
}

/// The application that a tree describes, in the mode that is asked for, and else in the first one.
///
/// # Errors
///
/// `Rule` exactly where a rule is broken, with the first one; `Memory` is want of memory alone.
pub fn app_of(alloc: Global, tree: &OilTree, mode: Option<&Text>) -> Result<App, AppFault>
    ensures application { IfOk result (λ app. app ≡ application tree.now (option_copied mode.entry)) }
    ensures order { IfOk result IsInOrder }
    ensures accepted { OnOk result (faults tree.now (option_copied mode.entry) ≡ []) }
    ensures refused { IfErr result (IsRefusal tree.now (option_copied mode.entry)) }
{
    let known = match known_of(alloc, tree.items.items()) {
        Ok(known) => known,
        Err(_) => return Err(AppFault::Memory),
    };
    match first_fault(alloc, tree, mode, &known) {
        Ok(None) => match build(alloc, tree, mode, &known) {
            Ok(app) => Ok(app),
            Err(_) => Err(AppFault::Memory),
        },
        Ok(Some(Fault { rule, place })) => Err(AppFault::Rule(rule, place)),
        Err(_) => Err(AppFault::Memory),
    }
}
