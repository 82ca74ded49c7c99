// Tasks, routines and resources, one by one and in order.
ghost use Rattle.std.specs.Prelude.{◌≡◌, ◌≤◌, IfOk, OnOk, None, Some, All, [], ◌∷◌, length, map, codes, true, ◌++◌};
ghost use Rattle.std.specs.List.{flat_map};
ghost use Rattle.oil_tree.specs.Listed.{listed};
ghost use Rattle.oil_tree.specs.declared.tree.Item.TheVariants.{Object};
ghost use Rattle.oil_rules.specs.Kinds.{kind_of, is_task, is_routine};
ghost use Rattle.oil_rules.specs.Objects.{is_resource};
ghost use Rattle.application.specs.Levels.{run_level_among};
ghost use Rattle.app_model.specs.Application.{task_of, routine_of, resource_of, task_in, routine_in, resource_in, leveled, ceiled};
ghost use Rattle.app_model.specs.Bounds.{HasTaskBounds, HasRoutineBounds, IsBoundedTask, IsBoundedRoutine};

use crate::declared::{declares, internal, is_started, number_set};
use application::app::{Numbers, Resource, Resources, Routine, Routines, Task, Tasks};
use application::levels::{ceiling_among, run_level_among};
use chk_base::text::Text;
use oil_rules::group::{has_set, is_resource};
use oil_rules::kind::{Kind, kind_of};
use oil_rules::known::Known;
use oil_rules::role::Role;
use oil_tree::tree::{Attribute, Item};
use std::alloc::{AllocError, Global};

#[tactic(auto, unfolding(crate::specs::Application::task_of))]
fn task_of(
    alloc: Global,
    known: &Known<'_>,
    mode: &[u8],
    name: &Text,
    attributes: &[Attribute],
) -> Result<Task, AllocError>
    requires few { length known.now.resources ≤ 16 }
    requires bounds { HasTaskBounds attributes.now }
    ensures { IfOk result (λ task. task ≡ task_of known.now mode.now name.now attributes.now) }
{
    let priority = number_set(Kind::Task, Role::Priority, attributes) as u8;
    let requests = number_set(Kind::Task, Role::Activation, attributes) as u8;
    let name = name.copy(alloc)?;
    let declares = declares(alloc, known, Kind::Task, attributes)?;
    Ok(Task {
        name,
        priority,
        level: priority + 1,
        run_level: priority + 1,
        non_preemptive: has_set(Kind::Task, Role::Schedule, b"NON", attributes),
        requests,
        autostart: is_started(Kind::Task, mode, attributes),
        declares,
        internal: internal(known, Kind::Task, attributes),
    })
}

#[tactic(auto, unfolding(crate::specs::Application::routine_of))]
fn routine_of(
    alloc: Global,
    known: &Known<'_>,
    name: &Text,
    attributes: &[Attribute],
) -> Result<Routine, AllocError>
    requires few { length known.now.resources ≤ 16 }
    requires bounds { HasRoutineBounds attributes.now }
    ensures { IfOk result (λ routine. routine ≡ routine_of known.now name.now attributes.now) }
{
    let priority = number_set(Kind::Isr, Role::Priority, attributes) as u8;
    let name = name.copy(alloc)?;
    let declares = declares(alloc, known, Kind::Isr, attributes)?;
    Ok(Routine {
        name,
        priority,
        level: 64 + priority,
        declares,
    })
}

// The resource with this number, with its ceiling.
#[tactic(auto, unfolding(crate::specs::Application::resource_of))]
fn resource_of(
    alloc: Global,
    tasks: &[Task],
    routines: &[Routine],
    number: u8,
    name: &Text,
    attributes: &[Attribute],
) -> Result<Resource, AllocError>
    ensures { IfOk result (λ r. r ∷ [] ≡ ceiled tasks.now routines.now number (resource_of name.now attributes.now ∷ [])) }
{
    let name = name.copy(alloc)?;
    Ok(Resource {
        name,
        internal: has_set(
            Kind::Resource,
            Role::ResourceProperty,
            b"INTERNAL",
            attributes,
        ),
        ceiling: ceiling_among(tasks, routines, number),
    })
}

// Puts the task that the item is at the end.
fn push_task(
    alloc: Global,
    tasks: &mut Tasks,
    known: &Known<'_>,
    mode: &[u8],
    item: &Item,
) -> Result<(), AllocError>
    requires few { length known.now.resources ≤ 16 }
    requires bounds { IsBoundedTask item.now }
    ensures { OnOk result (tasks.new ≡ tasks.old ++ task_in known.now mode.now item.now) }
{
    if let Item::Object {
        kind,
        name,
        attributes,
    } = item
    {
        if kind_of(kind.text.as_bytes()).is_task() {
            let task = task_of(alloc, known, mode, &name.text, attributes.items())?;
            return tasks.push(task);
        }
    }
    Ok(())
}

// The tasks, whose run levels aren't known yet.
pub(crate) fn tasks_of(
    alloc: Global,
    known: &Known<'_>,
    mode: &[u8],
    items: &[Item],
) -> Result<Tasks, AllocError>
    requires few { length known.now.resources ≤ 16 }
    requires bounds { All IsBoundedTask items.now }
    ensures { IfOk result (λ tasks. tasks ≡ flat_map (task_in known.now mode.now) items.now) }
{
    let mut tasks = Tasks::new(alloc);
    for item in items {
        push_task(alloc, &mut tasks, known, mode, item)?;
    }
    Ok(tasks)
}

fn push_routine(
    alloc: Global,
    routines: &mut Routines,
    known: &Known<'_>,
    item: &Item,
) -> Result<(), AllocError>
    requires few { length known.now.resources ≤ 16 }
    requires bounds { IsBoundedRoutine item.now }
    ensures { OnOk result (routines.new ≡ routines.old ++ routine_in known.now item.now) }
{
    if let Item::Object {
        kind,
        name,
        attributes,
    } = item
    {
        if kind_of(kind.text.as_bytes()).is_routine() {
            let routine = routine_of(alloc, known, &name.text, attributes.items())?;
            return routines.push(routine);
        }
    }
    Ok(())
}

// The routines.
pub(crate) fn routines_of(
    alloc: Global,
    known: &Known<'_>,
    items: &[Item],
) -> Result<Routines, AllocError>
    requires few { length known.now.resources ≤ 16 }
    requires bounds { All IsBoundedRoutine items.now }
    ensures { IfOk result (λ routines. routines ≡ flat_map (routine_in known.now) items.now) }
{
    let mut routines = Routines::new(alloc);
    for item in items {
        push_routine(alloc, &mut routines, known, item)?;
    }
    Ok(routines)
}

fn push_resource(
    alloc: Global,
    resources: &mut Resources,
    tasks: &[Task],
    routines: &[Routine],
    item: &Item,
) -> Result<(), AllocError>
    requires { length resources.old ≤ 16 }
    ensures { OnOk result (resources.new ≡ resources.old ++ ceiled tasks.now routines.now (length resources.old) (resource_in item.now)) }
{
    if let Item::Object {
        kind,
        name,
        attributes,
    } = item
    {
        if is_resource(kind_of(kind.text.as_bytes()), name.text.as_bytes()) {
            let number = resources.len() as u8;
            let resource = resource_of(
                alloc,
                tasks,
                routines,
                number,
                &name.text,
                attributes.items(),
            )?;
            return resources.push(resource);
        }
    }
    Ok(())
}

// The resources, with their ceilings.
pub(crate) fn resources_of(
    alloc: Global,
    tasks: &[Task],
    routines: &[Routine],
    items: &[Item],
) -> Result<Resources, AllocError>
    requires { length (flat_map resource_in items.now) ≤ 16 }
    ensures { IfOk result (λ resources. resources ≡ ceiled tasks.now routines.now 0 (flat_map resource_in items.now)) }
{
    let mut resources = Resources::new(alloc);
    for item in items {
        push_resource(alloc, &mut resources, tasks, routines, item)?;
    }
    Ok(resources)
}

fn run_levels(alloc: Global, tasks: &[Task]) -> Result<Numbers, AllocError>
    ensures { IfOk result (λ levels. levels ≡ map (run_level_among tasks.now) tasks.now) }
{
    let mut levels = Numbers::new(alloc);
    for task in tasks {
        levels.push(run_level_among(tasks, task))?;
    }
    Ok(levels)
}

// Gives the tasks their run levels.
pub(crate) fn set_run_levels(alloc: Global, tasks: &mut Tasks) -> Result<(), AllocError>
    ensures { OnOk result (tasks.new ≡ leveled tasks.old) }
{
    let levels = run_levels(alloc, tasks.items())?;
    tasks.set_run_levels(levels.items());
    Ok(())
}
