// Levels that are no field of the application, and how those that are fields are found.
ghost use Rattle.std.specs.Prelude.{◌≡◌, ◌==◌, filter, if◌then◌else◌};
ghost use Rattle.std.specs.List.{list_any};
ghost use Rattle.application.specs.Levels.{highest_task_level, greatest, levels_of, routine_levels_of, has_number, is_number, task_declares, routine_declares, ceiling_among, internal_among, run_level_among, has_many_requests, shares_priority, class_of};

use crate::app::{App, Class, Routine, Task};

/// The ceiling of the scheduler as a resource: the highest level of a task, and 0 without a task. It takes no memory.
pub fn scheduler_ceiling(app: &App) -> u8
    ensures { result ≡ highest_task_level app.now }
{
    highest_level(app.tasks.items())
}

fn highest_level(tasks: &[Task]) -> u8
    ensures { result ≡ greatest (levels_of tasks.now) }
{
    let mut highest = 0;
    for task in tasks {
        highest = task.level.max(highest);
    }
    highest
}

/// Whether the number is in the list.
pub fn has_number(numbers: &[u8], number: u8) -> bool
    ensures { result ≡ has_number numbers.now number }
{
    numbers.iter().any(|m| *m == number)
}

fn is_number(found: Option<u8>, number: u8) -> bool
    ensures { result ≡ is_number found number }
{
    match found {
        None => false,
        Some(m) => m == number,
    }
}

fn task_declares(resource: u8, task: &Task) -> bool
    ensures { result ≡ task_declares resource task.now }
{
    has_number(task.declares.items(), resource) || is_number(task.internal, resource)
}

fn routine_declares(resource: u8, routine: &Routine) -> bool
    ensures { result ≡ routine_declares resource routine.now }
{
    has_number(routine.declares.items(), resource)
}

// The level, where it counts, and else 0.
fn level_where(counts: bool, level: u8) -> u8
    ensures { result ≡ (if counts then level else 0) }
{
    if counts { level } else { 0 }
}

fn task_ceiling(tasks: &[Task], resource: u8) -> u8
    ensures { result ≡ greatest (levels_of (filter (task_declares resource) tasks.now)) }
{
    let mut highest = 0;
    for task in tasks {
        highest = level_where(task_declares(resource, task), task.level).max(highest);
    }
    highest
}

fn routine_ceiling(routines: &[Routine], resource: u8) -> u8
    ensures { result ≡ greatest (routine_levels_of (filter (routine_declares resource) routines.now)) }
{
    let mut highest = 0;
    for routine in routines {
        highest = level_where(routine_declares(resource, routine), routine.level).max(highest);
    }
    highest
}

/// The greatest level of the tasks and routines that declare the resource.
#[tactic(auto, using(crate::proofs::Greatest::greatest_of_both))]
pub fn ceiling_among(tasks: &[Task], routines: &[Routine], resource: u8) -> u8
    ensures { result ≡ ceiling_among tasks.now routines.now resource }
{
    task_ceiling(tasks, resource).max(routine_ceiling(routines, resource))
}

fn internal_ceiling(tasks: &[Task], resource: u8) -> u8
    ensures { result ≡ greatest (levels_of (filter (λ t. is_number t.internal resource) tasks.now)) }
{
    let mut highest = 0;
    for task in tasks {
        highest = level_where(is_number(task.internal, resource), task.level).max(highest);
    }
    highest
}

/// The run level of a task among these.
pub fn run_level_among(tasks: &[Task], task: &Task) -> u8
    ensures { result ≡ run_level_among tasks.now task.now }
{
    if task.non_preemptive {
        highest_level(tasks)
    } else {
        match task.internal {
            None => task.level,
            Some(resource) => internal_ceiling(tasks, resource),
        }
    }
}

fn has_many_requests(tasks: &[Task]) -> bool
    ensures { result ≡ has_many_requests tasks.now }
{
    tasks.iter().any(|t| 1 < t.requests)
}

fn has_priority(tasks: &[Task], priority: u8) -> bool
    ensures { result ≡ list_any (λ u. u.priority == priority) tasks.now }
{
    tasks.iter().any(|u| u.priority == priority)
}

fn shares_priority(tasks: &[Task]) -> bool
    ensures { result ≡ shares_priority tasks.now }
{
    let mut rest = tasks;
    while let Some((task, others)) = rest.split_first() {
        if has_priority(others, task.priority) {
            return true;
        }
        rest = others;
    }
    false
}

/// The conformance class of an application with these tasks.
pub fn class_of(tasks: &[Task]) -> Class
    ensures { result ≡ class_of tasks.now }
{
    if has_many_requests(tasks) || shares_priority(tasks) {
        Class::Bcc2
    } else {
        Class::Bcc1
    }
}
