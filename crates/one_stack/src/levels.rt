// The entities and resources of an application, by their numbers.
ghost use Rattle.std.specs.Prelude.{◌≡◌, ◌+◌, ◌-◌, ◌≤◌, length, slice_get};
ghost use Rattle.std.specs.Option.{option_copied};
ghost use Rattle.step_ir.specs.Setting.{highest_level, setting_of};

use application::app::{App, Routine, Task};
use application::levels::scheduler_ceiling;

fn task_at(app: &App, e: u8) -> Option<&Task>
    ensures { option_copied result ≡ slice_get app.now.tasks e }
{
    app.tasks.get(e as usize)
}

fn routine_at(app: &App, e: u8) -> Option<&Routine>
    ensures { option_copied result ≡ slice_get app.now.routines (e - length app.now.tasks) }
{
    app.routines
        .get((e as usize).saturating_sub(app.tasks.len()))
}

pub fn level_at(app: &App, e: u8) -> u8
    ensures { result ≡ (setting_of app.now).level e }
{
    match task_at(app, e) {
        Some(task) => task.level,
        None => match routine_at(app, e) {
            Some(routine) => routine.level,
            None => 0,
        },
    }
}

pub fn run_level_at(app: &App, e: u8) -> u8
    ensures { result ≡ (setting_of app.now).run_level e }
{
    match task_at(app, e) {
        Some(task) => task.run_level,
        None => match routine_at(app, e) {
            Some(routine) => routine.level,
            None => 0,
        },
    }
}

pub fn limit_at(app: &App, e: u8) -> u8
    ensures { result ≡ (setting_of app.now).limit e }
{
    match task_at(app, e) {
        Some(task) => task.requests,
        None => match routine_at(app, e) {
            Some(_) => 0,
            None => 0,
        },
    }
}

pub fn ceiling_at(app: &App, r: u8) -> u8
    ensures { result ≡ (setting_of app.now).ceiling r }
{
    if r as usize == app.resources.len() {
        return scheduler_ceiling(app);
    }
    match app.resources.get(r as usize) {
        None => 0,
        Some(resource) => resource.ceiling,
    }
}

// How many levels there are, with the idle one.
pub fn level_count() -> u8
    ensures count { result ≡ highest_level + 1 }
    ensures few { result ≤ 81 }
{
    81
}
