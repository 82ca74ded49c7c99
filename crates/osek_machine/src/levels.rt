// The entities of an application, by their numbers.
ghost use Rattle.std.specs.Option.{option_copied};
ghost use Rattle.std.specs.Prelude.{◌≡◌, length, slice_get, ◌-◌};
ghost use Rattle.step_ir.specs.Setting.{setting_of, gives_way};

use application::app::{App, Routine, Task};
use application::levels::scheduler_ceiling;

fn task_at(app: &App, e: u8) -> Option<&Task>
    ensures { option_copied result ≡ slice_get app.now.tasks e }
{
    app.tasks.get(e as usize)
}

fn routine_at(app: &App, e: u8) -> Option<&Routine>
    ensures { option_copied result ≡ slice_get app.now.routines (e - length app.now.tasks) }
{
    app.routines
        .get((e as usize).saturating_sub(app.tasks.len()))
}

pub fn is_task(app: &App, e: u8) -> bool
    ensures { result ≡ (setting_of app.now).is_task e }
{
    match task_at(app, e) {
        Some(_) => true,
        None => match routine_at(app, e) {
            Some(_) => false,
            None => false,
        },
    }
}

pub fn is_routine(app: &App, e: u8) -> bool
    ensures { result ≡ (setting_of app.now).is_routine e }
{
    match task_at(app, e) {
        Some(_) => false,
        None => match routine_at(app, e) {
            Some(_) => true,
            None => false,
        },
    }
}

pub fn level_at(app: &App, e: u8) -> u8
    ensures { result ≡ (setting_of app.now).level e }
{
    match task_at(app, e) {
        Some(task) => task.level,
        None => match routine_at(app, e) {
            Some(routine) => routine.level,
            None => 0,
        },
    }
}

pub fn run_level_at(app: &App, e: u8) -> u8
    ensures { result ≡ (setting_of app.now).run_level e }
{
    match task_at(app, e) {
        Some(task) => task.run_level,
        None => match routine_at(app, e) {
            Some(routine) => routine.level,
            None => 0,
        },
    }
}

pub fn is_preemptive(app: &App, e: u8) -> bool
    ensures { result ≡ (setting_of app.now).is_preemptive e }
{
    match task_at(app, e) {
        Some(task) => !task.non_preemptive,
        None => match routine_at(app, e) {
            Some(_) => false,
            None => false,
        },
    }
}

pub fn gives_way(app: &App, e: u8) -> bool
    ensures { result ≡ gives_way (setting_of app.now) e }
{
    is_task(app, e) && is_preemptive(app, e)
}

pub fn limit_at(app: &App, e: u8) -> u8
    ensures { result ≡ (setting_of app.now).limit e }
{
    match task_at(app, e) {
        Some(task) => task.requests,
        None => match routine_at(app, e) {
            Some(_) => 0,
            None => 0,
        },
    }
}

pub fn ceiling_at(app: &App, r: u8) -> u8
    ensures { result ≡ (setting_of app.now).ceiling r }
{
    if r as usize == app.resources.len() {
        return scheduler_ceiling(app);
    }
    match app.resources.get(r as usize) {
        None => 0,
        Some(resource) => resource.ceiling,
    }
}
