// Names that a C text doesn't declare: those of the application's objects, of the services, and of the input.
ghost use Rattle.std.specs.Prelude.{◌≡◌};
ghost use Rattle.std.specs.Str.{bytes_eq};
ghost use Rattle.c_rules.specs.Meanings.{service_named, is_left_out, is_input_name, is_scheduler_name, task_named, routine_named, resource_named, object_named, system_named, left_out_named};

use crate::meaning::{Meaning, ServiceName};
use application::app::App;

/// Whether two texts have the same bytes. It takes no memory.
pub fn same(a: &[u8], b: &[u8]) -> bool
    ensures { result ≡ bytes_eq a.now b.now }
{
    a == b
}

/// The service of this name. It takes no memory.
#[tactic(auto, unfolding(crate::specs::Meanings::service_named))]
pub fn service_named(name: &[u8]) -> Option<ServiceName>
    ensures { result ≡ service_named name.now }
{
    if same(name, b"ActivateTask") {
        Some(ServiceName::ActivateTask)
    } else if same(name, b"TerminateTask") {
        Some(ServiceName::TerminateTask)
    } else if same(name, b"ChainTask") {
        Some(ServiceName::ChainTask)
    } else if same(name, b"Schedule") {
        Some(ServiceName::Schedule)
    } else if same(name, b"GetResource") {
        Some(ServiceName::GetResource)
    } else if same(name, b"ReleaseResource") {
        Some(ServiceName::ReleaseResource)
    } else if same(name, b"DisableAllInterrupts") {
        Some(ServiceName::DisableAllInterrupts)
    } else if same(name, b"EnableAllInterrupts") {
        Some(ServiceName::EnableAllInterrupts)
    } else if same(name, b"SuspendAllInterrupts") {
        Some(ServiceName::SuspendAllInterrupts)
    } else if same(name, b"ResumeAllInterrupts") {
        Some(ServiceName::ResumeAllInterrupts)
    } else if same(name, b"SuspendOSInterrupts") {
        Some(ServiceName::SuspendOsInterrupts)
    } else if same(name, b"ResumeOSInterrupts") {
        Some(ServiceName::ResumeOsInterrupts)
    } else {
        None
    }
}

/// Whether a service of this name is left out. It takes no memory.
#[tactic(auto, unfolding(crate::specs::Meanings::is_left_out))]
pub fn is_left_out(name: &[u8]) -> bool
    ensures { result ≡ is_left_out name.now }
{
    same(name, b"StartOS")
        || same(name, b"ShutdownOS")
        || same(name, b"GetTaskID")
        || same(name, b"GetTaskState")
        || same(name, b"GetActiveApplicationMode")
        || same(name, b"SetEvent")
        || same(name, b"ClearEvent")
        || same(name, b"GetEvent")
        || same(name, b"WaitEvent")
        || same(name, b"GetAlarmBase")
        || same(name, b"GetAlarm")
        || same(name, b"SetRelAlarm")
        || same(name, b"SetAbsAlarm")
        || same(name, b"CancelAlarm")
}

/// Whether it is the name of the function that gives an input. It takes no memory.
#[tactic(auto, unfolding(crate::specs::Meanings::is_input_name))]
pub fn is_input_name(name: &[u8]) -> bool
    ensures { result ≡ is_input_name name.now }
{
    same(name, b"oschk_input")
}

/// Whether it is the name of the scheduler as a resource (OSEK OS 2.2.3, 8.3). It takes no memory.
#[tactic(auto, unfolding(crate::specs::Meanings::is_scheduler_name))]
pub fn is_scheduler_name(name: &[u8]) -> bool
    ensures { result ≡ is_scheduler_name name.now }
{
    same(name, b"RES_SCHEDULER")
}

/// The number of the task of this name among the tasks. It takes no memory.
pub fn task_named(app: &App, name: &[u8]) -> Option<usize>
    ensures { result ≡ task_named app.now name.now }
{
    app.tasks
        .items()
        .iter()
        .position(|task| same(name, task.name.as_bytes()))
}

/// The number of the routine of this name among the routines. It takes no memory.
pub fn routine_named(app: &App, name: &[u8]) -> Option<usize>
    ensures { result ≡ routine_named app.now name.now }
{
    app.routines
        .items()
        .iter()
        .position(|routine| same(name, routine.name.as_bytes()))
}

/// The number of the resource of this name. It takes no memory.
pub fn resource_named(app: &App, name: &[u8]) -> Option<usize>
    ensures { result ≡ resource_named app.now name.now }
{
    app.resources
        .items()
        .iter()
        .position(|resource| same(name, resource.name.as_bytes()))
}

/// The object of the application that has this name. It takes no memory.
pub fn object_named(app: &App, name: &[u8]) -> Option<Meaning>
    ensures { result ≡ object_named app.now name.now }
{
    if let Some(task) = task_named(app, name) {
        return Some(Meaning::Task(task));
    }
    if let Some(routine) = routine_named(app, name) {
        return Some(Meaning::Routine(routine));
    }
    match resource_named(app, name) {
        None => None,
        Some(resource) => Some(Meaning::Resource(resource)),
    }
}

/// The service of this name, or the input. It takes no memory.
pub fn system_named(name: &[u8]) -> Option<Meaning>
    ensures { result ≡ system_named name.now }
{
    match service_named(name) {
        Some(service) => Some(Meaning::Service(service)),
        None => if is_input_name(name) {
            Some(Meaning::Input)
        } else {
            None
        },
    }
}

// A service of this name that is left out.
pub(crate) fn left_out_named(name: &[u8]) -> Option<Meaning>
    ensures { result ≡ left_out_named name.now }
{
    if is_left_out(name) {
        Some(Meaning::LeftOut)
    } else {
        None
    }
}
