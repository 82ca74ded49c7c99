// What names mean.
ghost use Rattle.std.specs.Prelude.{◌≡◌};
ghost use Rattle.c_rules.specs.Meanings.{is_undeclared, is_local, is_function, is_variable, is_constant, is_misindexed, is_service, is_input, is_object, is_left_out_meaning, is_nothing, is_void, service_arguments, takes_other, takes_task, takes_resource, is_task, is_resource};

use crate::objects::is_scheduler_name;
use c_unit::expression::TypeName;

/// A system service by its name (OSEK OS 2.2.3, 13).
#[derive(Clone, Copy, PartialEq, Eq, Debug)]
pub enum ServiceName {
    ActivateTask,
    TerminateTask,
    ChainTask,
    Schedule,
    GetResource,
    ReleaseResource,
    DisableAllInterrupts,
    EnableAllInterrupts,
    SuspendAllInterrupts,
    ResumeAllInterrupts,
    SuspendOsInterrupts,
    ResumeOsInterrupts,
}

/// A parameter or declared local, by its number among those of its body.
#[derive(Clone, Copy, PartialEq, Eq, Debug)]
pub struct LocalMeaning {
    pub number: usize,
    pub type_name: TypeName,
    pub constant: bool,
}

/// A file-level variable, by its number among those of the text, with the length that is written for an array.
#[derive(Clone, Copy, PartialEq, Eq, Debug)]
pub struct VariableMeaning {
    pub number: usize,
    pub type_name: TypeName,
    pub constant: bool,
    pub len: Option<u32>,
}

/// A function, by its number among those of the text, with the type of its result and the number of its parameters.
#[derive(Clone, Copy, PartialEq, Eq, Debug)]
pub struct FunctionMeaning {
    pub number: usize,
    pub result: Option<TypeName>,
    pub parameters: usize,
}

/// What a name means at a place of a C text.
#[derive(Clone, Copy, PartialEq, Eq, Debug)]
pub enum Meaning {
    Local(LocalMeaning),
    /// A task of the application, by its number among the tasks.
    Task(usize),
    /// A routine of the application, by its number among the routines.
    Routine(usize),
    /// A resource of the application, by its number among the resources.
    Resource(usize),
    Service(ServiceName),
    /// `oschk_input`
    Input,
    Variable(VariableMeaning),
    Function(FunctionMeaning),
    /// Nothing; the name is that of a service that is left out.
    LeftOut,
    Nothing,
}

impl ServiceName {
    fn arguments(self) -> usize
        ensures { result ≡ service_arguments self }
    {
        match self {
            ServiceName::ActivateTask
            | ServiceName::ChainTask
            | ServiceName::GetResource
            | ServiceName::ReleaseResource => 1,
            _ => 0,
        }
    }
}

// Whether it is an array without an index or a scalar with one.
fn is_misindexed(indexed: bool, meaning: Meaning) -> bool
    ensures { result ≡ is_misindexed indexed meaning }
{
    match meaning {
        Meaning::Local(_) => indexed,
        Meaning::Variable(v) => if indexed {
            !v.len.is_some()
        } else {
            v.len.is_some()
        },
        _ => false,
    }
}

impl Meaning {
    pub(crate) fn is_undeclared(self) -> bool
        ensures { result ≡ is_undeclared self }
    {
        match self {
            Meaning::Nothing | Meaning::LeftOut => true,
            _ => false,
        }
    }

    /// Whether it is a local. It takes no memory.
    pub fn is_local(self) -> bool
        ensures { result ≡ is_local self }
    {
        match self {
            Meaning::Local(_) => true,
            _ => false,
        }
    }

    pub(crate) fn is_function(self) -> bool
        ensures { result ≡ is_function self }
    {
        match self {
            Meaning::Function(_) => true,
            _ => false,
        }
    }

    pub(crate) fn is_variable(self) -> bool
        ensures { result ≡ is_variable self }
    {
        match self {
            Meaning::Local(_) | Meaning::Variable(_) => true,
            _ => false,
        }
    }

    pub(crate) fn is_constant(self) -> bool
        ensures { result ≡ is_constant self }
    {
        match self {
            Meaning::Local(l) => l.constant,
            Meaning::Variable(v) => v.constant,
            _ => false,
        }
    }

    pub(crate) fn is_misindexed(self, indexed: bool) -> bool
        ensures { result ≡ is_misindexed indexed self }
    {
        is_misindexed(indexed, self)
    }

    pub(crate) fn is_service(self) -> bool
        ensures { result ≡ is_service self }
    {
        match self {
            Meaning::Service(_) => true,
            _ => false,
        }
    }

    pub(crate) fn is_input(self) -> bool
        ensures { result ≡ is_input self }
    {
        match self {
            Meaning::Input => true,
            _ => false,
        }
    }

    pub(crate) fn is_object(self) -> bool
        ensures { result ≡ is_object self }
    {
        match self {
            Meaning::Task(_) | Meaning::Routine(_) | Meaning::Resource(_) => true,
            _ => false,
        }
    }

    pub(crate) fn is_left_out(self) -> bool
        ensures { result ≡ is_left_out_meaning self }
    {
        match self {
            Meaning::LeftOut => true,
            _ => false,
        }
    }

    pub(crate) fn is_nothing(self) -> bool
        ensures { result ≡ is_nothing self }
    {
        match self {
            Meaning::Nothing => true,
            _ => false,
        }
    }

    pub(crate) fn is_void(self) -> bool
        ensures { result ≡ is_void self }
    {
        match self {
            Meaning::Function(f) => !f.result.is_some(),
            _ => false,
        }
    }

    // Whether it takes another number of arguments.
    pub(crate) fn takes_other(self, count: usize) -> bool
        ensures { result ≡ takes_other self count }
    {
        match self {
            Meaning::Function(f) => !(count == f.parameters),
            Meaning::Service(s) => !(count == s.arguments()),
            Meaning::Input => !(count == 0),
            _ => false,
        }
    }

    pub(crate) fn takes_task(self) -> bool
        ensures { result ≡ takes_task self }
    {
        match self {
            Meaning::Service(ServiceName::ActivateTask)
            | Meaning::Service(ServiceName::ChainTask) => true,
            _ => false,
        }
    }

    pub(crate) fn takes_resource(self) -> bool
        ensures { result ≡ takes_resource self }
    {
        match self {
            Meaning::Service(ServiceName::GetResource)
            | Meaning::Service(ServiceName::ReleaseResource) => true,
            _ => false,
        }
    }

    pub(crate) fn is_task(self) -> bool
        ensures { result ≡ is_task self }
    {
        match self {
            Meaning::Task(_) => true,
            _ => false,
        }
    }

    // Whether it is a resource, or the scheduler as one, by this name.
    pub(crate) fn is_resource(self, name: &[u8]) -> bool
        ensures { result ≡ is_resource name.now self }
    {
        match self {
            Meaning::Resource(_) => true,
            Meaning::Local(_) => false,
            _ => is_scheduler_name(name),
        }
    }
}
