// What an attribute sets.
ghost use Rattle.std.specs.Prelude.{◌≡◌, ◌==◌};
ghost use Rattle.oil_rules.specs.Roles.{system_role, task_role, routine_role, resource_role, role_of, role_number, is_role, is_hook, is_single};

use crate::kind::{Kind, same};

/// What an attribute sets in its object (OIL 2.5, 2.3); `Vendor` is every attribute that isn't standard there.
#[derive(Clone, Copy, PartialEq, Eq, Debug)]
pub enum Role {
    Status,
    StartupHook,
    ErrorHook,
    ShutdownHook,
    PreTaskHook,
    PostTaskHook,
    UseGetServiceId,
    UseParameterAccess,
    UseResScheduler,
    Priority,
    Schedule,
    Activation,
    Autostart,
    Resource,
    Event,
    Message,
    Category,
    ResourceProperty,
    Vendor,
}

#[tactic(auto, unfolding(crate::specs::Roles::system_role))]
fn system_role(word: &[u8]) -> Role
    ensures { result ≡ system_role word.now }
{
    if same(word, b"STATUS") {
        Role::Status
    } else if same(word, b"STARTUPHOOK") {
        Role::StartupHook
    } else if same(word, b"ERRORHOOK") {
        Role::ErrorHook
    } else if same(word, b"SHUTDOWNHOOK") {
        Role::ShutdownHook
    } else if same(word, b"PRETASKHOOK") {
        Role::PreTaskHook
    } else if same(word, b"POSTTASKHOOK") {
        Role::PostTaskHook
    } else if same(word, b"USEGETSERVICEID") {
        Role::UseGetServiceId
    } else if same(word, b"USEPARAMETERACCESS") {
        Role::UseParameterAccess
    } else if same(word, b"USERESSCHEDULER") {
        Role::UseResScheduler
    } else {
        Role::Vendor
    }
}

#[tactic(auto, unfolding(crate::specs::Roles::task_role))]
fn task_role(word: &[u8]) -> Role
    ensures { result ≡ task_role word.now }
{
    if same(word, b"PRIORITY") {
        Role::Priority
    } else if same(word, b"SCHEDULE") {
        Role::Schedule
    } else if same(word, b"ACTIVATION") {
        Role::Activation
    } else if same(word, b"AUTOSTART") {
        Role::Autostart
    } else if same(word, b"RESOURCE") {
        Role::Resource
    } else if same(word, b"EVENT") {
        Role::Event
    } else if same(word, b"MESSAGE") {
        Role::Message
    } else {
        Role::Vendor
    }
}

#[tactic(auto, unfolding(crate::specs::Roles::routine_role))]
fn routine_role(word: &[u8]) -> Role
    ensures { result ≡ routine_role word.now }
{
    if same(word, b"CATEGORY") {
        Role::Category
    } else if same(word, b"PRIORITY") {
        Role::Priority
    } else if same(word, b"RESOURCE") {
        Role::Resource
    } else if same(word, b"MESSAGE") {
        Role::Message
    } else {
        Role::Vendor
    }
}

#[tactic(auto, unfolding(crate::specs::Roles::resource_role))]
fn resource_role(word: &[u8]) -> Role
    ensures { result ≡ resource_role word.now }
{
    if same(word, b"RESOURCEPROPERTY") {
        Role::ResourceProperty
    } else {
        Role::Vendor
    }
}

/// What an attribute of this name sets in an object of this kind. It takes no memory.
pub fn role_of(kind: Kind, word: &[u8]) -> Role
    ensures { result ≡ role_of kind word.now }
{
    match kind {
        Kind::Os => system_role(word),
        Kind::Task => task_role(word),
        Kind::Isr => routine_role(word),
        Kind::Resource => resource_role(word),
        _ => Role::Vendor,
    }
}

impl Role {
    fn number(self) -> u8
        ensures { result ≡ role_number self }
    {
        match self {
            Role::Status => 0,
            Role::StartupHook => 1,
            Role::ErrorHook => 2,
            Role::ShutdownHook => 3,
            Role::PreTaskHook => 4,
            Role::PostTaskHook => 5,
            Role::UseGetServiceId => 6,
            Role::UseParameterAccess => 7,
            Role::UseResScheduler => 8,
            Role::Priority => 9,
            Role::Schedule => 10,
            Role::Activation => 11,
            Role::Autostart => 12,
            Role::Resource => 13,
            Role::Event => 14,
            Role::Message => 15,
            Role::Category => 16,
            Role::ResourceProperty => 17,
            Role::Vendor => 18,
        }
    }

    /// Whether it is this role. It takes no memory.
    #[tactic(auto, unfolding(crate::specs::Roles::is_role))]
    pub fn is(self, other: Role) -> bool
        ensures { result ≡ is_role self other }
    {
        self.number() == other.number()
    }

    /// Whether it is one of the five hooks. It takes no memory.
    pub fn is_hook(self) -> bool
        ensures { result ≡ is_hook self }
    {
        match self {
            Role::StartupHook
            | Role::ErrorHook
            | Role::ShutdownHook
            | Role::PreTaskHook
            | Role::PostTaskHook => true,
            _ => false,
        }
    }

    /// Whether it may stand only once in an object. It takes no memory.
    pub fn is_single(self) -> bool
        ensures { result ≡ is_single self }
    {
        match self {
            Role::Resource | Role::Event | Role::Message | Role::Vendor => false,
            _ => true,
        }
    }
}
