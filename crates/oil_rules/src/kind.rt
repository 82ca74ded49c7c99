// Kinds of objects.
ghost use Rattle.std.specs.Prelude.{◌≡◌};
ghost use Rattle.std.specs.Str.{bytes_eq};
ghost use Rattle.oil_rules.specs.Kinds.{kind_of, is_task, is_routine, is_resource_kind, is_system, is_mode_kind, is_scheduler};

/// What an object is, by the word before its name (OIL 2.5, 2.3).
#[derive(Clone, Copy, PartialEq, Eq, Debug)]
pub enum Kind {
    Os,
    Task,
    Counter,
    Alarm,
    Resource,
    Event,
    Isr,
    Message,
    NetworkMessage,
    Com,
    Nm,
    Ipdu,
    Appmode,
    Unknown,
}

/// Whether two texts have the same bytes. It takes no memory.
pub fn same(a: &[u8], b: &[u8]) -> bool
    ensures { result ≡ bytes_eq a.now b.now }
{
    a == b
}

/// The kind of object that a word stands for, and `Unknown` for every other word. It takes no memory.
#[tactic(auto, unfolding(crate::specs::Kinds::kind_of))]
pub fn kind_of(word: &[u8]) -> Kind
    ensures { result ≡ kind_of word.now }
{
    if same(word, b"OS") {
        Kind::Os
    } else if same(word, b"TASK") {
        Kind::Task
    } else if same(word, b"COUNTER") {
        Kind::Counter
    } else if same(word, b"ALARM") {
        Kind::Alarm
    } else if same(word, b"RESOURCE") {
        Kind::Resource
    } else if same(word, b"EVENT") {
        Kind::Event
    } else if same(word, b"ISR") {
        Kind::Isr
    } else if same(word, b"MESSAGE") {
        Kind::Message
    } else if same(word, b"NETWORKMESSAGE") {
        Kind::NetworkMessage
    } else if same(word, b"COM") {
        Kind::Com
    } else if same(word, b"NM") {
        Kind::Nm
    } else if same(word, b"IPDU") {
        Kind::Ipdu
    } else if same(word, b"APPMODE") {
        Kind::Appmode
    } else {
        Kind::Unknown
    }
}

/// Whether a name is that of the scheduler as a resource (OSEK OS 2.2.3, 8.3). It takes no memory.
#[tactic(auto, unfolding(crate::specs::Kinds::is_scheduler))]
pub fn is_scheduler(name: &[u8]) -> bool
    ensures { result ≡ is_scheduler name.now }
{
    same(name, b"RES_SCHEDULER")
}

impl Kind {
    pub fn is_task(self) -> bool
        ensures { result ≡ is_task self }
    {
        match self {
            Kind::Task => true,
            _ => false,
        }
    }

    pub fn is_routine(self) -> bool
        ensures { result ≡ is_routine self }
    {
        match self {
            Kind::Isr => true,
            _ => false,
        }
    }

    pub fn is_resource(self) -> bool
        ensures { result ≡ is_resource_kind self }
    {
        match self {
            Kind::Resource => true,
            _ => false,
        }
    }

    pub fn is_system(self) -> bool
        ensures { result ≡ is_system self }
    {
        match self {
            Kind::Os => true,
            _ => false,
        }
    }

    pub fn is_mode(self) -> bool
        ensures { result ≡ is_mode_kind self }
    {
        match self {
            Kind::Appmode => true,
            _ => false,
        }
    }
}
