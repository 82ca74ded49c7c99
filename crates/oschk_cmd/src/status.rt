// How a command ends.
ghost use Rattle.std.specs.Prelude.{◌≡◌};
ghost use Rattle.oschk_cmd.specs.Status.{number_of};

/// How a command ends: with `Good` where a run holds, an application is shown, a replay ends without a failure, or a certificate is good; with
/// `Fails` where a run or a replay fails; with `Undecided`; with `Refused` where a text is refused; with `Usage` where the words are those of no
/// command; with `ReadFault` where a file can't be read; with `WriteFault` where the output or the file of a certificate can't be written; with
/// `Memory` where memory runs out; and with `NotPermitted` where a choice of a schedule isn't permitted, or a certificate is bad.
#[derive(Clone, Copy, PartialEq, Eq, Debug)]
pub enum Status {
    Good,
    Fails,
    Undecided,
    Refused,
    Usage,
    ReadFault,
    WriteFault,
    Memory,
    NotPermitted,
}

impl Status {
    /// The number that the program ends with.
    pub fn number(self) -> u8
        ensures { result ≡ number_of self }
    {
        match self {
            Status::Good => 0,
            Status::Fails => 1,
            Status::Undecided => 2,
            Status::Refused => 3,
            Status::Usage => 4,
            Status::ReadFault => 5,
            Status::WriteFault => 6,
            Status::Memory => 7,
            Status::NotPermitted => 8,
        }
    }
}
