// What there is to report.
pub use answers::refusal::Refusal;
pub use answers::verdict::Verdict;
use application::app::App;
pub use replay::run::{ReplayFault, Replayed};
use step_ir::code::Code;
use step_ir::event::Choices;
use thiserror::Error;

/// The answer to a certificate: it is good, with its verdict; the first bad line, by its number from 1; or a verdict that doesn't fit.
#[derive(Clone, Copy, PartialEq, Eq, Debug)]
pub enum CertReport {
    Good(Verdict),
    BadLine(u64),
    BadVerdict,
}

/// What there is to report, by command. `Ran` is of `run`, and of `make` where `made` has its number; `turns` and `arrivals` are the bounds, and
/// where the verdict is `Fails` there are the events of a schedule that fails, and its choices. `Shown` is of `show`, `Replay` of `replay`, and
/// `Checked` of `check` with the number of the log's lines.
#[derive(Clone, Copy)]
pub enum Report<'a> {
    Ran {
        made: Option<u32>,
        app: &'a App,
        code: &'a Code,
        turns: u16,
        arrivals: u8,
        verdict: Verdict,
        replayed: Option<&'a Replayed>,
        choices: Option<&'a Choices>,
    },
    Shown {
        app: &'a App,
        code: &'a Code,
    },
    Replay {
        app: &'a App,
        code: &'a Code,
        result: &'a Result<Replayed, ReplayFault>,
    },
    Checked {
        lines: u64,
        answer: CertReport,
    },
    Refused(Refusal),
    Usage,
    ReadFault,
    OutOfMemory,
}

/// The sink failed; a prefix of the text stands.
#[derive(Clone, Copy, PartialEq, Eq, Debug, Error)]
pub enum WriteFault {
    #[error("Failed")]
    Failed,
}
