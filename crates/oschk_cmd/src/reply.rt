// What a command replies, before anything is written.
ghost use Rattle.std.specs.Prelude.{◌≡◌, None, is_some};
ghost use Rattle.report.specs.PrintedTexts.{plain_report};
ghost use Rattle.report.specs.PrintedTexts as printed;
ghost use Rattle.oschk_cmd.specs.Replies.{check_status, decision_status, is_fault, replay_status, reply_status, report_of};

use crate::status::Status;
use application::app::App;
use decided_run::decision::Decision;
use report::reports::{CertReport, Refusal, ReplayFault, Replayed, Report, Verdict};
use step_ir::code::Code;

/// The run of an application by at most so many turns, and what is decided of it. `made` is the number to which its texts belong, where they
/// were made.
#[derive(Drop)]
pub struct Ran {
    pub made: Option<u32>,
    pub app: App,
    pub code: Code,
    pub turns: u16,
    pub decision: Decision,
}

/// An application and its code, as they are shown.
#[derive(Drop)]
pub struct Shown {
    pub app: App,
    pub code: Code,
}

/// The replay of a schedule of an application.
#[derive(Drop)]
pub struct Rerun {
    pub app: App,
    pub code: Code,
    pub result: Result<Replayed, ReplayFault>,
}

/// A fault, a refusal, or what a command has to tell. A check tells of how many lines the log has, and the answer.
#[derive(Drop)]
pub enum Reply {
    Usage,
    ReadFault,
    OutOfMemory,
    Refused(Refusal),
    Ran(Ran),
    Shown(Shown),
    Rerun(Rerun),
    Checked { lines: u64, answer: CertReport },
}

/// The file of a certificate couldn't be written, so there is no reply.
#[derive(Clone, Copy, PartialEq, Eq, Debug)]
pub struct Unwritten;

// A run without a failure.
fn unfailed_report<'a>(ran: &'a Ran, verdict: Verdict) -> Report<'a>
    ensures { plain_report result ≡ printed.Ran ran.now.made ran.now.app ran.now.code ran.now.turns 0 verdict None None }
{
    Report::Ran {
        made: ran.made,
        app: &ran.app,
        code: &ran.code,
        turns: ran.turns,
        arrivals: 0,
        verdict,
        replayed: None,
        choices: None,
    }
}

fn ran_report<'a>(ran: &'a Ran) -> Report<'a>
    ensures { plain_report result ≡ report_of (Reply.Ran ran.now) }
{
    match &ran.decision {
        Decision::Holds => unfailed_report(ran, Verdict::Holds),
        Decision::Fails(failing) => Report::Ran {
            made: ran.made,
            app: &ran.app,
            code: &ran.code,
            turns: ran.turns,
            arrivals: 0,
            verdict: Verdict::Fails,
            replayed: Some(&failing.replayed),
            choices: Some(&failing.choices),
        },
        Decision::Undecided => unfailed_report(ran, Verdict::Undecided),
    }
}

/// The report of a reply.
pub fn report_of<'a>(reply: &'a Reply) -> Report<'a>
    ensures { plain_report result ≡ report_of reply.now }
{
    match reply {
        Reply::Usage => Report::Usage,
        Reply::ReadFault => Report::ReadFault,
        Reply::OutOfMemory => Report::OutOfMemory,
        Reply::Refused(refusal) => Report::Refused(*refusal),
        Reply::Ran(ran) => ran_report(ran),
        Reply::Shown(shown) => Report::Shown {
            app: &shown.app,
            code: &shown.code,
        },
        Reply::Rerun(rerun) => Report::Replay {
            app: &rerun.app,
            code: &rerun.code,
            result: &rerun.result,
        },
        Reply::Checked { lines, answer } => Report::Checked {
            lines: *lines,
            answer: *answer,
        },
    }
}

fn decision_status(decision: &Decision) -> Status
    ensures { result ≡ decision_status decision.now }
{
    match decision {
        Decision::Holds => Status::Good,
        Decision::Fails(_) => Status::Fails,
        Decision::Undecided => Status::Undecided,
    }
}

fn replay_status(outcome: &Result<Replayed, ReplayFault>) -> Status
    ensures { result ≡ replay_status outcome.now }
{
    match outcome {
        Ok(replayed) => match replayed.failure {
            Some(_) => Status::Fails,
            None => Status::Good,
        },
        Err(ReplayFault::NotPermitted { .. }) => Status::NotPermitted,
        Err(ReplayFault::Memory) => Status::Memory,
    }
}

fn check_status(answer: CertReport) -> Status
    ensures { result ≡ check_status answer }
{
    match answer {
        CertReport::Good(_) => Status::Good,
        CertReport::BadLine(_) => Status::NotPermitted,
        CertReport::BadVerdict => Status::NotPermitted,
    }
}

/// How the command ends where that is written.
pub fn status_of(reply: &Reply) -> Status
    ensures { result ≡ reply_status reply.now }
{
    match reply {
        Reply::Usage => Status::Usage,
        Reply::ReadFault => Status::ReadFault,
        Reply::OutOfMemory => Status::Memory,
        Reply::Refused(_) => Status::Refused,
        Reply::Ran(ran) => decision_status(&ran.decision),
        Reply::Shown(_) => Status::Good,
        Reply::Rerun(rerun) => replay_status(&rerun.result),
        Reply::Checked { lines: _, answer } => check_status(*answer),
    }
}

/// The reply keeps its status where its line can't be written.
pub fn is_fault(reply: &Reply) -> bool
    ensures { result ≡ is_fault reply.now }
{
    matches!(reply, Reply::Usage | Reply::ReadFault | Reply::OutOfMemory)
}
