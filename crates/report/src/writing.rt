// Reports are written.
ghost use Rattle.std.specs.Prelude.{codes};
ghost use Rattle.report.specs.Lines.{line};
ghost use Rattle.report.specs.PrintedTexts.{plain_report, report_text};
ghost use Rattle.report.specs.Printing.{IsFit, Prints};

use crate::checks::put_check;
use crate::pieces::put;
use crate::refusals::put_refusal;
use crate::replays::put_replay;
use crate::reports::{Report, WriteFault};
use crate::runs::put_run;
use crate::shows::put_show;
use chk_base::sink::Sink;

/// Writes the text of a report, piece by piece. Where the sink fails, a prefix of it stands. It takes no memory.
pub fn write_report<S: Sink>(report: &Report, out: &mut S) -> Result<(), WriteFault>
    requires fit { IsFit (plain_report report.now) }
    ensures { Prints (S.state out.old) (S.state out.new) (report_text (plain_report report.now)) result }
{
    match *report {
        Report::Ran {
            made,
            app,
            code,
            turns,
            arrivals,
            verdict,
            replayed,
            choices,
        } => put_run(
            out,
            made,
            app,
            code,
            (turns, arrivals),
            verdict,
            replayed,
            choices,
        ),
        Report::Shown { app, code } => put_show(out, app, code),
        Report::Replay { app, code, result } => put_replay(out, app, code, result),
        Report::Checked { lines, answer } => put_check(out, lines, answer),
        Report::Refused(refusal) => put_refusal(out, refusal),
        Report::Usage => put(out, b"oschk: usage\n"),
        Report::ReadFault => put(out, b"oschk: read fault\n"),
        Report::OutOfMemory => put(out, b"oschk: out of memory\n"),
    }
}
