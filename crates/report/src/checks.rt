// The report of a check.
ghost use Rattle.std.specs.Prelude.{◌≡◌, ◌++◌, codes, decimal};
ghost use Rattle.report.specs.CheckTexts.{answer_text, check_text, good_text};
ghost use Rattle.report.specs.Lines.{counted, line};
ghost use Rattle.report.specs.Printing.{Prints};

use crate::pieces::{Piece, put, put_all, put_count};
use crate::reports::{CertReport, Verdict, WriteFault};
use chk_base::sink::Sink;

fn good_line(verdict: Verdict) -> &'static [u8]
    ensures { result.now ≡ good_text verdict }
{
    match verdict {
        Verdict::Holds => b"good holds\n",
        Verdict::Fails => b"good fails\n",
        Verdict::Undecided => b"good undecided\n",
    }
}

fn put_answer<S: Sink>(out: &mut S, answer: CertReport) -> Result<(), WriteFault>
    ensures { Prints (S.state out.old) (S.state out.new) (answer_text answer) result }
{
    match answer {
        CertReport::Good(verdict) => put(out, good_line(verdict)),
        CertReport::BadLine(number) => put_count(out, b"bad line ", number),
        CertReport::BadVerdict => put(out, b"bad verdict\n"),
    }
}

/// Writes the report of a check of a log of so many lines.
pub fn put_check<S: Sink>(out: &mut S, lines: u64, answer: CertReport) -> Result<(), WriteFault>
    ensures { Prints (S.state out.old) (S.state out.new) (check_text lines answer) result }
{
    put_all(
        out,
        &[
            Piece::Bytes(b"oschk check\n"),
            Piece::Line(b"lines ", lines),
        ],
    )?;
    put_answer(out, answer)
}
