// The lines of refusals.
ghost use Rattle.std.specs.Prelude.{◌++◌, codes, decimal};
ghost use Rattle.report.specs.Lines.{counted, line, place_text};
ghost use Rattle.report.specs.Printing.{Prints};
ghost use Rattle.report.specs.RefusalTexts.{limit_line, place_line, refusal_text, rule_line};

use crate::pieces::{Piece, put, put_all};
use crate::reports::{Refusal, WriteFault};
use chk_base::place::Place;
use chk_base::sink::Sink;

// A line that ends in a place.
fn put_at<S: Sink>(out: &mut S, head: &[u8], place: Place) -> Result<(), WriteFault>
    ensures { Prints (S.state out.old) (S.state out.new) (place_line head.now place) result }
{
    put_all(
        out,
        &[
            Piece::Bytes(head),
            Piece::Bytes(b" at "),
            Piece::Place(place),
            Piece::Bytes(b"\n"),
        ],
    )
}

// A line with the number of a rule and a place.
fn put_rule<S: Sink>(out: &mut S, head: &[u8], rule: u8, place: Place) -> Result<(), WriteFault>
    ensures { Prints (S.state out.old) (S.state out.new) (rule_line head.now rule place) result }
{
    put_all(
        out,
        &[
            Piece::Counted(head, rule as u64),
            Piece::Bytes(b" at "),
            Piece::Place(place),
            Piece::Bytes(b"\n"),
        ],
    )
}

// A line with a number and its limit.
fn put_limit<'a, S: Sink>(
    out: &mut S,
    head: &'a [u8],
    number: u64,
    limit: &'a [u8],
) -> Result<(), WriteFault>
    ensures { Prints (S.state out.old) (S.state out.new) (limit_line head.now number limit.now) result }
{
    put_all(
        out,
        &[
            Piece::Counted(head, number),
            Piece::Bytes(b" of "),
            Piece::Bytes(limit),
            Piece::Bytes(b"\n"),
        ],
    )
}

/// Writes the line of a refusal.
pub fn put_refusal<S: Sink>(out: &mut S, refusal: Refusal) -> Result<(), WriteFault>
    ensures { Prints (S.state out.old) (S.state out.new) (refusal_text refusal) result }
{
    match refusal {
        Refusal::OilByte(place) => put_at(out, b"refused OIL BYTE", place),
        Refusal::OilToken(place) => put_at(out, b"refused OIL TOKEN", place),
        Refusal::OilEnd(place) => put_at(out, b"refused OIL END", place),
        Refusal::OilRule(rule, place) => put_rule(out, b"refused OIL RULE A", rule, place),
        Refusal::CByte(place) => put_at(out, b"refused C BYTE", place),
        Refusal::CDirective(place) => put_at(out, b"refused C DIRECTIVE", place),
        Refusal::CNumber(place) => put_at(out, b"refused C NUMBER", place),
        Refusal::CDepth(place) => put_at(out, b"refused C DEPTH", place),
        Refusal::CToken(place) => put_at(out, b"refused C TOKEN", place),
        Refusal::CEnd(place) => put_at(out, b"refused C END", place),
        Refusal::CRule(rule, place) => put_rule(out, b"refused C RULE C", rule, place),
        Refusal::StaticRule(rule, place) => put_rule(out, b"refused C RULE S", rule, place),
        Refusal::FormC(place) => put_at(out, b"refused FORM C", place),
        Refusal::Points(number) => put_limit(out, b"refused POINTS ", number, b"2048"),
        Refusal::Cells(number) => put_limit(out, b"refused CELLS ", number, b"8192"),
        Refusal::Size(number) => put_limit(out, b"refused SIZE ", number, b"65536"),
        Refusal::State(number) => put_limit(out, b"refused STATE ", number, b"1048576"),
        Refusal::LongOil => put(out, b"refused LENGTH OIL of 262144\n"),
        Refusal::LongC => put(out, b"refused LENGTH C of 262144\n"),
        Refusal::LongSchedule => put(out, b"refused LENGTH SCHEDULE of 262144\n"),
        Refusal::LongCert => put(out, b"refused LENGTH CERT of 1073741824\n"),
        Refusal::ScheduleLine(place) => put_at(out, b"refused SCHEDULE LINE", place),
        Refusal::CertByte(place) => put_at(out, b"refused CERT BYTE", place),
        Refusal::CertToken(place) => put_at(out, b"refused CERT TOKEN", place),
        Refusal::CertEnd(place) => put_at(out, b"refused CERT END", place),
    }
}
