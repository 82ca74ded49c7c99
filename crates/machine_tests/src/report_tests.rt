// Texts of reports that speak of no application, over an output in memory.
ghost use Rattle.report.specs.PrintedTexts.{plain_report};
ghost use Rattle.report.specs.Printing.{IsFit};

use chk_base::mem_sink::MemSink;
use chk_base::place::Place;
use report::reports::{CertReport, Refusal, Report, Verdict, WriteFault};
use report::writing::write_report;
use std::alloc::{AllocError, Global};
use std::test::Fail;

const AT: Place = Place {
    line: 12,
    column: 3,
    offset: 200,
};

const ROWS: [(Refusal, &str); 25] = [
    (Refusal::OilByte(AT), "refused OIL BYTE at 12:3\n"),
    (Refusal::OilToken(AT), "refused OIL TOKEN at 12:3\n"),
    (Refusal::OilEnd(AT), "refused OIL END at 12:3\n"),
    (Refusal::OilRule(24, AT), "refused OIL RULE A24 at 12:3\n"),
    (Refusal::CByte(AT), "refused C BYTE at 12:3\n"),
    (Refusal::CDirective(AT), "refused C DIRECTIVE at 12:3\n"),
    (Refusal::CNumber(AT), "refused C NUMBER at 12:3\n"),
    (Refusal::CDepth(AT), "refused C DEPTH at 12:3\n"),
    (Refusal::CToken(AT), "refused C TOKEN at 12:3\n"),
    (Refusal::CEnd(AT), "refused C END at 12:3\n"),
    (Refusal::CRule(20, AT), "refused C RULE C20 at 12:3\n"),
    (Refusal::StaticRule(4, AT), "refused C RULE S4 at 12:3\n"),
    (Refusal::FormC(AT), "refused FORM C at 12:3\n"),
    (
        Refusal::Points(18_446_744_073_709_551_615),
        "refused POINTS 18446744073709551615 of 2048\n",
    ),
    (Refusal::Cells(8193), "refused CELLS 8193 of 8192\n"),
    (Refusal::Size(70_656), "refused SIZE 70656 of 65536\n"),
    (
        Refusal::State(1_048_577),
        "refused STATE 1048577 of 1048576\n",
    ),
    (Refusal::LongOil, "refused LENGTH OIL of 262144\n"),
    (Refusal::LongC, "refused LENGTH C of 262144\n"),
    (Refusal::LongSchedule, "refused LENGTH SCHEDULE of 262144\n"),
    (Refusal::LongCert, "refused LENGTH CERT of 1073741824\n"),
    (Refusal::ScheduleLine(AT), "refused SCHEDULE LINE at 12:3\n"),
    (Refusal::CertByte(AT), "refused CERT BYTE at 12:3\n"),
    (Refusal::CertToken(AT), "refused CERT TOKEN at 12:3\n"),
    (Refusal::CertEnd(AT), "refused CERT END at 12:3\n"),
];

fn rows() -> &'static [(Refusal, &'static str)] {
    &ROWS
}

const CHECKS: [(CertReport, &str); 5] = [
    (
        CertReport::Good(Verdict::Holds),
        "oschk check\nlines 1\ngood holds\n",
    ),
    (
        CertReport::Good(Verdict::Fails),
        "oschk check\nlines 1\ngood fails\n",
    ),
    (
        CertReport::Good(Verdict::Undecided),
        "oschk check\nlines 1\ngood undecided\n",
    ),
    (CertReport::BadLine(1), "oschk check\nlines 1\nbad line 1\n"),
    (
        CertReport::BadVerdict,
        "oschk check\nlines 1\nbad verdict\n",
    ),
];

fn checks() -> &'static [(CertReport, &'static str)] {
    &CHECKS
}

// A report is written as this text.
fn is_written(alloc: Global, report: &Report, text: &str) -> Result<bool, AllocError>
    requires { IsFit (plain_report report.now) }
{
    let mut out = MemSink::new(alloc, 4096)?;
    match write_report(report, &mut out) {
        Ok(()) => Ok(out.text().as_bytes() == text.as_bytes()),
        Err(_) => Ok(false),
    }
}

#[test]
fn refusals_have_their_lines(rt: HostRuntime) -> Result<(), Fail> {
    for (refusal, text) in rows() {
        assert!(rt; is_written(rt.alloc(), &Report::Refused(*refusal), text)?);
    }
    Ok(())
}

#[test]
fn checks_and_faults_have_their_texts(rt: HostRuntime) -> Result<(), Fail> {
    let alloc = rt.alloc();
    for (answer, text) in checks() {
        let report = Report::Checked {
            lines: 1,
            answer: *answer,
        };
        assert!(rt; is_written(alloc, &report, text)?);
    }
    assert!(rt; is_written(alloc, &Report::Usage, "oschk: usage\n")?);
    assert!(rt; is_written(alloc, &Report::ReadFault, "oschk: read fault\n")?);
    assert!(rt; is_written(alloc, &Report::OutOfMemory, "oschk: out of memory\n")?);
    Ok(())
}

#[test]
fn a_failed_write_leaves_a_prefix(rt: HostRuntime) -> Result<(), Fail> {
    let mut out = MemSink::new(rt.alloc(), 4096)?;
    out.fail_at(2)?;
    let fault = write_report(&Report::Refused(Refusal::OilRule(2, AT)), &mut out);
    assert!(rt; fault == Err(WriteFault::Failed));
    assert!(rt; out.text().as_bytes() == b"refused OIL RULE A".as_slice());
    Ok(())
}

#[test]
fn a_fault_has_its_name_as_message(rt: HostRuntime) -> Result<(), Fail> {
    assert_eq!(rt;
        WriteFault::Failed.to_string(rt.alloc())?.as_str(),
        "Failed"
    );
    Ok(())
}
