// A worked certificate, and what its changes answer.
use chk_base::text::Text;
use proof_check::cert::{CertFault, Verdict, read_cert};
use proof_check::check::{CertAnswer, check_cert};
use std::alloc::{AllocError, Global};
use std::test::Fail;

// What a text answers: that of its check, or the line and the column of a fault.
#[derive(Clone, Copy, Debug, PartialEq, Eq)]
enum Seen {
    Checked(CertAnswer),
    Byte(u32, u32),
    Token(u32, u32),
    End(u32, u32),
    NoMemory,
    TooLong,
}

// A certificate with the formula `1`, `-1 2`, the goal `-1 -2` and its refutation, with other lines in place of those from the
// first to before the other number; they are numbered from 1.
fn changed(alloc: Global, first: usize, after: usize, new: &[u8]) -> Result<Text, AllocError> {
    let lines: &[&[u8]] = &[
        b"oschk certificate 1\n",
        b"bounds 1 0\n",
        b"budget 10\n",
        b"variables 2\n",
        b"clauses 2\n",
        b"1 0\n",
        b"-1 2 0\n",
        b"goal -1 -2 0\n",
        b"labels 1\n",
        b"label 0 idle\n",
        b"depth 0 0 1\n",
        b"depth 1 0 1\n",
        b"turn 1 0 1\n",
        b"log\n",
        b"0 1 2 3 0\n",
        b"verdict holds\n",
        b"end\n",
    ];
    let mut text = Text::new(alloc);
    for (i, line) in lines.iter().enumerate() {
        if i + 1 == first {
            text.append(new)?;
        }
        if i + 1 < first || after <= i + 1 {
            text.append(*line)?;
        }
    }
    if first > lines.len() {
        text.append(new)?;
    }
    Ok(text)
}

fn refused(fault: CertFault) -> Seen {
    match fault {
        CertFault::Byte(place) => Seen::Byte(place.line, place.column),
        CertFault::Token(place) => Seen::Token(place.line, place.column),
        CertFault::EndOfText(place) => Seen::End(place.line, place.column),
        CertFault::Memory => Seen::NoMemory,
    }
}

fn answer_of(alloc: Global, text: &Text) -> Result<Seen, AllocError> {
    if text.as_bytes().len() > 1 << 30 {
        return Ok(Seen::TooLong);
    }
    match read_cert(alloc, text) {
        Ok(cert) => Ok(Seen::Checked(check_cert(alloc, &cert)?)),
        Err(fault) => Ok(refused(fault)),
    }
}

#[test]
fn changes_of_a_certificate_answer_as_they_should(rt: HostRuntime) -> Result<(), Fail> {
    let holds = Seen::Checked(CertAnswer::Good(Verdict::Holds));
    let bad_line = Seen::Checked(CertAnswer::BadLine(1));
    let bad_verdict = Seen::Checked(CertAnswer::BadVerdict);
    let rows: &[(usize, usize, &[u8], Seen)] = &[
        (0, 0, b"", holds),
        (15, 16, b"0 1 3 0\n", bad_line),
        (15, 16, b"0 0\n", bad_line),
        (15, 16, b"0 2 1 3 0\n", bad_line),
        (
            15,
            16,
            b"0 1 2 3 0\n0 0\n",
            Seen::Checked(CertAnswer::BadLine(2)),
        ),
        (15, 16, b"", bad_verdict),
        (15, 16, b"2 0 1 2 0\n", bad_verdict),
        (15, 16, b"0 1 2 3 0\n0 4 0\n", bad_verdict),
        (16, 17, b"verdict undecided\n", bad_verdict),
        (16, 18, b"verdict fails\nmodel 1 2 0\nend\n", bad_verdict),
        (17, 18, b"", Seen::End(17, 1)),
        (17, 18, b"end", Seen::End(17, 4)),
        (17, 18, b"end\n\n", Seen::Token(18, 1)),
        (1, 2, b"Oschk certificate 1\n", Seen::Token(1, 1)),
        (1, 2, b"oschk\tcertificate 1\n", Seen::Byte(1, 6)),
        (6, 7, b"3 0\n", Seen::Token(6, 1)),
        (6, 7, b"\n", Seen::Token(6, 1)),
        (7, 8, b"2 -1 0\n", Seen::Token(7, 3)),
        (7, 8, b"-1 2 00\n", Seen::Token(7, 6)),
        (15, 16, b"0 1 2 9 0\n", Seen::Token(15, 7)),
        (15, 16, b"0 1 2 4 0\n", Seen::Token(15, 7)),
        (3, 4, b"\x00budget 10\n", Seen::Byte(3, 1)),
        (3, 4, b"budget 010\n", Seen::Token(3, 8)),
        (3, 4, b"budget 9223372036854775808\n", Seen::Token(3, 8)),
        (3, 4, b"budget 9223372036854775807\n", holds),
        (3, 4, b"", Seen::Token(3, 1)),
        (3, 4, b"budget 10\nbudget 10\n", Seen::Token(4, 1)),
        (4, 5, b"variables 0\n", Seen::Token(4, 11)),
        (5, 6, b"clauses 1\n", Seen::Token(7, 1)),
        (10, 11, b"label 1 idle\n", Seen::Token(10, 7)),
        (10, 11, b"label 0 arrive T\n", holds),
        (10, 11, b"label 0 step T 3\n", holds),
        (10, 11, b"label 0 step T\n", Seen::Token(10, 15)),
        (11, 12, b"depth 1 0 1\ndepth 0 0 1\n", Seen::Token(11, 7)),
        (
            11,
            13,
            b"depth 0 0 1\ndepth 0 1 1\ndepth 1 0 1\n",
            Seen::Token(14, 1),
        ),
        (13, 14, b"", Seen::Token(13, 1)),
        (13, 14, b"turn 1 0 1\nturn 1 0 1\n", Seen::Token(14, 1)),
    ];
    for (first, after, new, expected) in rows {
        let text = changed(rt.alloc(), *first, *after, new)?;
        assert_eq!(rt; answer_of(rt.alloc(), &text)?, *expected);
    }
    Ok(())
}

#[test]
fn models_are_over_formula_and_goal(rt: HostRuntime) -> Result<(), Fail> {
    let fails = Seen::Checked(CertAnswer::Good(Verdict::Fails));
    let bad_verdict = Seen::Checked(CertAnswer::BadVerdict);
    let rows: &[(&[u8], Seen)] = &[
        (b"model 1 2 0\n", fails),
        (b"model 1 -2 0\n", bad_verdict),
        (b"model -1 2 0\n", bad_verdict),
        (b"model 1 0\n", Seen::Token(17, 9)),
        (b"model 1 2 3 0\n", Seen::Token(17, 11)),
        (b"model 2 1 0\n", Seen::Token(17, 7)),
        (b"", Seen::Token(17, 1)),
    ];
    for (model, expected) in rows {
        let mut new = Text::new(rt.alloc());
        new.append(
            b"goal 2 0\nlabels 1\nlabel 0 idle\ndepth 0 0 1\ndepth 1 0 1\nturn 1 0 1\nlog\n2 0 1 2 0\nverdict fails\n",
        )?;
        new.append(model)?;
        new.append(b"end\n")?;
        let text = changed(rt.alloc(), 8, 18, new.as_bytes())?;
        assert_eq!(rt; answer_of(rt.alloc(), &text)?, *expected);
    }
    Ok(())
}

#[test]
fn a_stack_has_at_most_sixteen_entities(rt: HostRuntime) -> Result<(), Fail> {
    let holds = Seen::Checked(CertAnswer::Good(Verdict::Holds));
    let mut new = Text::new(rt.alloc());
    new.append(
        b"bounds 0 0\nbudget 10\nvariables 2\nclauses 2\n1 0\n-1 2 0\ngoal -1 -2 0\nlabels 1\nlabel 0 idle\ndepth 0 0 1\ndepth 0 1 1\ndepth 0 2 1\ndepth 0 3 1\ndepth 0 4 1\ndepth 0 5 1\ndepth 0 6 1\ndepth 0 7 1\ndepth 0 8 1\ndepth 0 9 1\ndepth 0 10 1\ndepth 0 11 1\ndepth 0 12 1\ndepth 0 13 1\ndepth 0 14 1\ndepth 0 15 1\ndepth 0 16 1\n",
    )?;
    let text = changed(rt.alloc(), 2, 14, new.as_bytes())?;
    assert_eq!(rt; answer_of(rt.alloc(), &text)?, holds);
    new.append(b"depth 0 17 1\n")?;
    let text = changed(rt.alloc(), 2, 14, new.as_bytes())?;
    assert_eq!(rt; answer_of(rt.alloc(), &text)?, Seen::Token(28, 1));
    Ok(())
}
