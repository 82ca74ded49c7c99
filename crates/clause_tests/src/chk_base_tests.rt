// What no clause shows: answers of calls in turn, with memory at hand, a real file, and the messages of faults.
use chk_base::cells::Cells;
use chk_base::desk::{Desk, FetchFault, PutFault, append_all};
use chk_base::expr::{BinOp, Expr};
use chk_base::file_desk::FileDesk;
use chk_base::meaning::eval;
use chk_base::mem_desk::MemDesk;
use chk_base::mem_sink::MemSink;
use chk_base::never_sink::NeverSink;
use chk_base::out_sink::OutSink;
use chk_base::place::{Place, place_of};
use chk_base::sets::{Set, Sets, Values};
use chk_base::sink::{Failed, Sink, write_all};
use chk_base::text::{Text, Words};
use chk_base::word::{Width, Widths, Word};
use std::alloc::{AllocError, Global};
use std::fs;
use std::test::Fail;

fn text(alloc: Global, text: &str) -> Result<Text, AllocError> {
    Text::from_bytes(alloc, text.as_bytes())
}

#[derive(Clone, Copy)]
enum Call<'a> {
    Fetch(&'a str, u64),
    Begin(&'a str),
    Append(&'a str),
}

// The answer of a call: the bytes, the count, or the fault.
fn answer<D: Desk>(alloc: Global, desk: &mut D, call: &Call<'_>) -> Result<String, AllocError> {
    match call {
        Call::Fetch(name, limit) => match desk.fetch(alloc, &text(alloc, name)?, *limit) {
            Ok(bytes) => format!(in alloc; "{:?}", bytes.as_bytes()),
            Err(fault) => format!(in alloc; "{fault}"),
        },
        Call::Begin(name) => match desk.begin(&text(alloc, name)?) {
            Ok(()) => format!(in alloc; "begun"),
            Err(fault) => format!(in alloc; "{fault}"),
        },
        Call::Append(piece) => match desk.append(piece.as_bytes()) {
            Ok(taken) => format!(in alloc; "{taken}"),
            Err(fault) => format!(in alloc; "{fault}"),
        },
    }
}

fn put(alloc: Global, desk: &mut MemDesk, name: &str, bytes: &str) -> Result<(), AllocError> {
    desk.put(&text(alloc, name)?, &text(alloc, bytes)?)
}

fn fail_at(desk: &mut MemDesk, calls: &[u64]) -> Result<(), AllocError> {
    for call in calls {
        desk.fail_at(*call)?;
    }
    Ok(())
}

#[test]
fn a_fault_is_shown_as_its_name(rt: HostRuntime) -> Result<(), Fail> {
    let alloc = rt.alloc();
    assert_eq!(rt;
        format!(in alloc; "{}", FetchFault::Failed)?.as_str(),
        "Failed"
    );
    assert_eq!(rt;
        format!(in alloc; "{}", FetchFault::TooLong)?.as_str(),
        "TooLong"
    );
    assert_eq!(rt;
        format!(in alloc; "{}", FetchFault::Memory)?.as_str(),
        "Memory"
    );
    assert_eq!(rt;
        format!(in alloc; "{}", PutFault::Failed)?.as_str(),
        "Failed"
    );
    assert_eq!(rt;
        format!(in alloc; "{}", PutFault::Memory)?.as_str(),
        "Memory"
    );
    Ok(())
}

#[test]
fn a_desk_in_memory_keeps_files_and_fails_where_it_was_told(rt: HostRuntime) -> Result<(), Fail> {
    let alloc = rt.alloc();
    let mut desk = MemDesk::new(alloc);
    put(alloc, &mut desk, "a", "AB")?;
    fail_at(&mut desk, &[11, 12, 13])?;
    let calls = [
        (Call::Fetch("a", 2), "[65, 66]"),
        (Call::Fetch("a", 1), "TooLong"),
        (Call::Fetch("b", 9), "Failed"),
        (Call::Append("C"), "Failed"),
        (Call::Begin("b"), "begun"),
        (Call::Append("CD"), "2"),
        (Call::Append(""), "0"),
        (Call::Append("E"), "1"),
        (Call::Fetch("b", 3), "[67, 68, 69]"),
        (Call::Begin("b"), "begun"),
        (Call::Fetch("a", 2), "Failed"),
        (Call::Begin("c"), "Failed"),
        (Call::Append("F"), "Failed"),
        (Call::Append("G"), "1"),
        (Call::Fetch("b", 0), "TooLong"),
        (Call::Fetch("b", 1), "[71]"),
    ];
    for (at, (call, want)) in calls.iter().enumerate() {
        assert_eq!(rt; answer(alloc, &mut desk, call)?.as_str(), *want, "at {at}");
    }
    Ok(())
}

fn append(desk: &mut MemDesk, piece: &str) -> Result<(), PutFault> {
    append_all(desk, piece.as_bytes())
}

// The bytes of a file, or that there is none.
fn file(alloc: Global, desk: &MemDesk, name: &str) -> Result<String, AllocError> {
    match desk.file(&text(alloc, name)?) {
        Some(bytes) => format!(in alloc; "{:?}", bytes.as_bytes()),
        None => format!(in alloc; "none"),
    }
}

#[test]
fn a_file_of_a_desk_in_memory_is_put_and_appended_to(rt: HostRuntime) -> Result<(), Fail> {
    let alloc = rt.alloc();
    let mut desk = MemDesk::new(alloc);
    assert_eq!(rt; file(alloc, &desk, "a")?.as_str(), "none");
    put(alloc, &mut desk, "a", "A")?;
    put(alloc, &mut desk, "a", "BC")?;
    assert_eq!(rt; file(alloc, &desk, "a")?.as_str(), "[66, 67]");
    assert_eq!(rt; append(&mut desk, "D"), Err(PutFault::Failed));
    assert_eq!(rt;
        answer(alloc, &mut desk, &Call::Begin("a"))?.as_str(),
        "begun"
    );
    assert_eq!(rt; append(&mut desk, "DE"), Ok(()));
    assert_eq!(rt; file(alloc, &desk, "a")?.as_str(), "[68, 69]");
    Ok(())
}

#[test]
fn a_sink_in_memory_takes_what_it_has_room_for(rt: HostRuntime) -> Result<(), Fail> {
    let alloc = rt.alloc();
    let mut sink = MemSink::new(alloc, 5)?;
    sink.fail_at(2)?;
    let writes = [
        ("abc", Ok(3)),
        ("d", Err(Failed)),
        ("", Ok(0)),
        ("defg", Ok(2)),
        ("x", Err(Failed)),
        ("", Ok(0)),
    ];
    for (at, (piece, want)) in writes.iter().enumerate() {
        assert_eq!(rt; sink.write(piece.as_bytes()), *want, "at {at}");
    }
    assert_eq!(rt; sink.text().as_bytes(), b"abcde".as_slice());
    let mut sink = MemSink::new(alloc, 5)?;
    assert_eq!(rt; write_all(&mut sink, b"abc"), Ok(()));
    assert_eq!(rt; write_all(&mut sink, b"def"), Err(Failed));
    assert_eq!(rt; sink.text().as_bytes(), b"abcde".as_slice());
    Ok(())
}

#[test]
fn the_other_sinks_take_a_whole_piece(rt: HostRuntime) -> Result<(), Fail> {
    let piece = vec![in rt.alloc(); 7u8; 70_000]?;
    let mut sink = NeverSink::new();
    assert_eq!(rt; sink.write(&piece), Ok(70_000));
    assert_eq!(rt; write_all(&mut sink, &piece), Ok(()));
    assert_eq!(rt;
        write_all(&mut OutSink::new(&rt), b"to the standard output\n"),
        Ok(())
    );
    Ok(())
}

#[test]
fn a_desk_over_files_reads_back_what_it_wrote(rt: HostRuntime) -> Result<(), Fail> {
    let alloc = rt.alloc();
    let mut desk = FileDesk::new(alloc, &rt);
    let calls = [
        (Call::Append("A"), "Failed"),
        (Call::Fetch("chk_base.missing", 9), "Failed"),
        (Call::Begin("chk_base.written"), "begun"),
        (Call::Append("A"), "1"),
        (Call::Append(""), "0"),
        (Call::Append("BC"), "2"),
        (Call::Fetch("chk_base.written", 3), "[65, 66, 67]"),
        (Call::Fetch("chk_base.written", 2), "TooLong"),
        (Call::Begin("chk_base.written"), "begun"),
        (Call::Fetch("chk_base.written", 3), "[]"),
        (Call::Begin("."), "Failed"),
        (Call::Append("D"), "1"),
        (Call::Fetch("chk_base.written", 1), "[68]"),
    ];
    for (at, (call, want)) in calls.iter().enumerate() {
        assert_eq!(rt; answer(alloc, &mut desk, call)?.as_str(), *want, "at {at}");
    }
    fs::remove_file(&rt, "chk_base.written")?;
    Ok(())
}

#[test]
fn operators_give_their_values(rt: HostRuntime) -> Result<(), Fail> {
    let alloc = rt.alloc();
    let cells = Cells::new(alloc, &[])?;
    let rows = [
        (BinOp::DivS, 0xffff_fff9, 2, 0xffff_fffd),
        (BinOp::RemS, 0xffff_fff9, 2, 0xffff_ffff),
        (BinOp::DivU, 0xffff_fff9, 2, 0x7fff_fffc),
        (BinOp::DivS, 0x8000_0000, 0xffff_ffff, 0x8000_0000),
        (BinOp::RemS, 0x8000_0000, 0xffff_ffff, 0),
        (BinOp::DivU, 5, 0, 0),
        (BinOp::RemS, 5, 0, 0),
        (BinOp::Shl, 3, 31, 0x8000_0000),
        (BinOp::Shl, 3, 32, 0),
        (BinOp::ShrS, 0x8000_0000, 31, 0xffff_ffff),
        (BinOp::ShrU, 0x8000_0000, 31, 1),
        (BinOp::LtS, 0xffff_ffff, 0, 1),
        (BinOp::LtU, 0xffff_ffff, 0, 0),
        (BinOp::AddOver, 0x7fff_ffff, 1, 1),
        (BinOp::SubOver, 0x8000_0000, 1, 1),
        (BinOp::MulOver, 0x1_0000, 0x7fff, 0),
        (BinOp::MulOver, 0x1_0000, 0x8000, 1),
    ];
    for (at, (op, a, b, want)) in rows.iter().enumerate() {
        let a = Box::new(alloc, Expr::Const(*a))?;
        let b = Box::new(alloc, Expr::Const(*b))?;
        let value = eval(&Expr::Bin(*op, a, b), &cells);
        assert_eq!(rt; value, Word::whole(*want), "at {at}");
    }
    Ok(())
}

#[test]
fn cells_are_read_in_their_widths(rt: HostRuntime) -> Result<(), Fail> {
    let alloc = rt.alloc();
    let mut cells = Cells::new(alloc, &[Width::W8, Width::W16])?;
    let byte = Word::new(Width::W8, 0x80).ok_or("too wide")?;
    assert_eq!(rt; Word::new(Width::W8, 0x100), None);
    assert_eq!(rt; byte.reading(true), -128);
    assert_eq!(rt; byte.reading(false), 128);
    assert_eq!(rt; (cells.len(), cells.get(0).width), (2, Width::W8));
    cells.set(0, byte);
    let cells = cells.copy(alloc)?;
    assert_eq!(rt; (cells.len(), cells.get(0).bits), (2, 0x80));
    Ok(())
}

#[test]
fn lists_hold_what_was_pushed(rt: HostRuntime) -> Result<(), Fail> {
    let alloc = rt.alloc();
    let mut name = text(alloc, "a\n")?;
    name.push(b'b')?;
    name.append(b"c")?;
    let place = Place {
        line: 2,
        column: 3,
        offset: 4,
    };
    assert_eq!(rt; name.as_bytes().len(), 4);
    assert_eq!(rt; place_of(&name, 4), place);
    let mut words = Words::new(alloc);
    words.push(name)?;
    assert_eq!(rt; words.get(0).ok_or("none")?.as_bytes(), b"a\nbc".as_slice());
    let mut widths = Widths::new(alloc);
    widths.push(Width::W1)?;
    assert_eq!(rt; widths.get(0), Some(&Width::W1));
    let mut values = Values::new(alloc);
    values.push(7)?;
    assert_eq!(rt; values.get(0), Some(&7));
    let mut sets = Sets::new(alloc);
    sets.push(Set {
        cell: 3,
        value: Expr::Const(7),
    })?;
    assert_eq!(rt; sets.get(0).ok_or("none")?.cell, 3);
    Ok(())
}
