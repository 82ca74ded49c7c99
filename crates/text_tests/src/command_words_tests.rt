// Lines of words, and what they ask for.
use chk_base::text::{Text, Words};
use command_words::asked::{Asked, RunWords, read_words};
use std::alloc::{AllocError, Global};
use std::test::Fail;

// A line of words, and the bound on turns of the run that it asks for, if it asks for one.
type Case = (&'static [&'static str], Option<u16>);

const CASES: [Case; 26] = [
    (
        &[
            "run",
            "a.oil",
            "a.c",
            "--turns=8",
            "--arrivals=0",
            "--cert=f",
        ],
        Some(8),
    ),
    (
        &[
            "run",
            "--cert=f",
            "a.oil",
            "--turns=8",
            "a.c",
            "--arrivals=0",
        ],
        Some(8),
    ),
    (
        &[
            "run",
            "--turns",
            "8",
            "--arrivals",
            "0",
            "--cert",
            "f",
            "a.oil",
            "a.c",
        ],
        Some(8),
    ),
    (
        &[
            "run",
            "--turns=8",
            "--arrivals=0",
            "--cert=f",
            "--",
            "a.oil",
            "a.c",
        ],
        Some(8),
    ),
    (
        &[
            "run",
            "a.oil",
            "a.c",
            "--turns=1",
            "--arrivals=0",
            "--cert=f",
        ],
        Some(1),
    ),
    (
        &[
            "run",
            "a.oil",
            "a.c",
            "--turns=512",
            "--arrivals=0",
            "--cert=f",
        ],
        Some(512),
    ),
    (
        &[
            "run",
            "a.oil",
            "a.c",
            "--turns=0",
            "--arrivals=0",
            "--cert=f",
        ],
        None,
    ),
    (
        &[
            "run",
            "a.oil",
            "a.c",
            "--turns=513",
            "--arrivals=0",
            "--cert=f",
        ],
        None,
    ),
    (
        &[
            "run",
            "a.oil",
            "a.c",
            "--turns=08",
            "--arrivals=0",
            "--cert=f",
        ],
        None,
    ),
    (
        &[
            "run",
            "a.oil",
            "a.c",
            "--turns=+8",
            "--arrivals=0",
            "--cert=f",
        ],
        None,
    ),
    (
        &[
            "run",
            "a.oil",
            "a.c",
            "--turns=",
            "--arrivals=0",
            "--cert=f",
        ],
        None,
    ),
    (
        &[
            "run",
            "a.oil",
            "a.c",
            "--turns=8",
            "--arrivals=1",
            "--cert=f",
        ],
        None,
    ),
    (
        &[
            "run",
            "a.oil",
            "a.c",
            "--turns=8",
            "--turns=8",
            "--arrivals=0",
            "--cert=f",
        ],
        None,
    ),
    (&["run", "a.oil", "a.c", "--arrivals=0", "--cert=f"], None),
    (
        &["run", "a.oil", "--turns=8", "--arrivals=0", "--cert=f"],
        None,
    ),
    (
        &[
            "run",
            "a.oil",
            "a.c",
            "b.c",
            "--turns=8",
            "--arrivals=0",
            "--cert=f",
        ],
        None,
    ),
    (
        &[
            "run",
            "a.oil",
            "a.c",
            "--turns=8",
            "--arrivals=0",
            "--cert=a.c",
        ],
        None,
    ),
    (
        &[
            "run",
            "a.oil",
            "a.c",
            "--turns=8",
            "--arrivals=0",
            "--cert=a.oil",
        ],
        None,
    ),
    (
        &[
            "run",
            "a.oil",
            "a.c",
            "--turns=8",
            "--arrivals=0",
            "--cert=f",
            "--budget=1000000000001",
        ],
        None,
    ),
    (
        &[
            "run",
            "a.oil",
            "a.c",
            "--turns=8",
            "--arrivals=0",
            "--cert=f",
            "--help",
        ],
        None,
    ),
    (
        &[
            "run",
            "a.oil",
            "a.c",
            "--turns=8",
            "--arrivals=0",
            "--cert=f",
            "--version",
        ],
        None,
    ),
    (
        &[
            "run",
            "a.oil",
            "a.c",
            "--turn=8",
            "--arrivals=0",
            "--cert=f",
        ],
        None,
    ),
    (&["help"], None),
    (
        &[
            "walk",
            "a.oil",
            "a.c",
            "--turns=8",
            "--arrivals=0",
            "--cert=f",
        ],
        None,
    ),
    (&[""], None),
    (&[], None),
];

fn words_of(alloc: Global, line: &[&str]) -> Result<Words, AllocError> {
    let mut words = Words::new(alloc);
    for word in line {
        words.push(Text::from_bytes(alloc, word.as_bytes())?)?;
    }
    Ok(words)
}

fn run_of(alloc: Global, line: &[&str]) -> Result<Option<RunWords>, AllocError> {
    match read_words(alloc, &words_of(alloc, line)?)? {
        Some(Asked::Run(run)) => Ok(Some(run)),
        _ => Ok(None),
    }
}

fn turns_of(alloc: Global, line: &[&str]) -> Result<Option<u16>, AllocError> {
    match run_of(alloc, line)? {
        Some(run) => Ok(Some(run.turns)),
        None => Ok(None),
    }
}

#[test]
fn takes_exactly_the_lines_of_a_run(rt: HostRuntime) -> Result<(), Fail> {
    for (line, turns) in CASES.as_slice() {
        assert!(rt; turns_of(rt.alloc(), line)? == *turns);
    }
    Ok(())
}

fn is(text: Option<&Text>, expected: &str) -> bool {
    match text {
        Some(text) => text.as_bytes() == expected.as_bytes(),
        None => expected.is_empty(),
    }
}

// The usual budget, no mode.
#[test]
fn takes_what_is_usual(rt: HostRuntime) -> Result<(), Fail> {
    let line = [
        "run",
        "a.oil",
        "a.c",
        "--turns=8",
        "--arrivals=0",
        "--cert=f",
    ];
    let run = run_of(rt.alloc(), line.as_slice())?.ok_or("a run")?;
    assert!(rt; is(Some(&run.oil), "a.oil") && is(Some(&run.c), "a.c") && is(Some(&run.cert), "f"));
    assert!(rt; run.budget == 1_000_000 && run.arrivals == 0 && is(run.mode.as_ref(), ""));
    Ok(())
}

#[test]
fn takes_a_budget_and_a_mode(rt: HostRuntime) -> Result<(), Fail> {
    let line = [
        "run",
        "a.oil",
        "a.c",
        "--turns=8",
        "--arrivals=0",
        "--cert=f",
        "--mode=M",
        "--budget=0",
    ];
    let run = run_of(rt.alloc(), line.as_slice())?.ok_or("a run")?;
    assert!(rt; run.budget == 0 && is(run.mode.as_ref(), "M"));
    Ok(())
}

#[test]
fn takes_the_line_of_a_check(rt: HostRuntime) -> Result<(), Fail> {
    let words = words_of(rt.alloc(), &["check", "f"])?;
    let Some(Asked::Check(cert)) = read_words(rt.alloc(), &words)? else {
        return Err(Fail::from("a check"));
    };
    assert!(rt; is(Some(&cert), "f"));
    Ok(())
}

// A line of words, and the mode of the replay that it asks for, empty where none is named; none where it asks for no replay.
type Replayed = (&'static [&'static str], Option<&'static str>);

const REPLAYS: [Replayed; 6] = [
    (&["replay", "a.oil", "a.c", "s"], Some("")),
    (&["replay", "--mode", "M", "a.oil", "a.c", "s"], Some("M")),
    (&["replay", "a.oil", "a.c"], None),
    (&["replay", "a.oil", "a.c", "s", "t"], None),
    (&["replay", "a.oil", "a.c", "s", "--turns=8"], None),
    (&["check", "s"], None),
];

fn is_replay(alloc: Global, line: &[&str], mode: Option<&str>) -> Result<bool, AllocError> {
    match (read_words(alloc, &words_of(alloc, line)?)?, mode) {
        (Some(Asked::Replay(replay)), Some(mode)) => Ok(
            is(Some(&replay.oil), "a.oil")
                && is(Some(&replay.c), "a.c")
                && is(Some(&replay.schedule), "s")
                && is(replay.mode.as_ref(), mode),
        ),
        (Some(Asked::Replay(_)), None) => Ok(false),
        (_, expected) => Ok(expected.is_none()),
    }
}

#[test]
fn takes_exactly_the_lines_of_a_replay(rt: HostRuntime) -> Result<(), Fail> {
    for (line, mode) in REPLAYS.as_slice() {
        assert!(rt; is_replay(rt.alloc(), line, *mode)?);
    }
    Ok(())
}

// A line of words, and the mode of the show that it asks for, empty where none is named; none where it asks for no show.
const SHOWS: [Replayed; 5] = [
    (&["show", "a.oil", "a.c"], Some("")),
    (&["show", "a.oil", "--mode=M", "a.c"], Some("M")),
    (&["show", "a.oil"], None),
    (&["show", "a.oil", "a.c", "s"], None),
    (&["show", "a.oil", "a.c", "--cert=f"], None),
];

fn is_show(alloc: Global, line: &[&str], mode: Option<&str>) -> Result<bool, AllocError> {
    match (read_words(alloc, &words_of(alloc, line)?)?, mode) {
        (Some(Asked::Show(show)), Some(mode)) => Ok(
            is(Some(&show.oil), "a.oil")
                && is(Some(&show.c), "a.c")
                && is(show.mode.as_ref(), mode),
        ),
        (Some(Asked::Show(_)), None) => Ok(false),
        (_, expected) => Ok(expected.is_none()),
    }
}

#[test]
fn takes_exactly_the_lines_of_a_show(rt: HostRuntime) -> Result<(), Fail> {
    for (line, mode) in SHOWS.as_slice() {
        assert!(rt; is_show(rt.alloc(), line, *mode)?);
    }
    Ok(())
}

// A line of words, and the number and the budget of the run that it asks for, if it asks for one of an application that is made.
type Made = (&'static [&'static str], Option<(u32, u64)>);

const MAKES: [Made; 10] = [
    (
        &["make", "0", "--turns=8", "--arrivals=0", "--cert=f"],
        Some((0, 1_000_000)),
    ),
    (
        &[
            "make",
            "--cert=f",
            "--budget=7",
            "--turns=8",
            "--arrivals=0",
            "4294967295",
        ],
        Some((4_294_967_295, 7)),
    ),
    (
        &[
            "make",
            "4294967296",
            "--turns=8",
            "--arrivals=0",
            "--cert=f",
        ],
        None,
    ),
    (
        &["make", "01", "--turns=8", "--arrivals=0", "--cert=f"],
        None,
    ),
    (
        &["make", "+1", "--turns=8", "--arrivals=0", "--cert=f"],
        None,
    ),
    (&["make", "--turns=8", "--arrivals=0", "--cert=f"], None),
    (&["make", "1", "--turns=8", "--arrivals=0"], None),
    (
        &["make", "1", "--turns=513", "--arrivals=0", "--cert=f"],
        None,
    ),
    (
        &["make", "1", "2", "--turns=8", "--arrivals=0", "--cert=f"],
        None,
    ),
    (
        &[
            "make",
            "1",
            "--turns=8",
            "--arrivals=0",
            "--cert=f",
            "--mode=M",
        ],
        None,
    ),
];

fn is_make(alloc: Global, line: &[&str], expected: Option<(u32, u64)>) -> Result<bool, AllocError> {
    match (read_words(alloc, &words_of(alloc, line)?)?, expected) {
        (Some(Asked::Make(make)), Some((number, budget))) => Ok(
            make.number == number
                && make.budget == budget
                && make.turns == 8
                && make.arrivals == 0
                && is(Some(&make.cert), "f"),
        ),
        (Some(Asked::Make(_)), None) => Ok(false),
        (_, expected) => Ok(expected.is_none()),
    }
}

#[test]
fn takes_exactly_the_lines_of_a_make(rt: HostRuntime) -> Result<(), Fail> {
    for (line, expected) in MAKES.as_slice() {
        assert!(rt; is_make(rt.alloc(), line, *expected)?);
    }
    Ok(())
}

#[test]
fn refuses_a_word_that_is_no_text(rt: HostRuntime) -> Result<(), Fail> {
    let mut words = words_of(rt.alloc(), &["check"])?;
    words.push(Text::from_bytes(rt.alloc(), &[0xff])?)?;
    assert!(rt; read_words(rt.alloc(), &words)?.is_none());
    Ok(())
}
