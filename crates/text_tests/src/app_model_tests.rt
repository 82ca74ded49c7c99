// Worked cases, over the texts that are read.
use app_model::build::{AppFault, app_of};
use application::app::{App, Class};
use chk_base::text::Text;
use oil_text::reader::read_oil;
use oil_tree::tree::OilTree;
use std::alloc::Global;
use std::process::Abort;
use std::test::Fail;

const HEAD: &[u8] = b"OIL_VERSION = \"2.5\";\nCPU c {\n";

// The tree of a text, which is to be whole.
fn tree_of(alloc: Global, text: &Text) -> Result<OilTree, Fail> {
    if text.as_bytes().len() > 262_144 {
        return Err(Fail::from("too long"));
    }
    match read_oil(alloc, text) {
        Ok(tree) => Ok(tree),
        Err(_) => Err(Fail::from("not read")),
    }
}

// The tree of a text whose lines from the third on are these.
fn tree_with(alloc: Global, objects: &[u8]) -> Result<OilTree, Fail> {
    let mut text = Text::from_bytes(alloc, HEAD)?;
    text.append(objects)?;
    text.append(b"};\n")?;
    tree_of(alloc, &text)
}

// The first fault of these objects, as number, line and column, and zeros where there is none.
fn answer_to(alloc: Global, objects: &[u8], mode: Option<&Text>) -> Result<(u8, u32, u32), Fail> {
    let tree = tree_with(alloc, objects)?;
    match app_of(alloc, &tree, mode) {
        Ok(_) => Ok((0, 0, 0)),
        Err(AppFault::Rule(rule, place)) => Ok((rule, place.line, place.column)),
        Err(AppFault::Memory) => Err(Fail::from("memory")),
    }
}

// Lines from the third on, and the number, line and column of the first fault; zeros where no rule is broken.
type Row = (&'static [u8], u8, u32, u32);

const ROWS: [Row; 54] = [
    // no rule is broken
    (
        b"OS o { STATUS = EXTENDED; };\nAPPMODE M { };\nTASK T { PRIORITY = 1; SCHEDULE = FULL; ACTIVATION = 1; AUTOSTART = TRUE { APPMODE = M; }; };\n",
        0,
        0,
        0,
    ),
    // an unknown kind
    (
        b"OS o { STATUS = EXTENDED; };\nAPPMODE M { };\nTASK T { PRIORITY = 1; SCHEDULE = FULL; ACTIVATION = 1; AUTOSTART = TRUE { APPMODE = M; }; };\nTHING X;\n",
        1,
        6,
        1,
    ),
    // an EVENT object
    (
        b"OS o { STATUS = EXTENDED; };\nAPPMODE M { };\nTASK T { PRIORITY = 1; SCHEDULE = FULL; ACTIVATION = 1; AUTOSTART = TRUE { APPMODE = M; }; };\nEVENT E { MASK = AUTO; };\n",
        2,
        6,
        1,
    ),
    // an EVENT attribute
    (
        b"OS o { STATUS = EXTENDED; };\nAPPMODE M { };\nTASK T { EVENT = E; PRIORITY = 1; SCHEDULE = FULL; ACTIVATION = 1; AUTOSTART = TRUE { APPMODE = M; }; };\n",
        2,
        5,
        10,
    ),
    // an ALARM
    (
        b"OS o { STATUS = EXTENDED; };\nAPPMODE M { };\nTASK T { PRIORITY = 1; SCHEDULE = FULL; ACTIVATION = 1; AUTOSTART = TRUE { APPMODE = M; }; };\nALARM A { COUNTER = C; };\n",
        3,
        6,
        1,
    ),
    // a MESSAGE object
    (
        b"OS o { STATUS = EXTENDED; };\nAPPMODE M { };\nTASK T { PRIORITY = 1; SCHEDULE = FULL; ACTIVATION = 1; AUTOSTART = TRUE { APPMODE = M; }; };\nMESSAGE Q;\n",
        4,
        6,
        1,
    ),
    // a MESSAGE attribute
    (
        b"OS o { STATUS = EXTENDED; };\nAPPMODE M { };\nTASK T { PRIORITY = 1; SCHEDULE = FULL; ACTIVATION = 1; AUTOSTART = TRUE { APPMODE = M; }; };\nISR I { CATEGORY = 2; PRIORITY = 1; MESSAGE = Q; };\n",
        4,
        6,
        37,
    ),
    // COM
    (
        b"OS o { STATUS = EXTENDED; };\nAPPMODE M { };\nTASK T { PRIORITY = 1; SCHEDULE = FULL; ACTIVATION = 1; AUTOSTART = TRUE { APPMODE = M; }; };\nCOM C;\n",
        5,
        6,
        1,
    ),
    // NM
    (
        b"OS o { STATUS = EXTENDED; };\nAPPMODE M { };\nTASK T { PRIORITY = 1; SCHEDULE = FULL; ACTIVATION = 1; AUTOSTART = TRUE { APPMODE = M; }; };\nNM N;\n",
        5,
        6,
        1,
    ),
    // NETWORKMESSAGE
    (
        b"OS o { STATUS = EXTENDED; };\nAPPMODE M { };\nTASK T { PRIORITY = 1; SCHEDULE = FULL; ACTIVATION = 1; AUTOSTART = TRUE { APPMODE = M; }; };\nNETWORKMESSAGE N;\n",
        5,
        6,
        1,
    ),
    // IPDU
    (
        b"OS o { STATUS = EXTENDED; };\nAPPMODE M { };\nTASK T { PRIORITY = 1; SCHEDULE = FULL; ACTIVATION = 1; AUTOSTART = TRUE { APPMODE = M; }; };\nIPDU P;\n",
        5,
        6,
        1,
    ),
    // an include inside the CPU section
    (
        b"OS o { STATUS = EXTENDED; };\nAPPMODE M { };\nTASK T { PRIORITY = 1; SCHEDULE = FULL; ACTIVATION = 1; AUTOSTART = TRUE { APPMODE = M; }; };\n#include\n",
        6,
        6,
        1,
    ),
    // a hook
    (
        b"OS o { ERRORHOOK = TRUE; };\nAPPMODE M { };\nTASK T { PRIORITY = 1; SCHEDULE = FULL; ACTIVATION = 1; AUTOSTART = TRUE { APPMODE = M; }; };\n",
        7,
        3,
        20,
    ),
    // no hook
    (
        b"OS o { ERRORHOOK = FALSE; };\nAPPMODE M { };\nTASK T { PRIORITY = 1; SCHEDULE = FULL; ACTIVATION = 1; AUTOSTART = TRUE { APPMODE = M; }; };\n",
        0,
        0,
        0,
    ),
    // category 1
    (
        b"OS o { STATUS = EXTENDED; };\nAPPMODE M { };\nTASK T { PRIORITY = 1; SCHEDULE = FULL; ACTIVATION = 1; AUTOSTART = TRUE { APPMODE = M; }; };\nISR I { CATEGORY = 1; PRIORITY = 1; };\n",
        8,
        6,
        20,
    ),
    // a linked resource
    (
        b"OS o { STATUS = EXTENDED; };\nAPPMODE M { };\nTASK T { PRIORITY = 1; SCHEDULE = FULL; ACTIVATION = 1; AUTOSTART = TRUE { APPMODE = M; }; };\nRESOURCE R { RESOURCEPROPERTY = LINKED; };\n",
        9,
        6,
        33,
    ),
    // a taken name
    (
        b"OS o { STATUS = EXTENDED; };\nAPPMODE M { };\nTASK T { PRIORITY = 1; SCHEDULE = FULL; ACTIVATION = 1; AUTOSTART = TRUE { APPMODE = M; }; };\nRESOURCE T { RESOURCEPROPERTY = STANDARD; };\n",
        10,
        6,
        10,
    ),
    // a taken mode
    (
        b"OS o { STATUS = EXTENDED; };\nAPPMODE M { };\nTASK T { PRIORITY = 1; SCHEDULE = FULL; ACTIVATION = 1; AUTOSTART = TRUE { APPMODE = M; }; };\nAPPMODE M { };\n",
        10,
        6,
        9,
    ),
    // a second OS
    (
        b"OS o { STATUS = EXTENDED; };\nAPPMODE M { };\nTASK T { PRIORITY = 1; SCHEDULE = FULL; ACTIVATION = 1; AUTOSTART = TRUE { APPMODE = M; }; };\nOS p { };\n",
        10,
        6,
        4,
    ),
    // an attribute twice
    (
        b"OS o { STATUS = EXTENDED; };\nAPPMODE M { };\nTASK T { PRIORITY = 1; PRIORITY = 1; SCHEDULE = FULL; ACTIVATION = 1; AUTOSTART = TRUE { APPMODE = M; }; };\n",
        11,
        5,
        24,
    ),
    // a task without SCHEDULE
    (
        b"OS o { STATUS = EXTENDED; };\nAPPMODE M { };\nTASK T { PRIORITY = 1; ACTIVATION = 1; AUTOSTART = FALSE; };\n",
        12,
        5,
        6,
    ),
    // a routine without CATEGORY
    (
        b"OS o { STATUS = EXTENDED; };\nAPPMODE M { };\nTASK T { PRIORITY = 1; SCHEDULE = FULL; ACTIVATION = 1; AUTOSTART = TRUE { APPMODE = M; }; };\nISR I { PRIORITY = 1; };\n",
        12,
        6,
        5,
    ),
    // a routine without PRIORITY
    (
        b"OS o { STATUS = EXTENDED; };\nAPPMODE M { };\nTASK T { PRIORITY = 1; SCHEDULE = FULL; ACTIVATION = 1; AUTOSTART = TRUE { APPMODE = M; }; };\nISR I { CATEGORY = 2; };\n",
        12,
        6,
        5,
    ),
    // a resource without property
    (
        b"OS o { STATUS = EXTENDED; };\nAPPMODE M { };\nTASK T { PRIORITY = 1; SCHEDULE = FULL; ACTIVATION = 1; AUTOSTART = TRUE { APPMODE = M; }; };\nRESOURCE R;\n",
        12,
        6,
        10,
    ),
    // a point number
    (
        b"OS o { STATUS = EXTENDED; };\nAPPMODE M { };\nTASK T { PRIORITY = 1.5; SCHEDULE = FULL; ACTIVATION = 1; AUTOSTART = TRUE { APPMODE = M; }; };\n",
        13,
        5,
        21,
    ),
    // a word of another kind
    (
        b"OS o { STATUS = EXTENDED; };\nAPPMODE M { };\nTASK T { PRIORITY = 1; SCHEDULE = NONE; ACTIVATION = 1; AUTOSTART = TRUE { APPMODE = M; }; };\n",
        13,
        5,
        35,
    ),
    // a string
    (
        b"OS o { STATUS = EXTENDED; };\nAPPMODE M { };\nTASK T { PRIORITY = \"1\"; SCHEDULE = FULL; ACTIVATION = 1; AUTOSTART = TRUE { APPMODE = M; }; };\n",
        13,
        5,
        21,
    ),
    // ACTIVATION 9
    (
        b"OS o { STATUS = EXTENDED; };\nAPPMODE M { };\nTASK T { PRIORITY = 1; SCHEDULE = FULL; ACTIVATION = 9; AUTOSTART = TRUE { APPMODE = M; }; };\n",
        14,
        5,
        54,
    ),
    // ACTIVATION 0
    (
        b"OS o { STATUS = EXTENDED; };\nAPPMODE M { };\nTASK T { PRIORITY = 1; SCHEDULE = FULL; ACTIVATION = 0; AUTOSTART = TRUE { APPMODE = M; }; };\n",
        14,
        5,
        54,
    ),
    // priority 64
    (
        b"OS o { STATUS = EXTENDED; };\nAPPMODE M { };\nTASK T { PRIORITY = 64; SCHEDULE = FULL; ACTIVATION = 1; AUTOSTART = TRUE { APPMODE = M; }; };\n",
        14,
        5,
        21,
    ),
    // priority 63 in hexadecimal digits
    (
        b"OS o { STATUS = EXTENDED; };\nAPPMODE M { };\nTASK T { PRIORITY = 0x3f; SCHEDULE = FULL; ACTIVATION = 1; AUTOSTART = TRUE { APPMODE = M; }; };\n",
        0,
        0,
        0,
    ),
    // priority -0
    (
        b"OS o { STATUS = EXTENDED; };\nAPPMODE M { };\nTASK T { PRIORITY = -0; SCHEDULE = FULL; ACTIVATION = 1; AUTOSTART = TRUE { APPMODE = M; }; };\n",
        0,
        0,
        0,
    ),
    // priority -1
    (
        b"OS o { STATUS = EXTENDED; };\nAPPMODE M { };\nTASK T { PRIORITY = -1; SCHEDULE = FULL; ACTIVATION = 1; AUTOSTART = TRUE { APPMODE = M; }; };\n",
        14,
        5,
        21,
    ),
    // a long number
    (
        b"OS o { STATUS = EXTENDED; };\nAPPMODE M { };\nTASK T { PRIORITY = 18446744073709551617; SCHEDULE = FULL; ACTIVATION = 1; AUTOSTART = TRUE { APPMODE = M; }; };\n",
        14,
        5,
        21,
    ),
    // priority 17 of a routine
    (
        b"OS o { STATUS = EXTENDED; };\nAPPMODE M { };\nTASK T { PRIORITY = 1; SCHEDULE = FULL; ACTIVATION = 1; AUTOSTART = TRUE { APPMODE = M; }; };\nISR I { CATEGORY = 2; PRIORITY = 17; };\n",
        14,
        6,
        34,
    ),
    // category 3
    (
        b"OS o { STATUS = EXTENDED; };\nAPPMODE M { };\nTASK T { PRIORITY = 1; SCHEDULE = FULL; ACTIVATION = 1; AUTOSTART = TRUE { APPMODE = M; }; };\nISR I { CATEGORY = 3; PRIORITY = 1; };\n",
        14,
        6,
        20,
    ),
    // no resource
    (
        b"OS o { STATUS = EXTENDED; };\nAPPMODE M { };\nTASK T { PRIORITY = 1; SCHEDULE = FULL; ACTIVATION = 1; AUTOSTART = TRUE { APPMODE = M; }; RESOURCE = R; };\n",
        15,
        5,
        103,
    ),
    // no mode
    (
        b"OS o { STATUS = EXTENDED; };\nAPPMODE M { };\nTASK T { PRIORITY = 1; SCHEDULE = FULL; ACTIVATION = 1; AUTOSTART = TRUE { APPMODE = N; }; };\n",
        16,
        5,
        86,
    ),
    // no mode named
    (
        b"OS o { STATUS = EXTENDED; };\nAPPMODE M { };\nTASK T { PRIORITY = 1; SCHEDULE = FULL; ACTIVATION = 1; AUTOSTART = TRUE; };\n",
        17,
        5,
        69,
    ),
    // what is inside FALSE is passed over
    (
        b"OS o { STATUS = EXTENDED; };\nAPPMODE M { };\nTASK T { PRIORITY = 1; SCHEDULE = FULL; ACTIVATION = 1; AUTOSTART = FALSE { APPMODE = 5; }; };\n",
        0,
        0,
        0,
    ),
    // a mode that is no name
    (
        b"OS o { STATUS = EXTENDED; };\nAPPMODE M { };\nTASK T { PRIORITY = 1; SCHEDULE = FULL; ACTIVATION = 1; AUTOSTART = TRUE { APPMODE = 5; }; };\n",
        13,
        5,
        86,
    ),
    // no mode at all
    (
        b"OS o { STATUS = EXTENDED; };\nCOUNTER C;\nTASK T { PRIORITY = 1; SCHEDULE = FULL; ACTIVATION = 1; AUTOSTART = TRUE { APPMODE = M; }; };\n",
        18,
        2,
        5,
    ),
    // a second internal resource
    (
        b"OS o { STATUS = EXTENDED; };\nAPPMODE M { };\nTASK T { PRIORITY = 1; SCHEDULE = FULL; ACTIVATION = 1; AUTOSTART = TRUE { APPMODE = M; }; RESOURCE = R; RESOURCE = S; };\nRESOURCE R { RESOURCEPROPERTY = INTERNAL; };\nRESOURCE S { RESOURCEPROPERTY = INTERNAL; };\n",
        20,
        5,
        117,
    ),
    // an internal resource twice
    (
        b"OS o { STATUS = EXTENDED; };\nAPPMODE M { };\nTASK T { PRIORITY = 1; SCHEDULE = FULL; ACTIVATION = 1; AUTOSTART = TRUE { APPMODE = M; }; RESOURCE = R; RESOURCE = R; };\nRESOURCE R { RESOURCEPROPERTY = INTERNAL; };\n",
        0,
        0,
        0,
    ),
    // an internal resource in a routine
    (
        b"OS o { STATUS = EXTENDED; };\nAPPMODE M { };\nTASK T { PRIORITY = 1; SCHEDULE = FULL; ACTIVATION = 1; AUTOSTART = TRUE { APPMODE = M; }; };\nRESOURCE R { RESOURCEPROPERTY = INTERNAL; };\nISR I { CATEGORY = 2; PRIORITY = 1; RESOURCE = R; };\n",
        21,
        7,
        48,
    ),
    // RES_SCHEDULER in a routine
    (
        b"OS o { STATUS = EXTENDED; };\nAPPMODE M { };\nTASK T { PRIORITY = 1; SCHEDULE = FULL; ACTIVATION = 1; AUTOSTART = TRUE { APPMODE = M; }; };\nISR I { CATEGORY = 2; PRIORITY = 1; RESOURCE = RES_SCHEDULER; };\n",
        22,
        6,
        48,
    ),
    // RES_SCHEDULER in a task
    (
        b"OS o { STATUS = EXTENDED; };\nAPPMODE M { };\nTASK T { PRIORITY = 1; SCHEDULE = FULL; ACTIVATION = 1; AUTOSTART = TRUE { APPMODE = M; }; RESOURCE = RES_SCHEDULER; };\n",
        0,
        0,
        0,
    ),
    // RES_SCHEDULER where there is none
    (
        b"OS o { USERESSCHEDULER = FALSE; };\nAPPMODE M { };\nTASK T { PRIORITY = 1; SCHEDULE = FULL; ACTIVATION = 1; AUTOSTART = TRUE { APPMODE = M; }; RESOURCE = RES_SCHEDULER; };\n",
        22,
        5,
        103,
    ),
    // seventeen tasks and routines
    (
        b"OS o { STATUS = EXTENDED; };\nAPPMODE M { };\nTASK T { PRIORITY = 1; SCHEDULE = FULL; ACTIVATION = 1; AUTOSTART = TRUE { APPMODE = M; }; };\nISR I0 { CATEGORY = 2; PRIORITY = 1; };\nISR I1 { CATEGORY = 2; PRIORITY = 1; };\nISR I2 { CATEGORY = 2; PRIORITY = 1; };\nISR I3 { CATEGORY = 2; PRIORITY = 1; };\nISR I4 { CATEGORY = 2; PRIORITY = 1; };\nISR I5 { CATEGORY = 2; PRIORITY = 1; };\nISR I6 { CATEGORY = 2; PRIORITY = 1; };\nISR I7 { CATEGORY = 2; PRIORITY = 1; };\nISR I8 { CATEGORY = 2; PRIORITY = 1; };\nISR I9 { CATEGORY = 2; PRIORITY = 1; };\nISR I10 { CATEGORY = 2; PRIORITY = 1; };\nISR I11 { CATEGORY = 2; PRIORITY = 1; };\nISR I12 { CATEGORY = 2; PRIORITY = 1; };\nISR I13 { CATEGORY = 2; PRIORITY = 1; };\nISR I14 { CATEGORY = 2; PRIORITY = 1; };\nISR I15 { CATEGORY = 2; PRIORITY = 1; };\n",
        23,
        21,
        5,
    ),
    // seventeen resources
    (
        b"OS o { STATUS = EXTENDED; };\nAPPMODE M { };\nTASK T { PRIORITY = 1; SCHEDULE = FULL; ACTIVATION = 1; AUTOSTART = TRUE { APPMODE = M; }; };\nRESOURCE R0 { RESOURCEPROPERTY = STANDARD; };\nRESOURCE R1 { RESOURCEPROPERTY = STANDARD; };\nRESOURCE R2 { RESOURCEPROPERTY = STANDARD; };\nRESOURCE R3 { RESOURCEPROPERTY = STANDARD; };\nRESOURCE R4 { RESOURCEPROPERTY = STANDARD; };\nRESOURCE R5 { RESOURCEPROPERTY = STANDARD; };\nRESOURCE R6 { RESOURCEPROPERTY = STANDARD; };\nRESOURCE R7 { RESOURCEPROPERTY = STANDARD; };\nRESOURCE R8 { RESOURCEPROPERTY = STANDARD; };\nRESOURCE R9 { RESOURCEPROPERTY = STANDARD; };\nRESOURCE R10 { RESOURCEPROPERTY = STANDARD; };\nRESOURCE R11 { RESOURCEPROPERTY = STANDARD; };\nRESOURCE R12 { RESOURCEPROPERTY = STANDARD; };\nRESOURCE R13 { RESOURCEPROPERTY = STANDARD; };\nRESOURCE R14 { RESOURCEPROPERTY = STANDARD; };\nRESOURCE R15 { RESOURCEPROPERTY = STANDARD; };\nRESOURCE R16 { RESOURCEPROPERTY = STANDARD; };\n",
        24,
        22,
        10,
    ),
    // a RESOURCE named RES_SCHEDULER is passed over
    (
        b"OS o { STATUS = EXTENDED; };\nAPPMODE M { };\nTASK T { PRIORITY = 1; SCHEDULE = FULL; ACTIVATION = 1; AUTOSTART = TRUE { APPMODE = M; }; };\nRESOURCE RES_SCHEDULER { };\n",
        0,
        0,
        0,
    ),
    // the lesser place of two
    (
        b"OS o { STATUS = EXTENDED; };\nAPPMODE M { };\nTASK T { PRIORITY = 1; SCHEDULE = FULL; ACTIVATION = 9; AUTOSTART = TRUE { APPMODE = M; }; };\nTHING X;\n",
        14,
        5,
        54,
    ),
    // the lesser number at one place
    (
        b"OS o { STATUS = EXTENDED; };\nAPPMODE M { };\nTASK T { PRIORITY = 1; SCHEDULE = FULL; ACTIVATION = 1; AUTOSTART = TRUE { APPMODE = M; }; };\nISR I0 { CATEGORY = 2; PRIORITY = 1; };\nISR I1 { CATEGORY = 2; PRIORITY = 1; };\nISR I2 { CATEGORY = 2; PRIORITY = 1; };\nISR I3 { CATEGORY = 2; PRIORITY = 1; };\nISR I4 { CATEGORY = 2; PRIORITY = 1; };\nISR I5 { CATEGORY = 2; PRIORITY = 1; };\nISR I6 { CATEGORY = 2; PRIORITY = 1; };\nISR I7 { CATEGORY = 2; PRIORITY = 1; };\nISR I8 { CATEGORY = 2; PRIORITY = 1; };\nISR I9 { CATEGORY = 2; PRIORITY = 1; };\nISR I10 { CATEGORY = 2; PRIORITY = 1; };\nISR I11 { CATEGORY = 2; PRIORITY = 1; };\nISR I12 { CATEGORY = 2; PRIORITY = 1; };\nISR I13 { CATEGORY = 2; PRIORITY = 1; };\nISR I14 { CATEGORY = 2; PRIORITY = 1; };\nISR T { CATEGORY = 2; PRIORITY = 1; };\n",
        10,
        21,
        5,
    ),
    // vendor attributes
    (
        b"OS o { STATUS = EXTENDED; };\nAPPMODE M { };\nTASK T { PRIORITY = 1; SCHEDULE = FULL; ACTIVATION = 1; AUTOSTART = TRUE { APPMODE = M; }; STACKSIZE = 1.5; STACKSIZE = -3; };\n",
        0,
        0,
        0,
    ),
];

fn rows() -> &'static [Row] {
    &ROWS
}

#[test]
fn the_first_fault_is_answered(rt: HostRuntime) -> Result<(), Fail> {
    for (objects, rule, line, column) in rows() {
        let answer = answer_to(rt.alloc(), objects, None)?;
        assert_eq!(rt; answer, (*rule, *line, *column));
    }
    Ok(())
}

#[test]
fn a_mode_is_asked_for(rt: HostRuntime) -> Result<(), Fail> {
    let (objects, _, _, _) = rows().first().ok_or("a text")?;
    let there = Text::from_bytes(rt.alloc(), b"M")?;
    let other = Text::from_bytes(rt.alloc(), b"N")?;
    assert_eq!(rt; answer_to(rt.alloc(), objects, Some(&there))?, (0, 0, 0));
    assert_eq!(rt; answer_to(rt.alloc(), objects, Some(&other))?, (19, 2, 5));
    Ok(())
}

// The usual application.
const USUAL: &[u8] =
    b"OIL_VERSION = \"2.5\" : \"usual\";\n#include \"vendor.oil\"\nIMPLEMENTATION Vendor {\n  OS { BOOLEAN USERESSCHEDULER = TRUE; };\n  TASK { UINT32 [0..255] PRIORITY; UINT32 STACKSIZE = 256; };\n};\nCPU Board {\n  OS Os {\n    STATUS = EXTENDED;\n    STARTUPHOOK = FALSE; ERRORHOOK = FALSE; SHUTDOWNHOOK = FALSE;\n    PRETASKHOOK = FALSE; POSTTASKHOOK = FALSE; USERESSCHEDULER = FALSE;\n  };\n  APPMODE Normal { };\n  RESOURCE Buf { RESOURCEPROPERTY = STANDARD; };\n  TASK Init {\n    PRIORITY = 5; SCHEDULE = FULL; ACTIVATION = 1;\n    AUTOSTART = TRUE { APPMODE = Normal; };\n    STACKSIZE = 128;\n  };\n  TASK Control {\n    PRIORITY = 2; SCHEDULE = FULL; ACTIVATION = 3;\n    AUTOSTART = FALSE; RESOURCE = Buf;\n  };\n  TASK Log {\n    PRIORITY = 1; SCHEDULE = FULL; ACTIVATION = 3; AUTOSTART = FALSE;\n  };\n  ISR Adc { CATEGORY = 2; PRIORITY = 4; RESOURCE = Buf; };\n  COUNTER Tick { MAXALLOWEDVALUE = 99; TICKSPERBASE = 1; MINCYCLE = 1; };\n};\n";

// Two modes, an internal resource, a task that isn't preemptive, RES_SCHEDULER as a resource, and notes inside the CPU section.
const LEVELS: &[u8] =
    b"OS o { STATUS = STANDARD; };\nAPPMODE M { };\nAPPMODE N { };\nRESOURCE R { RESOURCEPROPERTY = STANDARD; };\nRESOURCE S { RESOURCEPROPERTY = INTERNAL; };\nTASK A { PRIORITY = 1; SCHEDULE = FULL; ACTIVATION = 1; AUTOSTART = TRUE { APPMODE = N; }; RESOURCE = S; RESOURCE = R; };\nTASK B { PRIORITY = 3; SCHEDULE = FULL; ACTIVATION = 1; AUTOSTART = TRUE { APPMODE = M; APPMODE = N; }; RESOURCE = S; RESOURCE = RES_SCHEDULER; RESOURCE = RES_SCHEDULER; };\nTASK C { PRIORITY = 0; SCHEDULE = NON; ACTIVATION = 1; AUTOSTART = FALSE; RESOURCE = R; };\nTASK D { PRIORITY = 5; SCHEDULE = FULL; ACTIVATION = 1; AUTOSTART = FALSE; };\nISR I { CATEGORY = 2; PRIORITY = 2; RESOURCE = R; };\nRESOURCE RES_SCHEDULER { RESOURCEPROPERTY = STANDARD; COLOR = RED; };\n";

fn usual() -> &'static [u8] {
    USUAL
}

fn levels() -> &'static [u8] {
    LEVELS
}

// Of a task: name, level, run level, requests, whether it starts, its internal resource, and how many others it declares.
type TaskRow = (&'static [u8], u8, u8, u8, bool, Option<u8>, usize);

fn check_tasks(rt: &impl Abort, app: &App, rows: &[TaskRow]) {
    assert_eq!(rt; app.tasks.len(), rows.len());
    for (task, row) in app.tasks.items().iter().zip(rows) {
        assert_eq!(rt; task.name.as_bytes(), row.0);
        assert_eq!(rt;
            (task.level, task.run_level, task.requests),
            (row.1, row.2, row.3)
        );
        assert_eq!(rt;
            (task.autostart, task.internal, task.declares.len()),
            (row.4, row.5, row.6)
        );
    }
}

fn check_resources(rt: &impl Abort, app: &App, rows: &[(&'static [u8], bool, u8)]) {
    assert_eq!(rt; app.resources.len(), rows.len());
    for (resource, row) in app.resources.items().iter().zip(rows) {
        assert_eq!(rt; resource.name.as_bytes(), row.0);
        assert_eq!(rt; (resource.internal, resource.ceiling), (row.1, row.2));
    }
}

fn check_notes(rt: &impl Abort, app: &App, rows: &[(u8, u32, u32)]) {
    assert_eq!(rt; app.notes.len(), rows.len());
    for (note, row) in app.notes.items().iter().zip(rows) {
        assert_eq!(rt; (note.number, note.place.line, note.place.column), *row);
    }
}

#[test]
fn the_usual_application_is_described(rt: HostRuntime) -> Result<(), Fail> {
    let text = Text::from_bytes(rt.alloc(), usual())?;
    let tree = tree_of(rt.alloc(), &text)?;
    let app = app_of(rt.alloc(), &tree, None).map_err(|_| "refused")?;
    assert_eq!(rt; app.mode.as_bytes(), b"Normal".as_slice());
    assert_eq!(rt; (app.class, app.res_scheduler), (Class::Bcc2, false));
    check_tasks(
        &rt,
        &app,
        &[
            (b"Init", 6, 6, 1, true, None, 0),
            (b"Control", 3, 3, 3, false, None, 1),
            (b"Log", 2, 2, 3, false, None, 0),
        ],
    );
    check_resources(&rt, &app, &[(b"Buf", false, 68)]);
    check_notes(&rt, &app, &[(3, 2, 1), (4, 3, 1), (2, 18, 5), (1, 28, 3)]);
    Ok(())
}

#[test]
fn levels_and_numbers_are_found(rt: HostRuntime) -> Result<(), Fail> {
    let tree = tree_with(rt.alloc(), levels())?;
    let mode = Text::from_bytes(rt.alloc(), b"N")?;
    let app = app_of(rt.alloc(), &tree, Some(&mode)).map_err(|_| "refused")?;
    assert_eq!(rt; app.mode.as_bytes(), b"N".as_slice());
    assert_eq!(rt; (app.class, app.res_scheduler), (Class::Bcc1, true));
    check_tasks(
        &rt,
        &app,
        &[
            (b"A", 2, 4, 1, true, Some(1), 1),
            (b"B", 4, 4, 1, true, Some(1), 1),
            (b"C", 1, 6, 1, false, None, 1),
            (b"D", 6, 6, 1, false, None, 0),
        ],
    );
    check_resources(&rt, &app, &[(b"R", false, 66), (b"S", true, 4)]);
    check_notes(&rt, &app, &[(6, 3, 17), (5, 13, 1), (2, 13, 55)]);
    for task in app.tasks.items() {
        if task.name.as_bytes() == b"B".as_slice() {
            assert_eq!(rt; task.declares.items(), [2].as_slice());
        }
    }
    for routine in app.routines.items() {
        assert_eq!(rt; routine.level, 66);
        assert_eq!(rt; routine.declares.items(), [0].as_slice());
    }
    Ok(())
}
