// Worked cases, over the texts that are read.
use app_model::build::app_of;
use application::app::App;
use c_lex::lexing::lex;
use c_parse::parse::parse;
use c_types::types::{TypeFault, type_unit};
use c_unit::unit::Unit;
use chk_base::text::Text;
use oil_text::reader::read_oil;
use std::alloc::Global;
use std::test::Fail;
use typed_unit::typed::TypedUnit;

// The application with a task T, a routine I and a resource R.
const OIL: &[u8] =
    b"OIL_VERSION = \"2.5\";\nCPU c {\nOS o { STATUS = EXTENDED; };\nAPPMODE M { };\nRESOURCE R { RESOURCEPROPERTY = STANDARD; };\nTASK T { PRIORITY = 1; SCHEDULE = FULL; ACTIVATION = 1; AUTOSTART = TRUE { APPMODE = M; }; };\nISR I { CATEGORY = 2; PRIORITY = 1; };\n};\n";

// The same with a resource that is named like a service.
const HIDING: &[u8] =
    b"OIL_VERSION = \"2.5\";\nCPU c {\nOS o { STATUS = EXTENDED; };\nAPPMODE M { };\nRESOURCE Schedule { RESOURCEPROPERTY = STANDARD; };\nTASK T { PRIORITY = 1; SCHEDULE = FULL; ACTIVATION = 1; AUTOSTART = TRUE { APPMODE = M; }; };\n};\n";

// The application of a text in OIL.
pub(crate) fn app_in(alloc: Global, oil: &[u8]) -> Result<App, Fail> {
    let text = Text::from_bytes(alloc, oil)?;
    if text.as_bytes().len() > 262_144 {
        return Err(Fail::from("too long"));
    }
    let tree = read_oil(alloc, &text).map_err(|_| Fail::from("OIL not read"))?;
    app_of(alloc, &tree, None).map_err(|_| Fail::from("no application"))
}

pub(crate) fn app(alloc: Global) -> Result<App, Fail> {
    app_in(alloc, OIL)
}

// The unit of a text, which is to be whole.
fn unit_of(alloc: Global, bytes: &[u8]) -> Result<Unit, Fail> {
    let text = Text::from_bytes(alloc, bytes)?;
    if text.as_bytes().len() > 262_144 {
        return Err(Fail::from("too long"));
    }
    let tokens = lex(alloc, &text).map_err(|_| Fail::from("no tokens"))?;
    parse(alloc, &tokens).map_err(|_| Fail::from("no unit"))
}

// What a text is typed as.
pub(crate) fn typed(alloc: Global, app: &App, text: &[u8]) -> Result<TypedUnit, Fail> {
    let unit = unit_of(alloc, text)?;
    type_unit(alloc, &unit, app).map_err(|_| Fail::from("not typed"))
}

// The first fault of a text, as number, line and column, and zeros where there is none.
fn answer_to(alloc: Global, app: &App, text: &[u8]) -> Result<(u8, u32, u32), Fail> {
    let unit = unit_of(alloc, text)?;
    match type_unit(alloc, &unit, app) {
        Ok(_) => Ok((0, 0, 0)),
        Err(TypeFault::Rule(rule, place)) => Ok((rule, place.line, place.column)),
        Err(TypeFault::Memory) => Err(Fail::from("memory")),
    }
}

// A text, and the number, line and column of its first fault; zeros where no rule is broken.
type Row = (&'static [u8], u8, u32, u32);

const ROWS: [Row; 126] = [
    // no rule is broken
    (b"TASK(T) {\n  TerminateTask();\n}\n", 0, 0, 0),
    // a service that is left out is called
    (b"TASK(T) {\n  SetEvent(T, 1);\n}\n", 1, 2, 3),
    // a function main
    (b"int main() { return 0; }\n", 1, 1, 5),
    // a name without a declaration
    (b"TASK(T) {\n  y = 1;\n  TerminateTask();\n}\n", 2, 2, 3),
    // a service that is left out as a value
    (b"int x;\nTASK(T) {\n  x = SetEvent;\n}\n", 2, 3, 7),
    // main is called without a declaration
    (b"TASK(T) {\n  main();\n}\n", 2, 2, 3),
    // a function of one's own has the name of a service that is left out
    (
        b"void SetEvent() { }\nTASK(T) {\n  SetEvent();\n}\n",
        0,
        0,
        0,
    ),
    // a local twice
    (b"TASK(T) {\n  int a = 1, a = 2;\n}\n", 3, 2, 14),
    // a parameter twice
    (b"void f(int a, int a) { }\n", 3, 1, 19),
    // a parameter and a local of the outermost block
    (b"void f(int a) { int a = 1; }\n", 3, 1, 21),
    // a local of an inner block hides a parameter
    (b"void f(int a) { { int a = 1; } }\n", 0, 0, 0),
    // a local of a for's block hides one of its head
    (
        b"TASK(T) {\n  for (int i = 0; i < 2; i++) {\n    int i = 1;\n  }\n}\n",
        0,
        0,
        0,
    ),
    // a name of file level twice
    (b"int a;\nint a;\n", 3, 2, 5),
    // the name of a task
    (b"int T;\n", 3, 1, 5),
    // the name of a service
    (b"int Schedule;\n", 3, 1, 5),
    // the name of the input
    (b"int oschk_input;\n", 3, 1, 5),
    // a function as a value
    (
        b"int x;\nint f() { return 1; }\nTASK(T) {\n  x = f;\n}\n",
        4,
        4,
        7,
    ),
    // a variable is called
    (b"int x;\nTASK(T) {\n  x();\n}\n", 4, 3, 3),
    // a function with too few arguments
    (b"void f(int a) { }\nTASK(T) {\n  f();\n}\n", 5, 3, 3),
    // a service with an argument too many
    (b"TASK(T) {\n  Schedule(1);\n}\n", 5, 2, 3),
    // no element
    (b"int a[0];\n", 6, 1, 7),
    // too many elements
    (b"int a[65];\n", 6, 1, 7),
    // 64 elements
    (b"int a[64];\n", 0, 0, 0),
    // a constant too many
    (b"int a[1] = { 1, 2 };\n", 7, 1, 17),
    // a const target
    (b"const int x = 1;\nTASK(T) {\n  x = 2;\n}\n", 8, 3, 3),
    // a const array without an index as a target
    (
        b"const int x[1] = { 1 };\nTASK(T) {\n  x = 2;\n}\n",
        8,
        3,
        3,
    ),
    // a local that isn't set
    (b"TASK(T) {\n  uint8_t v;\n}\n", 9, 2, 11),
    // an array without an index
    (b"int a[2];\nint x;\nTASK(T) {\n  x = a;\n}\n", 10, 4, 7),
    // a scalar with an index
    (b"int x;\nTASK(T) {\n  x[0] = 1;\n}\n", 10, 3, 3),
    // a result to a global
    (
        b"int g;\nint f() { return 1; }\nTASK(T) {\n  g = f();\n}\n",
        11,
        4,
        7,
    ),
    // no result to a global
    (
        b"int g;\nvoid f() { }\nTASK(T) {\n  g = f();\n}\n",
        11,
        4,
        7,
    ),
    // an input to a global
    (b"int g;\nTASK(T) {\n  g = oschk_input();\n}\n", 11, 3, 7),
    // an input that isn't taken
    (b"TASK(T) {\n  oschk_input();\n}\n", 11, 2, 3),
    // no result to a local
    (b"void f() { }\nTASK(T) {\n  int a = f();\n}\n", 12, 3, 11),
    // a value is returned where there is no result
    (b"void f() { return 1; }\n", 13, 1, 12),
    // no value is returned where there is a result
    (b"int f() { return; }\n", 13, 1, 11),
    // a value is returned by a task
    (b"TASK(T) {\n  return 1;\n}\n", 13, 2, 3),
    // an empty body with a result
    (b"int f() { }\n", 14, 1, 11),
    // the last statement is a block
    (b"int f() { { return 1; } }\n", 14, 1, 25),
    // the last statement is empty
    (b"int f() { return 1;; }\n", 14, 1, 22),
    // a resource in place of a task
    (b"TASK(T) {\n  ActivateTask(R);\n}\n", 15, 2, 16),
    // an argument that isn't a bare name
    (b"TASK(T) {\n  GetResource((R));\n}\n", 15, 2, 15),
    // an argument that a local hides
    (
        b"TASK(T) {\n  int T = 1;\n  ActivateTask(T);\n}\n",
        15,
        3,
        16,
    ),
    // the lesser number at one place
    (b"TASK(T) {\n  ActivateTask(y + 1);\n}\n", 2, 2, 16),
    // the scheduler as a resource
    (b"TASK(T) {\n  GetResource(RES_SCHEDULER);\n}\n", 0, 0, 0),
    // the result of a service
    (b"TASK(T) {\n  int a = Schedule();\n}\n", 16, 2, 11),
    // a service as a value
    (b"TASK(T) {\n  int a = Schedule + 1;\n}\n", 16, 2, 11),
    // a routine is declared as a task
    (b"DeclareTask(I);\n", 17, 1, 13),
    // a resource that there isn't is declared
    (b"DeclareResource(X);\n", 17, 1, 17),
    // the scheduler is declared as a resource
    (b"DeclareResource(RES_SCHEDULER);\n", 0, 0, 0),
    // a prototype that differs
    (b"void f(int a);\nvoid f() { }\n", 18, 1, 6),
    // a prototype of no function
    (b"void f(int a);\n", 0, 0, 0),
    // a prototype with other names
    (b"void f(int b);\nvoid f(int a) { }\n", 0, 0, 0),
    // nine parameters
    (
        b"void f(int a, int b, int c, int d, int e, int g, int h, int i, int j) { }\n",
        19,
        1,
        68,
    ),
    // a task as a value
    (b"int x;\nTASK(T) {\n  x = T;\n}\n", 20, 3, 7),
    // a task is called
    (b"TASK(T) {\n  T();\n}\n", 20, 2, 3),
    // a name is used before it is declared
    (b"TASK(T) {\n  x = 1;\n}\nint x;\n", 0, 0, 0),
    // a local isn't visible in what it is set to
    (b"TASK(T) {\n  int a = a;\n}\n", 2, 2, 11),
    // the local of a for ends with it
    (
        b"TASK(T) {\n  for (int i = 0; i < 2; i++) { }\n  i = 1;\n}\n",
        2,
        3,
        3,
    ),
    // the lesser place before the lesser number
    (b"TASK(T) {\n  int a;\n  y = 1;\n}\n", 9, 2, 7),
    // the empty text
    (b"", 0, 0, 0),
    // recursion is no matter here
    (
        b"void f() { f(); }\nTASK(T) {\n  TerminateTask();\n}\n",
        0,
        0,
        0,
    ),
    // each service as it is to be called
    (
        b"TASK(T) {\n  Schedule(); GetResource(R); ReleaseResource(R); DisableAllInterrupts(); EnableAllInterrupts();\n  SuspendAllInterrupts(); ResumeAllInterrupts(); SuspendOSInterrupts();\n  ActivateTask(T); ChainTask(T); TerminateTask();\n}\n",
        0,
        0,
        0,
    ),
    // a prototype of main
    (b"int main();\n", 0, 0, 0),
    // a prototype meets nothing else
    (
        b"void T(int a, int a, int b, int c, int d, int e, int f, int g, int h);\n",
        0,
        0,
        0,
    ),
    // a prototype with another result
    (b"int f();\nvoid f() { }\n", 18, 1, 5),
    // a prototype with another type of a parameter, after the function
    (b"void f(int a) { }\nvoid f(unsigned a);\n", 18, 2, 6),
    // eight parameters
    (
        b"void f(int a, int b, int c, int d, int e, int g, int h, int i) { }\n",
        0,
        0,
        0,
    ),
    // the ninth parameter has the name of the first
    (
        b"void f(int a, int b, int c, int d, int e, int g, int h, int i, int a) { }\n",
        3,
        1,
        68,
    ),
    // the name of a resource
    (b"int R;\n", 3, 1, 5),
    // a function of the name of a service
    (b"void Schedule() { }\n", 3, 1, 6),
    // a variable and a function of one name
    (b"int a;\nvoid a() { }\n", 3, 2, 6),
    // a name that is declared twice means its first declaration: a variable
    (b"TASK(T) {\n  a = 1;\n}\nint a;\nvoid a() { }\n", 3, 5, 6),
    // and a function
    (b"TASK(T) {\n  a = 1;\n}\nvoid a() { }\nint a;\n", 4, 2, 3),
    // an object stands before what the text declares
    (b"ISR(I) {\n  T = 1;\n}\nint T;\n", 20, 2, 3),
    // a service does
    (b"TASK(T) {\n  Schedule = 1;\n}\nint Schedule;\n", 16, 2, 3),
    // and the input
    (
        b"TASK(T) {\n  oschk_input = 1;\n}\nint oschk_input;\n",
        16,
        2,
        3,
    ),
    // a local hides a task
    (
        b"TASK(T) {\n  int T = 1;\n  int a = T;\n  T = a;\n}\n",
        0,
        0,
        0,
    ),
    // a local hides the scheduler
    (
        b"TASK(T) {\n  int RES_SCHEDULER = 1;\n  GetResource(RES_SCHEDULER);\n}\n",
        15,
        3,
        15,
    ),
    // a variable doesn't
    (
        b"int RES_SCHEDULER;\nTASK(T) {\n  GetResource(RES_SCHEDULER);\n}\n",
        0,
        0,
        0,
    ),
    // a local hides a function that is called
    (
        b"void f() { }\nTASK(T) {\n  int f = 1;\n  f();\n}\n",
        4,
        4,
        3,
    ),
    // a function as a target
    (b"void f() { }\nTASK(T) {\n  f = 1;\n}\n", 4, 3, 3),
    // with an index
    (b"void f() { }\nTASK(T) {\n  f[0] = 1;\n}\n", 4, 3, 3),
    // an input with an argument
    (b"TASK(T) {\n  int a = oschk_input(1);\n}\n", 5, 2, 11),
    // a wrong number of arguments, and a result to a global
    (
        b"int g;\nint f() { return 1; }\nTASK(T) {\n  g = f(1);\n}\n",
        5,
        4,
        7,
    ),
    // a wrong number of arguments, and the result of a service
    (b"TASK(T) {\n  int a = Schedule(1);\n}\n", 5, 2, 11),
    // no element, and a constant too many
    (b"int a[0] = { 1 };\n", 6, 1, 7),
    // as many constants as elements
    (b"int a[2] = { 1, 2, };\n", 0, 0, 0),
    // a negative constant too many
    (b"int a[1] = { -1, -2 };\n", 7, 1, 18),
    // a const local
    (b"TASK(T) {\n  const int a = 1;\n  a++;\n}\n", 8, 3, 3),
    // a const parameter
    (b"void f(const int a) { ++a; }\n", 8, 1, 25),
    // an element of a const array
    (
        b"const int x[1] = { 1 };\nTASK(T) {\n  x[0] = 2;\n}\n",
        8,
        3,
        3,
    ),
    // the second of two locals isn't set
    (b"TASK(T) {\n  int a = 1, b;\n}\n", 9, 2, 14),
    // a local with an index
    (b"TASK(T) {\n  int a = 1;\n  a = a[0];\n}\n", 10, 3, 7),
    // an array as a target without an index
    (b"int a[2];\nTASK(T) {\n  a = 1;\n}\n", 10, 3, 3),
    // a result to a local and one that isn't taken
    (
        b"int f() { return 1; }\nTASK(T) {\n  int a = f();\n  a = f();\n  f();\n}\n",
        0,
        0,
        0,
    ),
    // an input to a local
    (
        b"TASK(T) {\n  int a = oschk_input();\n  a = oschk_input();\n}\n",
        0,
        0,
        0,
    ),
    // a value of a name without a declaration is returned where there is no result
    (b"TASK(T) {\n  return y;\n}\n", 13, 2, 3),
    // return in the midst of a body
    (
        b"void f() { return; f(); }\nint g() { if (1) { return 1; } return 2; }\n",
        0,
        0,
        0,
    ),
    // the last statement is an if
    (
        b"int f() { if (1) { return 1; } else { return 2; } }\n",
        14,
        1,
        51,
    ),
    // an argument whose first token is a sign
    (b"TASK(T) {\n  ActivateTask(-y);\n}\n", 15, 2, 16),
    // a name without a declaration as an argument
    (b"TASK(T) {\n  ActivateTask(y);\n}\n", 15, 2, 16),
    // a task in place of a resource
    (b"TASK(T) {\n  ReleaseResource(T);\n}\n", 15, 2, 19),
    // a function as an argument
    (b"void f() { }\nTASK(T) {\n  ChainTask(f);\n}\n", 15, 3, 13),
    // the input as a value
    (b"TASK(T) {\n  assert(oschk_input);\n}\n", 16, 2, 10),
    // a task is declared as a resource
    (b"DeclareResource(T);\n", 17, 1, 17),
    // the scheduler is declared as a task
    (b"DeclareTask(RES_SCHEDULER);\n", 17, 1, 13),
    // a routine as a target
    (b"TASK(T) {\n  I++;\n}\n", 20, 2, 3),
    // a resource in an index
    (b"int a[2];\nTASK(T) {\n  a[R] = 1;\n}\n", 20, 3, 5),
    // a later name of file level doesn't hide an earlier body
    (b"TASK(T) {\n  y = 1;\n}\nint T;\n", 2, 2, 3),
    // nor does a body hide an earlier name
    (b"int T;\nTASK(T) {\n  y = 1;\n}\n", 3, 1, 5),
    // a prototype before a body
    (b"void f(int a);\nvoid f() { y = 1; }\n", 18, 1, 6),
    // a brace before a name
    (b"int f() { }\nint f;\n", 14, 1, 11),
    // a parameter before the body
    (b"void f(int a, int a) { y = 1; }\n", 3, 1, 19),
    // the target before what it is set to
    (b"TASK(T) {\n  y = z;\n}\n", 2, 2, 3),
    // a called name before its arguments
    (b"void f(int a) { }\nTASK(T) {\n  f(y, z);\n}\n", 5, 3, 3),
    // an argument of a function
    (b"void f(int a) { }\nTASK(T) {\n  f(y);\n}\n", 2, 3, 5),
    // the local of a block ends with it
    (b"TASK(T) {\n  { int i = 1; }\n  i = 1;\n}\n", 2, 3, 3),
    // that of a branch isn't one of the next
    (
        b"TASK(T) {\n  if (1) { int i = 1; }\n  else if (i) { }\n}\n",
        2,
        3,
        12,
    ),
    // nor of the last
    (
        b"TASK(T) {\n  if (1) { int i = 1; }\n  else { i = 1; }\n}\n",
        2,
        3,
        10,
    ),
    // a for's condition and step see its local
    (
        b"TASK(T) {\n  int i = 1;\n  for (int j = i; j < 2; j = j + i) { i = j; }\n}\n",
        0,
        0,
        0,
    ),
    // a for's step doesn't see its block's
    (b"TASK(T) {\n  for (;; j = 1) { int j = 1; }\n}\n", 2, 2, 11),
    // a local sees the one before it
    (b"TASK(T) {\n  int a = 1, b = a;\n}\n", 0, 0, 0),
    // the local of a while's block
    (
        b"TASK(T) {\n  while (1) { int a = 1; }\n  while (a) { }\n}\n",
        2,
        3,
        10,
    ),
    // a statement after return
    (b"TASK(T) {\n  return;\n  y = 1;\n}\n", 2, 3, 3),
    // an unused function
    (b"void f() {\n  y++;\n}\n", 2, 2, 3),
];

fn rows() -> &'static [Row] {
    &ROWS
}

#[test]
fn the_first_fault_is_answered(rt: HostRuntime) -> Result<(), Fail> {
    let app = app(rt.alloc())?;
    for (text, rule, line, column) in rows() {
        let answer = answer_to(rt.alloc(), &app, text)?;
        assert_eq!(rt; answer, (*rule, *line, *column));
    }
    Ok(())
}

#[test]
fn an_object_may_have_the_name_of_a_service(rt: HostRuntime) -> Result<(), Fail> {
    let app = app_in(rt.alloc(), HIDING)?;
    let answer = answer_to(rt.alloc(), &app, b"TASK(T) {\n  Schedule();\n}\n")?;
    assert_eq!(rt; answer, (20, 2, 3));
    Ok(())
}

// The services that are left out.
const LEFT_OUT: [&str; 14] = [
    "StartOS",
    "ShutdownOS",
    "GetTaskID",
    "GetTaskState",
    "GetActiveApplicationMode",
    "SetEvent",
    "ClearEvent",
    "GetEvent",
    "WaitEvent",
    "GetAlarmBase",
    "GetAlarm",
    "SetRelAlarm",
    "SetAbsAlarm",
    "CancelAlarm",
];

fn left_out() -> &'static [&'static str] {
    &LEFT_OUT
}

#[test]
fn services_that_are_left_out_are_not_called(rt: HostRuntime) -> Result<(), Fail> {
    let app = app(rt.alloc())?;
    for name in left_out() {
        let text = format!(in rt.alloc(); "TASK(T) {{\n  {name}(T);\n}}\n")?;
        let answer = answer_to(rt.alloc(), &app, text.as_bytes())?;
        assert_eq!(rt; answer, (1, 2, 3));
    }
    Ok(())
}
