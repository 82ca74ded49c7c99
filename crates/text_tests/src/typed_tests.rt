// Worked typed units, in words.
use crate::c_types_tests::{app, app_in, typed};
use application::app::App;
use chk_base::place::Place;
use chk_base::text::Name;
use chk_base::word::Width;
use std::alloc::{AllocError, Global};
use std::test::Fail;
use typed_unit::typed::{
    CType, GlobalVar, Locals, Taker, TypedBranch, TypedEntity, TypedExpr, TypedFunction,
    TypedStatement, TypedUnit,
};

fn type_text(t: CType) -> &'static str {
    match (t.width, t.signed) {
        (Width::W1, false) => "bool",
        (Width::W8, false) => "uint8",
        (Width::W16, false) => "uint16",
        (Width::W32, false) => "uint32",
        (Width::W1, true) => "a signed bit",
        (Width::W8, true) => "int8",
        (Width::W16, true) => "int16",
        (Width::W32, true) => "int32",
    }
}

// An expression: its column, its type, what it is, and its operands.
fn shown(alloc: Global, e: &TypedExpr) -> Result<String, AllocError> {
    let at = format!(in alloc; "{}:{}", e.place().column, type_text(e.ctype()))?;
    match e {
        TypedExpr::Number(_, _, bits) => format!(in alloc; "{at} {bits}"),
        TypedExpr::Truth(_, _, value) => format!(in alloc; "{at} {value}"),
        TypedExpr::Local(_, _, local) => format!(in alloc; "{at} l{local}"),
        TypedExpr::Global(_, _, global) => format!(in alloc; "{at} g{global}"),
        TypedExpr::Element {
            global,
            len,
            index,
            ..
        } => format!(in alloc; "{at} g{global}[{len}] {}", shown(alloc, index.get())?),
        TypedExpr::Parenthesis(_, _, a) => format!(in alloc; "{at} () {}", shown(alloc, a.get())?),
        TypedExpr::Unary(_, _, op, a) => {
            format!(in alloc; "{at} {op:?} {}", shown(alloc, a.get())?)
        }
        TypedExpr::Cast(_, _, a) => format!(in alloc; "{at} cast {}", shown(alloc, a.get())?),
        TypedExpr::Binary(_, _, op, a, b) => {
            format!(in alloc;
                "{at} {op:?} {} {}",
                shown(alloc, a.get())?,
                shown(alloc, b.get())?
            )
        }
        TypedExpr::Conditional(_, _, c, a, b) => {
            let c = shown(alloc, c.get())?;
            format!(in alloc;
                "{at} ? {c} {} {}",
                shown(alloc, a.get())?,
                shown(alloc, b.get())?
            )
        }
        TypedExpr::Conversion(_, _, a) => format!(in alloc; "{at} from {}", shown(alloc, a.get())?),
    }
}

// Variables of each type, and an array.
const VARIABLES: &str =
    "int8_t a; int16_t b; int32_t c; uint8_t d; uint16_t e; uint32_t f; bool g; uint8_t h[5];\n";

fn variables() -> &'static str {
    VARIABLES
}

// What an assertion asserts, which stands in column 8.
fn asserted(alloc: Global, app: &App, expression: &str) -> Result<String, Fail> {
    let text = format!(in alloc; "{}TASK(T) {{\nassert({expression});\n}}\n", variables())?;
    let unit = typed(alloc, app, text.as_bytes())?;
    let entity = unit.entities.get(0).ok_or("no body")?;
    match entity.body.get(0) {
        Some(TypedStatement::Assert { condition, .. }) => Ok(shown(alloc, condition)?),
        _ => Err(Fail::from("no assertion")),
    }
}

const EXPRESSIONS: [(&str, &str); 27] = [
    ("1", "8:int32 1"),
    ("1U", "8:uint32 1"),
    ("0x7fffffff", "8:int32 2147483647"),
    ("0x80000000", "8:uint32 2147483648"),
    ("true", "8:int32 true"),
    ("g", "8:bool g6"),
    (
        "(a) * b",
        "12:int32 Multiply 8:int32 from 8:int8 () 9:int8 g0 14:int32 from 14:int16 g1",
    ),
    ("h[a]", "8:uint8 g7[5] 10:int32 from 10:int8 g0"),
    ("h[f]", "8:uint8 g7[5] 10:uint32 g5"),
    ("+c", "8:int32 Plus 9:int32 g2"),
    ("-f", "8:uint32 Minus 9:uint32 g5"),
    ("~e", "8:int32 Complement 9:int32 from 9:uint16 g4"),
    ("!f", "8:int32 Not 9:uint32 g5"),
    ("!g", "8:int32 Not 9:int32 from 9:bool g6"),
    ("(int8_t) f", "8:int8 cast 17:uint32 g5"),
    ("(bool) 7", "8:bool cast 15:int32 7"),
    (
        "a << f",
        "10:int32 ShiftLeft 8:int32 from 8:int8 g0 13:uint32 g5",
    ),
    (
        "f >> a",
        "10:uint32 ShiftRight 8:uint32 g5 13:int32 from 13:int8 g0",
    ),
    (
        "f < c",
        "10:int32 Less 8:uint32 g5 12:uint32 from 12:int32 g2",
    ),
    (
        "g == true",
        "10:int32 Equal 8:int32 from 8:bool g6 13:int32 true",
    ),
    (
        "a < b < f",
        "14:int32 Less 10:uint32 from 10:int32 Less 8:int32 from 8:int8 g0 12:int32 from 12:int16 g1 16:uint32 g5",
    ),
    (
        "f && d",
        "10:int32 LogicalAnd 8:uint32 g5 13:int32 from 13:uint8 g3",
    ),
    (
        "c || g",
        "10:int32 LogicalOr 8:int32 g2 13:int32 from 13:bool g6",
    ),
    (
        "d ? f : a",
        "10:uint32 ? 8:int32 from 8:uint8 g3 12:uint32 g5 16:uint32 from 16:int32 from 16:int8 g0",
    ),
    (
        "f ? a : b",
        "10:int32 ? 8:uint32 g5 12:int32 from 12:int8 g0 16:int32 from 16:int16 g1",
    ),
    (
        "a + b * f",
        "10:uint32 Add 8:uint32 from 8:int32 from 8:int8 g0 14:uint32 Multiply 12:uint32 from 12:int32 from 12:int16 g1 16:uint32 g5",
    ),
    (
        "a ^ c | d & e",
        "14:int32 Or 10:int32 Xor 8:int32 from 8:int8 g0 12:int32 g2 18:int32 And 16:int32 from 16:uint8 g3 20:int32 from 20:uint16 g4",
    ),
];

fn expressions() -> &'static [(&'static str, &'static str)] {
    &EXPRESSIONS
}

#[test]
fn expressions_have_their_types_and_conversions(rt: HostRuntime) -> Result<(), Fail> {
    let app = app(rt.alloc())?;
    for (expression, expected) in expressions() {
        let answer = asserted(rt.alloc(), &app, expression)?;
        assert!(rt; answer.as_str() == *expected, "{answer}");
    }
    Ok(())
}

// A variable, what it is, and the types that it is converted to one after the other, the last first: to be joined with an operand that
// isn't uint32, and with one that is.
type Operand = (
    &'static str,
    &'static str,
    &'static [&'static str],
    &'static [&'static str],
);

const OPERANDS: [Operand; 7] = [
    ("a", "int8 g0", &["int32"], &["uint32", "int32"]),
    ("b", "int16 g1", &["int32"], &["uint32", "int32"]),
    ("c", "int32 g2", &[], &["uint32"]),
    ("d", "uint8 g3", &["int32"], &["uint32", "int32"]),
    ("e", "uint16 g4", &["int32"], &["uint32", "int32"]),
    ("f", "uint32 g5", &[], &[]),
    ("g", "bool g6", &["int32"], &["uint32", "int32"]),
];

fn operands() -> &'static [Operand] {
    &OPERANDS
}

// An operand in a column, as it is converted.
fn operand_text(
    alloc: Global,
    column: u32,
    own: &str,
    through: &[&'static str],
) -> Result<String, AllocError> {
    let mut text = String::new(alloc);
    for t in through {
        text.push_str(&format!(in alloc; "{column}:{t} from ")?)?;
    }
    text.push_str(&format!(in alloc; "{column}:{own}")?)?;
    Ok(text)
}

// The sum of two variables, as it is to be typed.
fn sum_of(alloc: Global, a: &Operand, b: &Operand) -> Result<String, AllocError> {
    if a.0 == "f" || b.0 == "f" {
        let left = operand_text(alloc, 8, a.1, a.3)?;
        format!(in alloc;
            "10:uint32 Add {left} {};",
            operand_text(alloc, 12, b.1, b.3)?
        )
    } else {
        let left = operand_text(alloc, 8, a.1, a.2)?;
        format!(in alloc;
            "10:int32 Add {left} {};",
            operand_text(alloc, 12, b.1, b.2)?
        )
    }
}

// The sums of a variable and each of the others, as they are to be typed.
fn sums_of(alloc: Global, a: &Operand) -> Result<String, AllocError> {
    let mut text = String::new(alloc);
    for b in operands() {
        text.push_str(&sum_of(alloc, a, b)?)?;
    }
    Ok(text)
}

// The same, as they are typed.
fn sums_typed(alloc: Global, app: &App, a: &Operand) -> Result<String, Fail> {
    let mut text = String::new(alloc);
    for b in operands() {
        let sum = asserted(alloc, app, &format!(in alloc; "{} + {}", a.0, b.0)?)?;
        text.push_str(&format!(in alloc; "{sum};")?)?;
    }
    Ok(text)
}

#[test]
fn each_pair_of_types_is_joined(rt: HostRuntime) -> Result<(), Fail> {
    let app = app(rt.alloc())?;
    for a in operands() {
        let answer = sums_typed(rt.alloc(), &app, a)?;
        let expected = sums_of(rt.alloc(), a)?;
        assert!(rt; answer.as_str() == expected.as_str(), "{answer}");
    }
    Ok(())
}

fn place_text(alloc: Global, place: Place) -> Result<String, AllocError> {
    format!(in alloc; "{}:{}", place.line, place.column)
}

fn optional_text(alloc: Global, e: &Option<TypedExpr>) -> Result<String, AllocError> {
    match e {
        None => format!(in alloc; "-"),
        Some(e) => shown(alloc, e),
    }
}

fn taker_text(alloc: Global, taker: Taker) -> Result<String, AllocError> {
    format!(in alloc; "l{}:{}", taker.local, type_text(taker.ctype))
}

fn call_text(
    alloc: Global,
    column: u32,
    function: usize,
    arguments: &[TypedExpr],
    taker: Option<Taker>,
) -> Result<String, AllocError> {
    let mut text = format!(in alloc; "call f{function} {column}")?;
    for e in arguments {
        text.push_str(&format!(in alloc; " ({})", shown(alloc, e)?)?)?;
    }
    match taker {
        None => {}
        Some(taker) => text.push_str(&format!(in alloc; " {}", taker_text(alloc, taker)?)?)?,
    }
    Ok(text)
}

// A statement without statements in it.
fn simple_text(alloc: Global, statement: &TypedStatement) -> Result<String, AllocError> {
    match statement {
        TypedStatement::Set { local, value, .. } => {
            format!(in alloc; "l{local} = {}", shown(alloc, value)?)
        }
        TypedStatement::Write { global, value, .. } => {
            format!(in alloc; "g{global} = {}", shown(alloc, value)?)
        }
        TypedStatement::WriteElement {
            global,
            len,
            index,
            value,
            ..
        } => {
            let index = shown(alloc, index)?;
            format!(in alloc; "g{global}[{len}] {index} = {}", shown(alloc, value)?)
        }
        TypedStatement::Input { taker, .. } => {
            format!(in alloc; "input {}", taker_text(alloc, *taker)?)
        }
        TypedStatement::Call {
            name,
            function,
            arguments,
            taker,
            ..
        } => call_text(alloc, name.column, *function, arguments.as_slice(), *taker),
        TypedStatement::Service {
            service,
            argument: None,
            ..
        } => format!(in alloc; "{service:?}"),
        TypedStatement::Service {
            service,
            argument: Some(argument),
            ..
        } => format!(in alloc; "{service:?} {}", argument.column),
        TypedStatement::Assert { condition, .. } => {
            format!(in alloc; "assert {}", shown(alloc, condition)?)
        }
        TypedStatement::Return { value, .. } => {
            format!(in alloc; "return {}", optional_text(alloc, value)?)
        }
        _ => format!(in alloc; "statements"),
    }
}

fn place_of(statement: &TypedStatement) -> Place {
    match statement {
        TypedStatement::Set { place, .. } => *place,
        TypedStatement::Write { place, .. } => *place,
        TypedStatement::WriteElement { place, .. } => *place,
        TypedStatement::Input { place, .. } => *place,
        TypedStatement::Call { place, .. } => *place,
        TypedStatement::Service { place, .. } => *place,
        TypedStatement::Assert { place, .. } => *place,
        TypedStatement::If { place, .. } => *place,
        TypedStatement::While { place, .. } => *place,
        TypedStatement::For { place, .. } => *place,
        TypedStatement::Return { place, .. } => *place,
        TypedStatement::Block { place, .. } => *place,
    }
}

#[cycle(texts)]
fn statement_text(alloc: Global, statement: &TypedStatement) -> Result<String, AllocError> {
    let at = place_text(alloc, place_of(statement))?;
    match statement {
        TypedStatement::If {
            branches,
            otherwise: None,
            ..
        } => format!(in alloc; "{at} if{}", branches_text(alloc, branches.as_slice())?),
        TypedStatement::If {
            branches,
            otherwise: Some(body),
            ..
        } => {
            let branches = branches_text(alloc, branches.as_slice())?;
            format!(in alloc;
                "{at} if{branches} else {}",
                block_text(alloc, body.as_slice())?
            )
        }
        TypedStatement::While {
            condition,
            body,
            ..
        } => {
            let condition = shown(alloc, condition)?;
            format!(in alloc;
                "{at} while {condition} {}",
                block_text(alloc, body.as_slice())?
            )
        }
        TypedStatement::For {
            start,
            condition,
            step,
            body,
            ..
        } => {
            let start = block_text(alloc, start.as_slice())?;
            let condition = optional_text(alloc, condition)?;
            let step = block_text(alloc, step.as_slice())?;
            let body = block_text(alloc, body.as_slice())?;
            format!(in alloc; "{at} for {start} {condition} {step} {body}")
        }
        TypedStatement::Block { body, .. } => {
            format!(in alloc; "{at} {}", block_text(alloc, body.as_slice())?)
        }
        _ => format!(in alloc; "{at} {}", simple_text(alloc, statement)?),
    }
}

#[cycle(texts)]
fn block_text(alloc: Global, statements: &[TypedStatement]) -> Result<String, AllocError> {
    let mut text = format!(in alloc; "{{")?;
    for s in statements {
        text.push_str(&format!(in alloc; " {};", statement_text(alloc, s)?)?)?;
    }
    text.push_str(" }")?;
    Ok(text)
}

#[cycle(texts)]
fn branches_text(alloc: Global, branches: &[TypedBranch]) -> Result<String, AllocError> {
    let mut text = String::new(alloc);
    for b in branches {
        let at = place_text(alloc, b.place)?;
        let condition = shown(alloc, &b.condition)?;
        let body = block_text(alloc, b.block.as_slice())?;
        text.push_str(&format!(in alloc; " {at} {condition} {body}")?)?;
    }
    Ok(text)
}

fn name_text(alloc: Global, name: &Name) -> Result<String, AllocError> {
    String::from_utf8_lossy(alloc, name.text.as_bytes())
}

fn locals_text(alloc: Global, locals: &Locals) -> Result<String, AllocError> {
    let mut text = String::new(alloc);
    for l in locals.as_slice() {
        let name = name_text(alloc, &l.name)?;
        text.push_str(&format!(in alloc; " {name}:{}", type_text(l.ctype))?)?;
    }
    Ok(text)
}

fn result_text(gives: Option<CType>) -> &'static str {
    match gives {
        None => "void",
        Some(t) => type_text(t),
    }
}

// A function: its name, its result, its number of parameters, its locals, its body and its end.
fn function_text(alloc: Global, f: &TypedFunction) -> Result<String, AllocError> {
    let name = name_text(alloc, &f.name)?;
    let locals = locals_text(alloc, &f.locals)?;
    let body = block_text(alloc, f.body.as_slice())?;
    let close = place_text(alloc, f.close)?;
    format!(in alloc;
        "{name} {} {}{locals} {body} {close}\n",
        result_text(f.result),
        f.params
    )
}

// A body: whose it is, by kind, name and number, its locals, what it does and its end.
fn entity_text(alloc: Global, e: &TypedEntity) -> Result<String, AllocError> {
    let name = name_text(alloc, &e.name)?;
    let locals = locals_text(alloc, &e.locals)?;
    let body = block_text(alloc, e.body.as_slice())?;
    let close = place_text(alloc, e.close)?;
    format!(in alloc;
        "{:?} {name} {:?}{locals} {body} {close}\n",
        e.kind, e.entity
    )
}

// A variable: its name, its type, its length and what it begins with.
fn global_text(alloc: Global, g: &GlobalVar) -> Result<String, AllocError> {
    let name = name_text(alloc, &g.name)?;
    let mut text = format!(in alloc; "{name} {} {:?}", type_text(g.ctype), g.len)?;
    for value in g.start.items() {
        text.push_str(&format!(in alloc; " {value}")?)?;
    }
    text.push('\n')?;
    Ok(text)
}

fn globals_text(alloc: Global, unit: &TypedUnit) -> Result<String, AllocError> {
    let mut text = String::new(alloc);
    for g in unit.globals.as_slice() {
        text.push_str(&global_text(alloc, g)?)?;
    }
    Ok(text)
}

fn functions_text(alloc: Global, unit: &TypedUnit) -> Result<String, AllocError> {
    let mut text = String::new(alloc);
    for f in unit.functions.as_slice() {
        text.push_str(&function_text(alloc, f)?)?;
    }
    Ok(text)
}

fn entities_text(alloc: Global, unit: &TypedUnit) -> Result<String, AllocError> {
    let mut text = String::new(alloc);
    for e in unit.entities.as_slice() {
        text.push_str(&entity_text(alloc, e)?)?;
    }
    Ok(text)
}

// What a text is typed as: its functions, its bodies and its end.
fn bodies_text(alloc: Global, app: &App, text: &str) -> Result<String, Fail> {
    let unit = typed(alloc, app, text.as_bytes())?;
    let functions = functions_text(alloc, &unit)?;
    let entities = entities_text(alloc, &unit)?;
    Ok(format!(in alloc; "{functions}{entities}{}", place_text(alloc, unit.end)?)?)
}

// The variables of the texts below, in their first line.
const GLOBALS: &str = "uint8_t u; int32_t i; uint32_t w; bool b; uint16_t h[4];\n";

fn globals() -> &'static str {
    GLOBALS
}

const BODIES: [(&str, &str); 6] = [
    (
        "void t(int8_t x, uint16_t y) {\nx = y;\nu = x;\nh[x] = w;\nx += w;\nu++;\n--i;\nh[0] = -1;\n}\n",
        "t void 2 x:int8 y:uint16 { 3:1 l0 = 5:int8 from 5:uint16 l1; 4:1 g0 = 5:uint8 from 5:int8 l0; 5:1 g4[4] 3:int32 from 3:int8 l0 = 8:uint16 from 8:uint32 g2; 6:1 l0 = 1:int8 from 1:uint32 Add 1:uint32 from 1:int32 from 1:int8 l0 6:uint32 g2; 7:1 g0 = 1:uint8 from 1:int32 Add 1:int32 from 1:uint8 g0 1:int32 1; 8:1 g1 = 1:int32 Subtract 1:int32 g1 1:int32 1; 9:1 g4[4] 3:int32 0 = 8:uint16 from 8:int32 Minus 9:int32 1; } 10:1\n11:1",
    ),
    (
        "TASK(T) {\nuint8_t a = 1, c = a;\n{ int a = c; a = a; }\nfor (int a = 2; a < c; a++) { int a = 3; c = a; }\nu = a;\n}\n",
        "Task T Some(Entity(0)) a:uint8 c:uint8 a:int32 a:int32 a:int32 { 3:9 l0 = 13:uint8 from 13:int32 1; 3:16 l1 = 20:uint8 l0; 4:1 { 4:7 l2 = 11:int32 from 11:uint8 l1; 4:14 l2 = 18:int32 l2; }; 5:1 for { 5:10 l3 = 14:int32 2; } 19:int32 Less 17:int32 l3 21:int32 from 21:uint8 l1 { 5:24 l3 = 24:int32 Add 24:int32 l3 24:int32 1; } { 5:35 l4 = 39:int32 3; 5:42 l1 = 46:uint8 from 46:int32 l4; }; 6:1 g0 = 5:uint8 l0; } 7:1\n8:1",
    ),
    (
        "int8_t f(int8_t p, unsigned q) { return q; }\nTASK(T) {\nint x = f(u, 1);\nx = f(x, x);\nf(1, w);\nx = oschk_input();\nbool z = oschk_input();\n}\n",
        "f int8 2 p:int8 q:uint32 { 2:34 return 41:int8 from 41:uint32 l1; } 2:44\nTask T Some(Entity(0)) x:int32 z:bool { 4:5 call f0 9 (11:int8 from 11:uint8 g0) (14:uint32 from 14:int32 1) l0:int32; 5:1 call f0 5 (7:int8 from 7:int32 l0) (10:uint32 from 10:int32 l0) l0:int32; 6:1 call f0 1 (3:int8 from 3:int32 1) (6:uint32 g2); 7:1 input l0:int32; 8:6 input l1:bool; } 9:1\n10:1",
    ),
    (
        "ISR(I) {\nGetResource(R);\nReleaseResource(RES_SCHEDULER);\nActivateTask(T);\nChainTask(T);\nTerminateTask();\nSchedule();\nDisableAllInterrupts();\nEnableAllInterrupts();\nSuspendAllInterrupts();\nResumeAllInterrupts();\nSuspendOSInterrupts();\nResumeOSInterrupts();\n}\nTASK(I) { }",
        "Isr I Some(Entity(1)) { 3:1 Get(0) 13; 4:1 Release(1) 17; 5:1 Activate(Entity(0)) 14; 6:1 Chain(Entity(0)) 11; 7:1 Terminate; 8:1 Schedule; 9:1 DisableAll; 10:1 EnableAll; 11:1 SuspendAll; 12:1 ResumeAll; 13:1 SuspendOs; 14:1 ResumeOs; } 15:1\nTask I None { } 16:11\n16:12",
    ),
    (
        "void v() {\nif (u) { ; } else if (w) { return; } else { b = w; }\nif (b) { }\nwhile (u < 3) { ; ; u += 1; }\nfor (;;) { }\nfor (u = 1; ; u = 2) { }\nassert(b);\n}\n",
        "v void 0 { 3:1 if 3:1 5:uint8 g0 { } 3:19 23:uint32 g2 { 3:28 return -; } else { 3:45 g3 = 49:bool from 49:uint32 g2; }; 4:1 if 4:1 5:bool g3 { }; 5:1 while 10:int32 Less 8:int32 from 8:uint8 g0 12:int32 3 { 5:21 g0 = 21:uint8 from 21:int32 Add 21:int32 from 21:uint8 g0 26:int32 1; }; 6:1 for { } - { } { }; 7:1 for { 7:6 g0 = 10:uint8 from 10:int32 1; } - { 7:15 g0 = 19:uint8 from 19:int32 2; } { }; 8:1 assert 8:bool g3; } 9:1\n10:1",
    ),
    (
        "bool f() { return w; }\nunsigned g() { return 1; }\n",
        "f bool 0 { 2:12 return 19:bool from 19:uint32 g2; } 2:22\ng uint32 0 { 3:16 return 23:uint32 from 23:int32 1; } 3:26\n4:1",
    ),
];

fn bodies() -> &'static [(&'static str, &'static str)] {
    &BODIES
}

#[test]
fn bodies_are_typed(rt: HostRuntime) -> Result<(), Fail> {
    let app = app(rt.alloc())?;
    for (text, expected) in bodies() {
        let text = format!(in rt.alloc(); "{}{text}", globals())?;
        let answer = bodies_text(rt.alloc(), &app, &text)?;
        assert!(rt; answer.as_str() == *expected, "{answer}");
    }
    Ok(())
}

const STARTS: (&str, &str) = (
    "int8_t a = -1; bool b = 2, z = false; uint16_t c[3] = { 65537, -2, };\nunsigned d = -2147483647, e; const int f = true, g[1];\n",
    "a int8 None 255\nb bool None 1\nz bool None 0\nc uint16 Some(3) 1 65534 0\nd uint32 None 2147483649\ne uint32 None 0\nf int32 None 1\ng int32 Some(1) 0\n",
);

fn starts() -> (&'static str, &'static str) {
    STARTS
}

#[test]
fn constants_are_converted(rt: HostRuntime) -> Result<(), Fail> {
    let app = app(rt.alloc())?;
    let (text, expected) = starts();
    let unit = typed(rt.alloc(), &app, text.as_bytes())?;
    let answer = globals_text(rt.alloc(), &unit)?;
    assert!(rt; answer.as_str() == expected, "{answer}");
    Ok(())
}

// The usual application: two texts, and the bodies and the variables that they are typed as.
const USUAL_OIL: &str = r#"OIL_VERSION = "2.5" : "usual";
#include "vendor.oil"
IMPLEMENTATION Vendor {
  OS { BOOLEAN USERESSCHEDULER = TRUE; };
  TASK { UINT32 [0..255] PRIORITY; UINT32 STACKSIZE = 256; };
};
CPU Board {
  OS Os {
    STATUS = EXTENDED;
    STARTUPHOOK = FALSE; ERRORHOOK = FALSE; SHUTDOWNHOOK = FALSE;
    PRETASKHOOK = FALSE; POSTTASKHOOK = FALSE; USERESSCHEDULER = FALSE;
  };
  APPMODE Normal { };
  RESOURCE Buf { RESOURCEPROPERTY = STANDARD; };
  TASK Init {
    PRIORITY = 5; SCHEDULE = FULL; ACTIVATION = 1;
    AUTOSTART = TRUE { APPMODE = Normal; };
    STACKSIZE = 128;
  };
  TASK Control {
    PRIORITY = 2; SCHEDULE = FULL; ACTIVATION = 3;
    AUTOSTART = FALSE; RESOURCE = Buf;
  };
  TASK Log {
    PRIORITY = 1; SCHEDULE = FULL; ACTIVATION = 3; AUTOSTART = FALSE;
  };
  ISR Adc { CATEGORY = 2; PRIORITY = 4; RESOURCE = Buf; };
  COUNTER Tick { MAXALLOWEDVALUE = 99; TICKSPERBASE = 1; MINCYCLE = 1; };
};
"#;

const USUAL: &str = r#"#include "os.h"
#define SIZE 4
DeclareTask(Control);
DeclareTask(Log);
DeclareResource(Buf);

static uint16_t samples[SIZE];
static uint8_t count;
static uint8_t logged;
static uint16_t last;

static void store(uint16_t v) {
  if (count < SIZE) {
    samples[count] = v;
    count = count + 1;
  }
}

ISR(Adc) {
  uint16_t v = oschk_input();
  GetResource(Buf);
  store(v);
  ReleaseResource(Buf);
  ActivateTask(Control);
}

TASK(Init) {
  count = 0;
  logged = 0;
  ActivateTask(Control);
  TerminateTask();
}

TASK(Control) {
  uint8_t n = 0;
  GetResource(Buf);
  n = count;
  if (n > 0) {
    last = samples[n - 1];
    count = n - 1;
  }
  assert(count < SIZE);
  ReleaseResource(Buf);
  ActivateTask(Log);
  TerminateTask();
}

TASK(Log) {
  logged = logged + 1;
  assert(logged <= 3);
  TerminateTask();
}
"#;

const USUAL_TYPED: &str =
    "store void 1 v:uint16 { 13:3 if 13:3 13:int32 Less 7:int32 from 7:uint8 g1 15:int32 4 { 14:5 g0[4] 13:int32 from 13:uint8 g1 = 22:uint16 l0; 15:5 g1 = 19:uint8 from 19:int32 Add 13:int32 from 13:uint8 g1 21:int32 1; }; } 17:1\nIsr Adc Some(Entity(3)) v:uint16 { 20:12 input l0:uint16; 21:3 Get(0) 15; 22:3 call f0 3 (9:uint16 l0); 23:3 Release(0) 19; 24:3 Activate(Entity(1)) 16; } 25:1\nTask Init Some(Entity(0)) { 28:3 g1 = 11:uint8 from 11:int32 0; 29:3 g2 = 12:uint8 from 12:int32 0; 30:3 Activate(Entity(1)) 16; 31:3 Terminate; } 32:1\nTask Control Some(Entity(1)) n:uint8 { 35:11 l0 = 15:uint8 from 15:int32 0; 36:3 Get(0) 15; 37:3 l0 = 7:uint8 g1; 38:3 if 38:3 9:int32 Greater 7:int32 from 7:uint8 l0 11:int32 0 { 39:5 g3 = 12:uint16 g0[4] 22:int32 Subtract 20:int32 from 20:uint8 l0 24:int32 1; 40:5 g1 = 15:uint8 from 15:int32 Subtract 13:int32 from 13:uint8 l0 17:int32 1; }; 42:3 assert 16:int32 Less 10:int32 from 10:uint8 g1 18:int32 4; 43:3 Release(0) 19; 44:3 Activate(Entity(2)) 16; 45:3 Terminate; } 46:1\nTask Log Some(Entity(2)) { 49:3 g2 = 19:uint8 from 19:int32 Add 12:int32 from 12:uint8 g2 21:int32 1; 50:3 assert 17:int32 LessEqual 10:int32 from 10:uint8 g2 20:int32 3; 51:3 Terminate; } 52:1\n53:1";

fn usual() -> (&'static str, &'static str, &'static str) {
    (USUAL_OIL, USUAL, USUAL_TYPED)
}

#[test]
fn the_usual_application_is_typed(rt: HostRuntime) -> Result<(), Fail> {
    let (oil, text, expected) = usual();
    let app = app_in(rt.alloc(), oil.as_bytes())?;
    let answer = bodies_text(rt.alloc(), &app, text)?;
    assert!(rt; answer.as_str() == expected, "{answer}");
    Ok(())
}
