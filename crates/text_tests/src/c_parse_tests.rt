// What no clause shows: that texts are read, and that the definitions say what is meant, over texts of C.
use c_lex::lexing::lex;
use c_parse::fault::ParseFault;
use c_parse::parse::parse;
use c_unit::expression::{Expression, RightSide, TypeName};
use c_unit::statement::{Simple, Statement};
use c_unit::unit::{External, Unit, Variable};
use chk_base::place::Place;
use chk_base::text::{Name, Text};
use std::alloc::{AllocError, Global};
use std::test::Fail;

// The unit that a text is, or its fault; none where it has no tokens.
fn parsed(alloc: Global, text: &str) -> Result<Option<Result<Unit, ParseFault>>, AllocError> {
    if text.len() > 262_144 {
        return Ok(None);
    }
    let text = Text::from_bytes(alloc, text.as_bytes())?;
    match lex(alloc, &text) {
        Ok(tokens) => Ok(Some(parse(alloc, &tokens))),
        Err(_) => Ok(None),
    }
}

fn fault_text(alloc: Global, name: &str, place: Place) -> Result<String, AllocError> {
    format!(in alloc; "{name} {}:{}", place.line, place.column)
}

// Whether a text is a unit, or else its fault.
fn outcome(alloc: Global, text: &str) -> Result<String, AllocError> {
    match parsed(alloc, text)? {
        Some(Ok(_)) => format!(in alloc; "whole"),
        Some(Err(ParseFault::Token(place))) => fault_text(alloc, "TOKEN", place),
        Some(Err(ParseFault::EndOfText(place))) => fault_text(alloc, "END", place),
        Some(Err(ParseFault::Depth(place))) => fault_text(alloc, "DEPTH", place),
        Some(Err(ParseFault::Memory)) => Err(AllocError),
        None => format!(in alloc; "no tokens"),
    }
}

// Texts of C, and their fault with its place where they have one.
const ROWS: [(&str, &str); 93] = [
    ("", "whole"),
    ("DeclareTask(a); DeclareResource(a);", "whole"),
    ("TASK(a) {} ISR(a) {}", "whole"),
    (
        "int8_t a; int16_t b; int32_t c; uint8_t d; uint16_t e; uint32_t f;",
        "whole",
    ),
    (
        "bool a; _Bool b; int c; unsigned d; unsigned int e;",
        "whole",
    ),
    ("static const volatile static int a;", "whole"),
    (
        "int a, b = 1, c[2], d[2] = {1}, e[2] = {1, -2, true,}, f = false;",
        "whole",
    ),
    (
        "void a(); static void a(void); int a(int b, const volatile bool c) {}",
        "whole",
    ),
    (
        "TASK(a) { ; {} int b; b = 1; if (b) {} while (b) {} for (;;) {} return; return b; }",
        "whole",
    ),
    (
        "TASK(a) { if (b) {} else {} if (b) {} else if (c) {} else if (d) {} else {} }",
        "whole",
    ),
    (
        "TASK(a) { const volatile int8_t b = 1, c = f(), d; }",
        "whole",
    ),
    (
        "TASK(a) { b = c; b = f(); b[1] = 2; b++; b--; ++b; --b; f(1, b + 1); assert(b); }",
        "whole",
    ),
    (
        "TASK(a) { b += 1; b -= 1; b *= 1; b /= 1; b %= 1; b &= 1; b |= 1; b ^= 1; b <<= 1; b >>= 1; }",
        "whole",
    ),
    (
        "TASK(a) { for (int b = 0, c = f(); b < 3; b++) {} for (b = f(); ; b = f()) {} }",
        "whole",
    ),
    (
        "TASK(a) { x = (int) a; x = (a); x = (unsigned int) - (a); }",
        "whole",
    ),
    (
        "uint8_t x;\nTASK(T) {\n  if (x == 1) {\n    x = 2;",
        "END 4:11",
    ),
    ("uint8_t x;\nTASK(T) {\n  x = 1 + f(2);\n}\n", "TOKEN 3:12"),
    ("1", "TOKEN 1:1"),
    (";", "TOKEN 1:1"),
    ("}", "TOKEN 1:1"),
    ("a", "TOKEN 1:1"),
    ("int", "END 1:4"),
    ("int a", "END 1:6"),
    ("int a = 1", "END 1:10"),
    ("int a)", "TOKEN 1:6"),
    ("int a b;", "TOKEN 1:7"),
    ("int a = b;", "TOKEN 1:9"),
    ("int a = -true;", "TOKEN 1:10"),
    ("int a = {1};", "TOKEN 1:9"),
    ("int a[b];", "TOKEN 1:7"),
    ("int a[4] = 1;", "TOKEN 1:12"),
    ("int a[4] = {};", "TOKEN 1:13"),
    ("int a[4] = {,};", "TOKEN 1:13"),
    ("int a[4] = {1, ,};", "TOKEN 1:16"),
    ("int a[4] = {1 2};", "TOKEN 1:15"),
    ("int a[4] = {1,", "END 1:15"),
    ("int a, ;", "TOKEN 1:8"),
    ("void a;", "TOKEN 1:7"),
    ("void a(), b;", "TOKEN 1:9"),
    ("int f(void, int a);", "TOKEN 1:11"),
    ("int f(void a);", "TOKEN 1:12"),
    ("int f(int a, );", "TOKEN 1:14"),
    ("int f(int);", "TOKEN 1:10"),
    ("int f(static int a);", "TOKEN 1:7"),
    ("int f() = 1;", "TOKEN 1:9"),
    ("unsigned unsigned a;", "TOKEN 1:10"),
    ("static TASK(a) {}", "TOKEN 1:8"),
    ("const DeclareTask(a);", "TOKEN 1:7"),
    ("DeclareTask(1);", "TOKEN 1:13"),
    ("DeclareTask(a)", "END 1:15"),
    ("ISR(a);", "TOKEN 1:7"),
    ("TASK{}", "TOKEN 1:5"),
    ("TASK(a) {", "END 1:10"),
    ("TASK(a) {}}", "TOKEN 1:11"),
    ("TASK(a) { static int b; }", "TOKEN 1:11"),
    ("TASK(a) { int b[2]; }", "TOKEN 1:16"),
    ("TASK(a) { int b = f(1) + 1; }", "TOKEN 1:24"),
    ("TASK(a) { b; }", "TOKEN 1:12"),
    ("TASK(a) { b 1; }", "TOKEN 1:13"),
    ("TASK(a) { b[1] += 2; }", "TOKEN 1:16"),
    ("TASK(a) { b[1]++; }", "TOKEN 1:15"),
    ("TASK(a) { b[1] = f(2); }", "TOKEN 1:19"),
    ("TASK(a) { b += f(2); }", "TOKEN 1:17"),
    ("TASK(a) { ++1; }", "TOKEN 1:13"),
    ("TASK(a) { b++++; }", "TOKEN 1:14"),
    ("TASK(a) { x = 1 + f(2); }", "TOKEN 1:20"),
    ("TASK(a) { x = f(2) + 1; }", "TOKEN 1:20"),
    ("TASK(a) { return f(1); }", "TOKEN 1:19"),
    ("TASK(a) { f(g(1)); }", "TOKEN 1:14"),
    ("TASK(a) { f(1,); }", "TOKEN 1:15"),
    ("TASK(a) { f(int); }", "TOKEN 1:13"),
    ("TASK(a) { x = (int a); }", "TOKEN 1:20"),
    ("TASK(a) { x = (a) b; }", "TOKEN 1:19"),
    ("TASK(a) { x = (const int) a; }", "TOKEN 1:16"),
    ("TASK(a) { x = a < ; }", "TOKEN 1:19"),
    ("TASK(a) { x = a b; }", "TOKEN 1:17"),
    ("TASK(a) { x = a ? b; }", "TOKEN 1:20"),
    ("TASK(a) { x = a ? b : ; }", "TOKEN 1:23"),
    ("TASK(a) { x = a : b; }", "TOKEN 1:17"),
    ("TASK(a) { if (b) ; }", "TOKEN 1:18"),
    ("TASK(a) { if () {} }", "TOKEN 1:15"),
    ("TASK(a) { if (b) {} else ; }", "TOKEN 1:26"),
    ("TASK(a) { if (b) {} else if (c) ; }", "TOKEN 1:33"),
    ("TASK(a) { if (b) {} else {} else {} }", "TOKEN 1:29"),
    ("TASK(a) { else {} }", "TOKEN 1:11"),
    ("TASK(a) { while () {} }", "TOKEN 1:18"),
    ("TASK(a) { for () {} }", "TOKEN 1:16"),
    ("TASK(a) { for (return;;) {} }", "TOKEN 1:16"),
    ("TASK(a) { for (; int b;) {} }", "TOKEN 1:18"),
    ("TASK(a) { for (;; int b) {} }", "TOKEN 1:19"),
    ("TASK(a) { for (;;) ; }", "TOKEN 1:20"),
    ("TASK(a) { assert(b, c); }", "TOKEN 1:19"),
    ("TASK(a) { goto b; }", "TOKEN 1:11"),
];

fn rows() -> &'static [(&'static str, &'static str)] {
    &ROWS
}

#[test]
fn texts_are_whole_or_refused_at_their_first_fault(rt: HostRuntime) -> Result<(), Fail> {
    for (text, expected) in rows() {
        assert!(rt; outcome(rt.alloc(), text)?.as_str() == *expected);
    }
    Ok(())
}

// Texts of some words, one many times, words between, another as many times, and the last words.
const DEPTHS: [(&str, &str, u32, &str, &str, &str, &str); 17] = [
    ("TASK(a) ", "{", 64, "", "}", "", "whole"),
    ("TASK(a) ", "{", 64, "", "", "", "END 1:73"),
    ("TASK(a) ", "{", 65, "", "", "", "DEPTH 1:73"),
    ("}TASK(a) ", "{", 64, "", "", "", "TOKEN 1:1"),
    ("}TASK(a) ", "{", 65, "", "", "", "DEPTH 1:74"),
    ("TASK(a) {b=", "(", 63, "c", ")", ";}", "whole"),
    ("TASK(a) {b=", "(", 64, "c", ")", ";}", "DEPTH 1:75"),
    ("TASK(a) {b=", "c[", 63, "c", "]", ";}", "whole"),
    ("TASK(a) {b=", "c[", 64, "c", "]", ";}", "DEPTH 1:139"),
    ("TASK(a) {b=", "!", 63, "c", "", ";}", "whole"),
    ("TASK(a) {b=", "!", 64, "c", "", ";}", "DEPTH 1:75"),
    ("TASK(a) {b=c", "?d:e", 63, "", "", ";}", "whole"),
    ("TASK(a) {b=c", "?d:e", 64, "", "", ";}", "DEPTH 1:265"),
    ("TASK(a) {b=c", "+d", 63, "", "", ";}", "whole"),
    ("TASK(a) {b=c", "+d", 64, "", "", ";}", "DEPTH 1:139"),
    ("TASK(a) {b+=c", ">>=d", 64, "", "", ";}", "DEPTH 1:266"),
    ("TASK(a) {", "b[c]=d;", 40, "", "", "}", "whole"),
];

fn depths() -> &'static [(
    &'static str,
    &'static str,
    u32,
    &'static str,
    &'static str,
    &'static str,
    &'static str,
)] {
    &DEPTHS
}

fn push_again(text: &mut String, words: &str, count: u32) -> Result<(), AllocError> {
    for _ in 0..count {
        text.push_str(words)?;
    }
    Ok(())
}

#[test]
fn more_than_64_is_too_deep(rt: HostRuntime) -> Result<(), Fail> {
    for (first, open, count, between, close, last, expected) in depths() {
        let mut text = String::new(rt.alloc());
        text.push_str(first)?;
        push_again(&mut text, open, *count)?;
        text.push_str(between)?;
        push_again(&mut text, close, *count)?;
        text.push_str(last)?;
        assert!(rt; outcome(rt.alloc(), &text)?.as_str() == *expected);
    }
    Ok(())
}

fn push_name(alloc: Global, text: &mut String, name: &Name) -> Result<(), AllocError> {
    text.push_str(&String::from_utf8_lossy(alloc, name.text.as_bytes())?)
}

// An expression's operator, put before those of its operands, which are still to come.
fn push_operator<'a>(
    alloc: Global,
    text: &mut String,
    parts: &mut Vec<&'a Expression>,
    value: &'a Expression,
) -> Result<(), AllocError> {
    match value {
        Expression::Number(number) => text.push_str(&format!(in alloc; "{}", number.bits)?)?,
        Expression::Truth(_, value) => text.push_str(&format!(in alloc; "{value}")?)?,
        Expression::Variable(name) => push_name(alloc, text, name)?,
        Expression::Element(name, index) => {
            push_name(alloc, text, name)?;
            text.push_str("[]")?;
            parts.push(index.get())?;
        }
        Expression::Parenthesis(_, inner) => {
            text.push_str("()")?;
            parts.push(inner.get())?;
        }
        Expression::Unary(_, operator, operand) => {
            text.push_str(&format!(in alloc; "{operator:?}")?)?;
            parts.push(operand.get())?;
        }
        Expression::Cast(_, type_name, operand) => {
            text.push_str(&format!(in alloc; "{type_name:?}")?)?;
            parts.push(operand.get())?;
        }
        Expression::Binary(_, operator, left, right) => {
            text.push_str(&format!(in alloc; "{operator:?}")?)?;
            parts.push(right.get())?;
            parts.push(left.get())?;
        }
        Expression::Conditional(_, condition, yes, no) => {
            text.push_str("?:")?;
            parts.push(no.get())?;
            parts.push(yes.get())?;
            parts.push(condition.get())?;
        }
    }
    text.push_str(" ")
}

// An expression with each operator before its operands.
fn prefix(alloc: Global, value: &Expression) -> Result<String, AllocError> {
    let mut text = String::new(alloc);
    let mut parts = Vec::new(alloc);
    parts.push(value)?;
    for _ in 0..64 {
        match parts.pop() {
            Some(part) => push_operator(alloc, &mut text, &mut parts, part)?,
            None => return Ok(text),
        }
    }
    Ok(text)
}

fn first_statement(unit: &Unit) -> Option<&Statement> {
    match unit.externals.get(0) {
        Some(External::Entity { body, .. }) => body.get(0),
        _ => None,
    }
}

// What the first statement of the first body sets a name to.
fn assigned(alloc: Global, text: &str) -> Result<String, AllocError> {
    let Some(Ok(unit)) = parsed(alloc, text)? else {
        return format!(in alloc; "no unit");
    };
    match first_statement(&unit) {
        Some(Statement::Simple(_, Simple::Assign(_, RightSide::Value(value)))) => {
            prefix(alloc, value)
        }
        _ => format!(in alloc; "no assignment"),
    }
}

const GROUPINGS: [(&str, &str); 22] = [
    ("a - b - c", "Subtract Subtract a b c "),
    ("a + b * c", "Add a Multiply b c "),
    ("a / b % c", "Remainder Divide a b c "),
    ("a << b + c", "ShiftLeft a Add b c "),
    ("a >> b << c", "ShiftLeft ShiftRight a b c "),
    ("a < b << c", "Less a ShiftLeft b c "),
    ("a <= b > c >= d", "GreaterEqual Greater LessEqual a b c d "),
    ("a == b < c", "Equal a Less b c "),
    ("a & b != c", "And a NotEqual b c "),
    ("a ^ b & c", "Xor a And b c "),
    ("a | b ^ c", "Or a Xor b c "),
    ("a && b | c", "LogicalAnd a Or b c "),
    ("a || b && c", "LogicalOr a LogicalAnd b c "),
    ("a || b ? c : d ? e : f", "?: LogicalOr a b c ?: d e f "),
    ("- a - + ! ~ b", "Subtract Minus a Plus Not Complement b "),
    ("(int) a * b", "Multiply Int32 a b "),
    ("(uint8_t) - a[b - 1]", "Uint8 Minus a[] Subtract b 1 "),
    ("(a - b) * c", "Multiply () Subtract a b c "),
    ("(a) - true", "Subtract () a true "),
    ("(unsigned) (int8_t) false", "Uint32 Int8 false "),
    ("(bool) (_Bool) 7", "Bool Bool 7 "),
    (
        "(int16_t) (uint16_t) (unsigned int) a",
        "Int16 Uint16 Uint32 a ",
    ),
];

fn groupings() -> &'static [(&'static str, &'static str)] {
    &GROUPINGS
}

#[test]
fn operators_group_by_level_and_to_the_left(rt: HostRuntime) -> Result<(), Fail> {
    for (value, expected) in groupings() {
        let text = format!(in rt.alloc(); "TASK(t) {{ x = {value}; }}")?;
        assert!(rt; assigned(rt.alloc(), &text)?.as_str() == *expected);
    }
    Ok(())
}

fn simple_text(alloc: Global, simple: &Simple) -> Result<String, AllocError> {
    match simple {
        Simple::Assign(_, RightSide::Value(_)) => format!(in alloc; "assign"),
        Simple::Assign(_, RightSide::Call(call)) => {
            format!(in alloc; "assign call {}", call.arguments.len())
        }
        Simple::AssignElement(_, _, _) => format!(in alloc; "element"),
        Simple::Update(_, operator, _) => format!(in alloc; "{operator:?}"),
        Simple::PostIncrement(_) => format!(in alloc; "post increment"),
        Simple::PostDecrement(_) => format!(in alloc; "post decrement"),
        Simple::PreIncrement(_, _) => format!(in alloc; "pre increment"),
        Simple::PreDecrement(_, _) => format!(in alloc; "pre decrement"),
        Simple::Call(call) => format!(in alloc; "call {}", call.arguments.len()),
        Simple::Assert(_, _) => format!(in alloc; "assert"),
    }
}

// A statement's column, kind and counts of parts.
fn statement_text(alloc: Global, statement: &Statement) -> Result<String, AllocError> {
    match statement {
        Statement::Empty(place) => format!(in alloc; "{} empty", place.column),
        Statement::Block(place, block) => {
            format!(in alloc; "{} block {}", place.column, block.len())
        }
        Statement::Local(place, local) => format!(in alloc;
            "{} local {:?} {} {}",
            place.column,
            local.type_name,
            local.constant,
            local.declarators.len()
        ),
        Statement::Simple(place, simple) => {
            format!(in alloc; "{} {}", place.column, simple_text(alloc, simple)?)
        }
        Statement::If(place, branches, last) => {
            format!(in alloc; "{} if {} {}", place.column, branches.len(), last.is_some())
        }
        Statement::While(place, _, block) => {
            format!(in alloc; "{} while {}", place.column, block.len())
        }
        Statement::For(place, start, condition, step, block) => format!(in alloc;
            "{} for {} {} {} {}",
            place.column,
            start.is_some(),
            condition.is_some(),
            step.is_some(),
            block.len()
        ),
        Statement::Return(place, value) => {
            format!(in alloc; "{} return {}", place.column, value.is_some())
        }
    }
}

fn stated(alloc: Global, text: &str) -> Result<String, AllocError> {
    let Some(Ok(unit)) = parsed(alloc, text)? else {
        return format!(in alloc; "no unit");
    };
    match first_statement(&unit) {
        Some(statement) => statement_text(alloc, statement),
        None => format!(in alloc; "no statement"),
    }
}

const STATEMENTS: [(&str, &str); 32] = [
    (";", "3 empty"),
    ("{ ; { } }", "3 block 2"),
    ("const uint8_t a = 1, b;", "3 local Uint8 true 2"),
    ("volatile int a;", "3 local Int32 false 1"),
    ("a = 1;", "3 assign"),
    ("a = f(1, 2);", "3 assign call 2"),
    ("a[1] = 2;", "3 element"),
    ("a += 1;", "3 Add"),
    ("a -= 1;", "3 Subtract"),
    ("a *= 1;", "3 Multiply"),
    ("a /= 1;", "3 Divide"),
    ("a %= 1;", "3 Remainder"),
    ("a &= 1;", "3 And"),
    ("a |= 1;", "3 Or"),
    ("a ^= 1;", "3 Xor"),
    ("a <<= 1;", "3 ShiftLeft"),
    ("a >>= 1;", "3 ShiftRight"),
    ("a++;", "3 post increment"),
    ("a--;", "3 post decrement"),
    ("++a;", "3 pre increment"),
    ("--a;", "3 pre decrement"),
    ("f();", "3 call 0"),
    ("f(1);", "3 call 1"),
    ("assert(1);", "3 assert"),
    ("if (a) { }", "3 if 1 false"),
    ("if (a) { } else { }", "3 if 1 true"),
    ("if (a) { } else if (b) { } else if (c) { }", "3 if 3 false"),
    ("if (a) { if (b) { } } else { }", "3 if 1 true"),
    ("while (a) { ; ; }", "3 while 2"),
    ("for (;;) { }", "3 for false false false 0"),
    (
        "for (int i = 0; i < 3; i++) { ; }",
        "3 for true true true 1",
    ),
    ("return;", "3 return false"),
];

fn statements() -> &'static [(&'static str, &'static str)] {
    &STATEMENTS
}

#[test]
fn statements_are_told_apart(rt: HostRuntime) -> Result<(), Fail> {
    for (statement, expected) in statements() {
        let text = format!(in rt.alloc(); "ISR(t)\n{{ {statement} }}")?;
        assert!(rt; stated(rt.alloc(), &text)?.as_str() == *expected);
    }
    Ok(())
}

fn result_text(alloc: Global, returned: Option<TypeName>) -> Result<String, AllocError> {
    match returned {
        Some(type_name) => format!(in alloc; "{type_name:?}"),
        None => format!(in alloc; "void"),
    }
}

// How long an array is.
fn length_of(variable: &Variable) -> u32 {
    match variable {
        Variable::Scalar(_, _) => 0,
        Variable::Array(_, length, _) => length.bits,
    }
}

// With how many constants a variable begins.
fn constants_of(variable: &Variable) -> usize {
    match variable {
        Variable::Scalar(_, None) => 0,
        Variable::Scalar(_, Some(_)) => 1,
        Variable::Array(_, _, constants) => constants.len(),
    }
}

// An external's kind and counts of parts.
fn external_text(alloc: Global, external: &External) -> Result<String, AllocError> {
    match external {
        External::DeclareTask(_) => format!(in alloc; "declare task"),
        External::DeclareResource(_) => format!(in alloc; "declare resource"),
        External::Entity {
            kind,
            body,
            close,
            ..
        } => { format!(in alloc; "{kind:?} {} {}", body.len(), close.column) }
        External::Variables(declarations) => match declarations.get(0) {
            Some(first) => format!(in alloc;
                "{} {:?} {} {} {}",
                declarations.len(),
                first.type_name,
                first.constant,
                length_of(&first.variable),
                constants_of(&first.variable)
            ),
            None => format!(in alloc; "none"),
        },
        External::Function(function) => format!(in alloc;
            "function {} {} {} {}",
            result_text(alloc, function.signature.result)?,
            function.signature.parameters.len(),
            function.body.len(),
            function.close.column
        ),
        External::Prototype(signature) => {
            format!(in alloc;
                "prototype {} {}",
                result_text(alloc, signature.result)?,
                signature.parameters.len()
            )
        }
    }
}

fn told(alloc: Global, text: &str) -> Result<String, AllocError> {
    let Some(Ok(unit)) = parsed(alloc, text)? else {
        return format!(in alloc; "no unit");
    };
    match unit.externals.get(0) {
        Some(external) => external_text(alloc, external),
        None => format!(in alloc; "no external"),
    }
}

const EXTERNALS: [(&str, &str); 14] = [
    ("DeclareTask(a);", "declare task"),
    ("DeclareResource(a);", "declare resource"),
    ("TASK(a) { ; ; }", "Task 2 15"),
    ("ISR(a) { }", "Isr 0 10"),
    ("int8_t a;", "1 Int8 false 0 0"),
    ("const bool a = true, b;", "2 Bool true 0 1"),
    ("uint16_t a[4];", "1 Uint16 false 4 0"),
    (
        "volatile static const unsigned a[4] = {1, -2, 3,};",
        "1 Uint32 true 4 3",
    ),
    ("void f();", "prototype void 0"),
    ("void f(void);", "prototype void 0"),
    ("int f(int a, bool b);", "prototype Int32 2"),
    ("static void f() { ; }", "function void 0 1 21"),
    (
        "int16_t f(const int a) { return a; }",
        "function Int16 1 1 36",
    ),
    (
        "static volatile uint8_t f(void) { }",
        "function Uint8 0 0 35",
    ),
];

fn externals() -> &'static [(&'static str, &'static str)] {
    &EXTERNALS
}

#[test]
fn externals_are_told_apart(rt: HostRuntime) -> Result<(), Fail> {
    for (text, expected) in externals() {
        assert!(rt; told(rt.alloc(), text)?.as_str() == *expected);
    }
    Ok(())
}

const USUAL: &str = r#"#include "os.h"
#define SIZE 4
DeclareTask(Control);
DeclareTask(Log);
DeclareResource(Buf);

static uint16_t samples[SIZE];
static uint8_t count;
static uint8_t logged;
static uint16_t last;

static void store(uint16_t v) {
  if (count < SIZE) {
    samples[count] = v;
    count = count + 1;
  }
}

ISR(Adc) {
  uint16_t v = oschk_input();
  GetResource(Buf);
  store(v);
  ReleaseResource(Buf);
  ActivateTask(Control);
}

TASK(Init) {
  count = 0;
  logged = 0;
  ActivateTask(Control);
  TerminateTask();
}

TASK(Control) {
  uint8_t n = 0;
  GetResource(Buf);
  n = count;
  if (n > 0) {
    last = samples[n - 1];
    count = n - 1;
  }
  assert(count < SIZE);
  ReleaseResource(Buf);
  ActivateTask(Log);
  TerminateTask();
}

TASK(Log) {
  logged = logged + 1;
  assert(logged <= 3);
  TerminateTask();
}
"#;

#[test]
fn the_usual_application_is_read(rt: HostRuntime) -> Result<(), Fail> {
    assert!(rt; outcome(rt.alloc(), USUAL)?.as_str() == "whole");
    Ok(())
}
