// What no clause shows: that the definitions say what is meant, over texts with their tokens.
use c_lex::fault::LexFault;
use c_lex::lexing::lex;
use c_lex::token::{Token, TokenKind};
use chk_base::place::Place;
use chk_base::text::Text;
use std::alloc::{AllocError, Global};
use std::test::Fail;

// A token as it stands in the tables: a quote before a reserved word, `#` before a number and `u` after an unsigned one.
fn token_text(alloc: Global, token: &Token) -> Result<String, AllocError> {
    let bytes = String::from_utf8_lossy(alloc, token.text.as_bytes())?;
    match token.kind {
        TokenKind::Word => format!(in alloc; "'{bytes} "),
        TokenKind::Name | TokenKind::Mark => format!(in alloc; "{bytes} "),
        TokenKind::Number { bits, unsigned } => {
            let sign = if unsigned { "u" } else { "" };
            format!(in alloc; "#{bits}{sign} ")
        }
    }
}

fn fault_text(alloc: Global, name: &str, place: Place) -> Result<String, AllocError> {
    format!(in alloc; "{name} {}:{}", place.line, place.column)
}

// What a text spells, or its fault.
fn spelled(alloc: Global, text: &str) -> Result<String, AllocError> {
    if text.len() > 262_144 {
        return format!(in alloc; "too long");
    }
    let text = Text::from_bytes(alloc, text.as_bytes())?;
    let tokens = match lex(alloc, &text) {
        Ok(tokens) => tokens,
        Err(LexFault::Byte(place)) => return fault_text(alloc, "BYTE", place),
        Err(LexFault::Directive(place)) => return fault_text(alloc, "DIRECTIVE", place),
        Err(LexFault::Number(place)) => return fault_text(alloc, "NUMBER", place),
        Err(LexFault::Memory) => return Err(AllocError),
    };
    let mut all = String::new(alloc);
    for token in tokens.items() {
        all.push_str(&token_text(alloc, token)?)?;
    }
    Ok(all)
}

const ROWS: [(&str, &str); 119] = [
    ("= == === ====", "= == == = == == "),
    ("+ ++ +++ += +=+ ++=", "+ ++ ++ + += += + ++ = "),
    ("- -- --- -= -=- --=", "- -- -- - -= -= - -- = "),
    ("* *= *=* **", "* *= *= * * * "),
    ("/ /= /=/ /", "/ /= /= / / "),
    ("% %= %=% %%", "% %= %= % % % "),
    ("& && &&& &= &=& &&=", "& && && & &= &= & && = "),
    ("| || ||| |= |=| ||=", "| || || | |= |= | || = "),
    ("^ ^= ^=^ ^^", "^ ^= ^= ^ ^ ^ "),
    (
        "< << <<< <<= <<=< <<=<< <= <=< <<<=",
        "< << << < <<= <<= < <<= << <= <= < << <= ",
    ),
    (
        "> >> >>> >>= >>=> >>=>> >= >=> >>>=",
        "> >> >> > >>= >>= > >>= >> >= >= > >> >= ",
    ),
    ("! != !=! !!", "! != != ! ! ! "),
    ("~~ ?: ;; ,, :: ([{}])", "~ ~ ? : ; ; , , : : ( [ { } ] ) "),
    (
        "if TASK bool assert x _ _1 int32_t If a8",
        "'if 'TASK 'bool 'assert x _ _1 'int32_t If a8 ",
    ),
    ("0", "#0 "),
    ("00", "#0 "),
    ("7", "#7 "),
    ("7u", "#7u "),
    ("7U", "#7u "),
    ("7l", "#7 "),
    ("7L", "#7 "),
    ("7ul", "#7u "),
    ("7lu", "#7u "),
    ("7UL", "#7u "),
    ("7Lu", "#7u "),
    ("2147483647", "#2147483647 "),
    ("2147483648u", "#2147483648u "),
    ("4294967295U", "#4294967295u "),
    ("0x7fffffff", "#2147483647 "),
    ("0x80000000", "#2147483648u "),
    ("0XfFfFfFfF", "#4294967295u "),
    ("0x1L", "#1 "),
    ("0xAu", "#10u "),
    ("017", "#15 "),
    ("017777777777", "#2147483647 "),
    ("020000000000", "#2147483648u "),
    ("037777777777", "#4294967295u "),
    ("000000000000000000001", "#1 "),
    ("2147483648", "NUMBER 1:1"),
    ("4294967295", "NUMBER 1:1"),
    ("4294967296", "NUMBER 1:1"),
    ("4294967296u", "NUMBER 1:1"),
    ("0x100000000", "NUMBER 1:1"),
    ("040000000000", "NUMBER 1:1"),
    ("08", "NUMBER 1:1"),
    ("0x", "NUMBER 1:1"),
    ("0xu", "NUMBER 1:1"),
    ("0x1G", "NUMBER 1:1"),
    ("0b1", "NUMBER 1:1"),
    ("7uu", "NUMBER 1:1"),
    ("7ll", "NUMBER 1:1"),
    ("7ulu", "NUMBER 1:1"),
    ("7lul", "NUMBER 1:1"),
    ("7ux", "NUMBER 1:1"),
    ("7_", "NUMBER 1:1"),
    ("1e5", "NUMBER 1:1"),
    ("18446744073709551617", "NUMBER 1:1"),
    ("0x10000000000000001", "NUMBER 1:1"),
    ("a/*b*/c", "a c "),
    ("a//b\nc", "a c "),
    ("a//b", "a "),
    ("/**/x", "x "),
    ("/*/*/x", "x "),
    ("/***/x", "x "),
    ("a/", "a / "),
    ("a/=b", "a /= b "),
    ("a*/b", "a * / b "),
    ("a*//b", "a * "),
    ("/*/", "BYTE 1:1"),
    ("a /* b\n*", "BYTE 1:3"),
    ("/*", "BYTE 1:1"),
    ("/*\n*/#define X 1", "BYTE 2:3"),
    ("// #define X 1\nX", "X "),
    ("#include \"a\" /* b\nc", "c "),
    ("#include /*\n*/", "* / "),
    ("", ""),
    ("#", "DIRECTIVE 1:1"),
    (" \t#\tinclude x", ""),
    ("a#", "BYTE 1:2"),
    ("a\n\r #include", "a "),
    ("/**/#include", "BYTE 1:5"),
    ("#includefoo", "DIRECTIVE 1:1"),
    ("#defineX 1", "DIRECTIVE 1:1"),
    ("# define X 1\nX", "#1 "),
    ("#\rdefine X 1", "DIRECTIVE 1:1"),
    ("#/**/define X 1", "DIRECTIVE 1:1"),
    ("#define/**/X/**/1/**/\nX", "#1 "),
    ("#define X 1 // c\nX", "#1 "),
    ("#define X 1 /* c\n*/ X", "DIRECTIVE 1:1"),
    ("#define X 1\r\nX", "#1 "),
    ("#define if 1", "DIRECTIVE 1:1"),
    ("#define if 08", "DIRECTIVE 1:1"),
    ("#define X", "DIRECTIVE 1:1"),
    ("#define X Y", "DIRECTIVE 1:1"),
    ("#define X 08 9", "DIRECTIVE 1:1"),
    ("#define X 1 2", "DIRECTIVE 1:1"),
    ("#define 1 1", "DIRECTIVE 1:1"),
    ("#define X -1", "DIRECTIVE 1:1"),
    ("#define X\n1", "DIRECTIVE 1:1"),
    ("#if 1", "DIRECTIVE 1:1"),
    ("#define", "DIRECTIVE 1:1"),
    ("#define X 1 @", "DIRECTIVE 1:1"),
    ("#define X 1\n#define X 1", "DIRECTIVE 2:1"),
    ("#define X 1\n#define X 08", "DIRECTIVE 2:1"),
    ("#define X 1\n #define Y X", "DIRECTIVE 2:2"),
    ("#define X 08", "NUMBER 1:11"),
    ("\n  # define X /* y */ 0x /**/\n@", "NUMBER 2:22"),
    ("#define X 0x10u\nX X1 x", "#16u X1 x "),
    ("X\n#define X 1\nX\n#define Y 2\nX+Y", "X #1 #1 + #2 "),
    ("a \"b\"", "BYTE 1:3"),
    ("a . b", "BYTE 1:3"),
    ("é", "BYTE 1:1"),
    ("/*é*/x//é\n", "x "),
    ("#include é\nx", "x "),
    ("x @ 08", "BYTE 1:3"),
    ("08 @", "NUMBER 1:1"),
    ("a\n#x\n08", "DIRECTIVE 2:1"),
    ("a\x0b", "BYTE 1:2"),
    ("a\0", "BYTE 1:2"),
];

fn rows() -> &'static [(&'static str, &'static str)] {
    &ROWS
}

#[test]
fn texts_spell_their_tokens(rt: HostRuntime) -> Result<(), Fail> {
    let alloc = rt.alloc();
    for (text, want) in rows() {
        assert_eq!(rt; spelled(alloc, text)?.as_str(), *want, "at {text}");
    }
    Ok(())
}

const USUAL: &str =
    "#include \"os.h\"\n#define SIZE 4\nDeclareTask(Control);\nDeclareTask(Log);\nDeclareResource(Buf);\n\nstatic uint16_t samples[SIZE];\nstatic uint8_t count;\nstatic uint8_t logged;\nstatic uint16_t last;\n\nstatic void store(uint16_t v) {\n  if (count < SIZE) {\n    samples[count] = v;\n    count = count + 1;\n  }\n}\n\nISR(Adc) {\n  uint16_t v = oschk_input();\n  GetResource(Buf);\n  store(v);\n  ReleaseResource(Buf);\n  ActivateTask(Control);\n}\n\nTASK(Init) {\n  count = 0;\n  logged = 0;\n  ActivateTask(Control);\n  TerminateTask();\n}\n\nTASK(Control) {\n  uint8_t n = 0;\n  GetResource(Buf);\n  n = count;\n  if (n > 0) {\n    last = samples[n - 1];\n    count = n - 1;\n  }\n  assert(count < SIZE);\n  ReleaseResource(Buf);\n  ActivateTask(Log);\n  TerminateTask();\n}\n\nTASK(Log) {\n  logged = logged + 1;\n  assert(logged <= 3);\n  TerminateTask();\n}\n";

fn usual() -> &'static str {
    USUAL
}

fn place(line: u32, column: u32, offset: u32) -> Place {
    Place {
        line,
        column,
        offset,
    }
}

#[test]
fn tokens_of_the_usual_application_have_their_places(rt: HostRuntime) -> Result<(), Fail> {
    let alloc = rt.alloc();
    let text = Text::from_bytes(alloc, usual().as_bytes())?;
    assert!(rt; text.as_bytes().len() <= 262_144);
    let tokens = lex(alloc, &text).map_err(|_| "no tokens")?;
    assert_eq!(rt; tokens.len(), 207);
    assert_eq!(rt; tokens.end(), place(53, 1, 814));
    for (at, line, column, offset) in [
        (0, 3, 1, 31),
        (19, 7, 25, 118),
        (46, 13, 15, 239),
        (206, 52, 1, 812),
    ] {
        assert_eq!(rt;
            tokens.get(at).ok_or("no token")?.place,
            place(line, column, offset)
        );
    }
    Ok(())
}
