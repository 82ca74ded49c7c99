// What no clause shows: that texts are read where there is memory, and the trees and faults of texts from outside.
use chk_base::place::Place;
use chk_base::text::{Name, Text};
use oil_text::fault::OilFault;
use oil_text::reader::read_oil;
use oil_tree::tree::{Attribute, Attributes, Item, Items, OilTree, Places, Value, ValueForm};
use std::alloc::{AllocError, Global};
use std::test::Fail;

fn read(alloc: Global, text: &str) -> Result<Result<OilTree, OilFault>, AllocError> {
    let bytes = text.as_bytes();
    if bytes.len() > 262144 {
        return Ok(Err(OilFault::Memory));
    }
    let text = Text::from_bytes(alloc, bytes)?;
    Ok(read_oil(alloc, &text))
}

// Kind and place of a fault.
fn fault(alloc: Global, text: &str) -> Result<String, AllocError> {
    match read(alloc, text)? {
        Ok(_) => format!(in alloc; "tree"),
        Err(OilFault::Byte(at)) => format!(in alloc;
            "byte {}:{} {}",
            at.line, at.column, at.offset
        ),
        Err(OilFault::Token(at)) => format!(in alloc;
            "token {}:{} {}",
            at.line, at.column, at.offset
        ),
        Err(OilFault::EndOfText(at)) => format!(in alloc;
            "end {}:{} {}",
            at.line, at.column, at.offset
        ),
        Err(OilFault::Memory) => format!(in alloc; "memory"),
    }
}

fn word(text: &Text) -> &str {
    match str::from_utf8(text.as_bytes()) {
        Ok(word) => word,
        Err(_) => "?",
    }
}

// Form, sign, text and place of a value, and how many attributes are nested.
fn shown(alloc: Global, attribute: &Attribute) -> Result<String, AllocError> {
    let value = &attribute.value;
    format!(in alloc;
        "{} {:?} {} {} {}:{} {}",
        word(&attribute.name.text),
        value.form,
        value.negative,
        word(&value.text),
        value.place.line,
        value.place.column,
        attribute.nested.len()
    )
}

// The first attribute of the first object.
fn first(alloc: Global, text: &str) -> Result<String, AllocError> {
    match read(alloc, text)? {
        Ok(tree) => match tree.items.get(0) {
            Some(Item::Object { attributes, .. }) => match attributes.get(0) {
                Some(attribute) => shown(alloc, attribute),
                None => format!(in alloc; "no attribute"),
            },
            _ => format!(in alloc; "no object"),
        },
        Err(_) => fault(alloc, text),
    }
}

fn item(alloc: Global, item: &Item) -> Result<String, AllocError> {
    match item {
        Item::Object {
            kind,
            name,
            attributes,
        } => format!(in alloc;
            "{} {} {}:{} {}",
            word(&kind.text),
            word(&name.text),
            name.place.line,
            name.place.column,
            attributes.len()
        ),
        Item::Include(at) => format!(in alloc; "include {}:{}", at.line, at.column),
    }
}

const USUAL: &str = "OIL_VERSION = \"2.5\" : \"usual\";
#include \"vendor.oil\"
IMPLEMENTATION Vendor {
  OS { BOOLEAN USERESSCHEDULER = TRUE; };
  TASK { UINT32 [0..255] PRIORITY; UINT32 STACKSIZE = 256; };
};
CPU Board {
  OS Os {
    STATUS = EXTENDED;
    STARTUPHOOK = FALSE; ERRORHOOK = FALSE; SHUTDOWNHOOK = FALSE;
    PRETASKHOOK = FALSE; POSTTASKHOOK = FALSE; USERESSCHEDULER = FALSE;
  };
  APPMODE Normal { };
  RESOURCE Buf { RESOURCEPROPERTY = STANDARD; };
  TASK Init {
    PRIORITY = 5; SCHEDULE = FULL; ACTIVATION = 1;
    AUTOSTART = TRUE { APPMODE = Normal; };
    STACKSIZE = 128;
  };
  #include \"isr.oil\"
  ISR Adc { CATEGORY = 2; PRIORITY = 4; RESOURCE = Buf; };
};
";

#[test]
fn the_usual_application_is_read(rt: HostRuntime) -> Result<(), Fail> {
    let alloc = rt.alloc();
    let tree = read(alloc, USUAL)??;
    let (version, cpu) = (&tree.version, &tree.cpu);
    assert_eq!(rt;
        (
            word(&version.text),
            version.place.line,
            version.place.column
        ),
        ("2.5", 1, 15)
    );
    assert_eq!(rt;
        (word(&cpu.text), cpu.place.line, cpu.place.column),
        ("Board", 7, 5)
    );
    assert_eq!(rt; tree.implementation.ok_or("none")?.line, 3);
    assert_eq!(rt; tree.includes.len(), 1);
    assert_eq!(rt; tree.includes.get(0).ok_or("none")?.line, 2);
    let items = [
        "OS Os 8:6 7",
        "APPMODE Normal 13:11 0",
        "RESOURCE Buf 14:12 1",
        "TASK Init 15:8 5",
        "include 20:3",
        "ISR Adc 21:7 3",
    ];
    assert_eq!(rt; tree.items.len(), items.len());
    for (at, want) in items.iter().enumerate() {
        assert_eq!(rt;
            item(alloc, tree.items.get(at).ok_or("none")?)?.as_str(),
            *want,
            "at {at}"
        );
    }
    Ok(())
}

#[test]
fn values_are_read_by_longest_match(rt: HostRuntime) -> Result<(), Fail> {
    let alloc = rt.alloc();
    // The value stands at 2:13.
    let rows = [
        ("TRUE", "A Word false TRUE 2:13 0"),
        (
            "CPU{OIL_VERSION=IMPLEMENTATION;B=\"\";}",
            "A Word false CPU 2:13 2",
        ),
        ("_a9", "A Word false _a9 2:13 0"),
        ("08", "A Integer false 08 2:13 0"),
        ("0x1Fg", "token 2:17 32"),
        ("0xfF", "A Integer false 0xfF 2:13 0"),
        ("0x", "token 2:14 29"),
        ("0X", "token 2:14 29"),
        ("1.5", "A Point false 1.5 2:13 0"),
        ("1.5e+07", "A Point false 1.5e+07 2:13 0"),
        ("1.5E-7:\"d\"", "A Point false 1.5E-7 2:13 0"),
        ("1.5e5", "token 2:16 31"),
        ("1.5e+", "token 2:16 31"),
        ("1.", "token 2:14 29"),
        ("0x1.5", "token 2:16 31"),
        ("- \n 5", "A Integer true 5 2:13 0"),
        ("+1.0", "A Point false 1.0 2:13 0"),
        ("-TRUE", "token 2:14 29"),
        ("\"a b//c\"", "A Quoted false a b//c 2:13 0"),
        ("/**/7//*\n", "A Integer false 7 2:17 0"),
        ("/*/ \" */\"\"", "A Quoted false  2:21 0"),
    ];
    for (value, want) in rows {
        let text = format!(in alloc; "OIL_VERSION=\"\";\nCPU c{{K n{{A={value};}};}};")?;
        assert_eq!(rt; first(alloc, text.as_str())?.as_str(), want, "{value}");
    }
    Ok(())
}

#[test]
fn the_first_fault_is_answered(rt: HostRuntime) -> Result<(), Fail> {
    let alloc = rt.alloc();
    let rows = [
        ("", "end 1:1 0"),
        ("// x", "end 1:5 4"),
        ("\n \t\r/* \n */", "end 3:4 11"),
        ("OIL_VERSION", "end 1:12 11"),
        ("CPU", "token 1:1 0"),
        ("OIL_VERSION = 2", "token 1:15 14"),
        (
            "OIL_VERSION = \"2.5\";\nCPU c {\nTASK T { PRIORITY = ; };\n};\n",
            "token 3:21 49",
        ),
        ("OIL_VERSION = \"2.5\";\nCPU c { } ;", "tree"),
        ("OIL_VERSION = \"2.5\";\nCPU c { } ; ;", "token 2:13 33"),
        ("OIL_VERSION = \"2.5\";\nCPU c { }", "end 2:10 30"),
        ("OIL_VERSION = \"2.5\";\nCPU c { TASK }", "token 2:14 34"),
        (
            "OIL_VERSION = \"2.5\";\nCPU c { TASK T { } }",
            "token 2:20 40",
        ),
        // a byte anywhere comes before a token
        ("CPU CPU $", "byte 1:9 8"),
        ("CPU \"\n\"", "byte 1:5 4"),
        ("CPU\n/* * / ", "byte 2:1 4"),
        ("CPU #includ", "byte 1:5 4"),
        ("CPU /", "byte 1:5 4"),
        ("\u{e9}", "byte 1:1 0"),
        // includes and the IMPLEMENTATION section
        (
            "OIL_VERSION=\"\";#include\n#includeX {\nIMPLEMENTATION i{{}CPU;{{}};};\n#include\nCPU c{#include\n};",
            "tree",
        ),
        ("#include\nOIL_VERSION=\"\";CPU c{};", "token 1:1 0"),
        ("OIL_VERSION=\"\";IMPLEMENTATION i{{};", "end 1:36 35"),
        ("OIL_VERSION=\"\";IMPLEMENTATION i{}};", "token 1:34 33"),
        (
            "OIL_VERSION=\"\";IMPLEMENTATION i{};IMPLEMENTATION",
            "token 1:35 34",
        ),
        ("OIL_VERSION=\"\";CPU c{K n{#include\n};};", "token 1:26 25"),
        // eight levels of attributes, and nine
        (
            "OIL_VERSION=\"\";CPU c{K n{A=1{A=1{A=1{A=1{A=1{A=1{A=1{A=1;};};};};};};};};};",
            "tree",
        ),
        (
            "OIL_VERSION=\"\";CPU c{K n{A=1{A=1{A=1{A=1{A=1{A=1{A=1{A=1{};};};};};};};};};};",
            "token 1:57 56",
        ),
    ];
    for (at, (text, want)) in rows.iter().enumerate() {
        assert_eq!(rt; fault(alloc, text)?.as_str(), *want, "at {at}");
    }
    Ok(())
}

#[test]
fn lists_hold_what_was_pushed(rt: HostRuntime) -> Result<(), Fail> {
    let alloc = rt.alloc();
    let place = Place {
        line: 1,
        column: 2,
        offset: 1,
    };
    let mut attributes = Attributes::new(alloc);
    attributes.push(Attribute {
        name: Name {
            text: Text::from_bytes(alloc, b"A")?,
            place,
        },
        value: Value {
            form: ValueForm::Word,
            negative: false,
            text: Text::from_bytes(alloc, b"B")?,
            place,
        },
        nested: Attributes::new(alloc),
    })?;
    assert_eq!(rt;
        shown(alloc, attributes.get(0).ok_or("none")?)?.as_str(),
        "A Word false B 1:2 0"
    );
    let mut items = Items::new(alloc);
    items.push(Item::Include(place))?;
    assert_eq!(rt; (items.len(), items.items().len()), (1, 1));
    let mut places = Places::new(alloc);
    places.push(place)?;
    assert_eq!(rt; places.items(), [place].as_slice());
    Ok(())
}
