// Counts and cells of units that are written by hand.
use application::app::Entity;
use c_types::convert::{int32, uint32};
use c_unit::expression::BinaryOperator;
use c_unit::unit::EntityKind;
use chk_base::place::Place;
use chk_base::sets::Values;
use chk_base::text::{Name, Text};
use chk_base::word::Width;
use sqlite_items::{Boxed, Items};
use std::alloc::{AllocError, Global};
use std::test::Fail;
use step_ir::code::CellNames;
use step_ir::event::Service;
use typed_unit::typed::{
    CType, GlobalVar, Globals, Local, Locals, TypedBlock, TypedEntities, TypedEntity, TypedExpr,
    TypedFunction, TypedFunctions, TypedStatement, TypedUnit,
};
use unit_counts::cells::cells_of;
use unit_counts::counts::counts_of;

const PLACE: Place = Place {
    line: 1,
    column: 1,
    offset: 0,
};

const BYTE: CType = CType {
    width: Width::W8,
    signed: false,
};

const SHORT: CType = CType {
    width: Width::W16,
    signed: true,
};

fn name(alloc: Global, text: &[u8]) -> Result<Name, AllocError> {
    Ok(Name {
        text: Text::from_bytes(alloc, text)?,
        place: PLACE,
    })
}

fn number(n: u32) -> TypedExpr {
    TypedExpr::Number(PLACE, int32(), n)
}

fn local(alloc: Global, text: &[u8], ctype: CType) -> Result<Local, AllocError> {
    Ok(Local {
        name: name(alloc, text)?,
        ctype,
    })
}

fn variable(
    alloc: Global,
    text: &[u8],
    ctype: CType,
    len: Option<u8>,
) -> Result<GlobalVar, AllocError> {
    let mut start = Values::new(alloc);
    start.push(7)?;
    start.push(9)?;
    Ok(GlobalVar {
        name: name(alloc, text)?,
        ctype,
        len,
        start,
    })
}

fn task(alloc: Global, locals: Locals, body: TypedBlock) -> Result<TypedEntities, AllocError> {
    let mut entities = Items::new(alloc);
    entities.push(TypedEntity {
        kind: EntityKind::Task,
        name: name(alloc, b"T")?,
        entity: Some(Entity(0)),
        locals,
        body,
        close: PLACE,
    })?;
    Ok(entities)
}

fn call(alloc: Global, function: usize) -> TypedStatement {
    TypedStatement::Call {
        place: PLACE,
        name: PLACE,
        function,
        arguments: Items::new(alloc),
        taker: None,
    }
}

fn unit(globals: Globals, functions: TypedFunctions, entities: TypedEntities) -> TypedUnit {
    TypedUnit {
        globals,
        functions,
        entities,
        end: PLACE,
    }
}

// x = 1; assert(x == 1); TerminateTask();
fn write_and_assert(alloc: Global) -> Result<TypedBlock, AllocError> {
    let mut body = Items::new(alloc);
    body.push(TypedStatement::Write {
        place: PLACE,
        global: 0,
        value: TypedExpr::Conversion(PLACE, BYTE, Boxed::new(alloc, number(1))?),
    })?;
    let read = Boxed::new(alloc, TypedExpr::Global(PLACE, BYTE, 0))?;
    let left = Boxed::new(alloc, TypedExpr::Conversion(PLACE, int32(), read))?;
    let right = Boxed::new(alloc, number(1))?;
    body.push(TypedStatement::Assert {
        place: PLACE,
        condition: TypedExpr::Binary(PLACE, int32(), BinaryOperator::Equal, left, right),
    })?;
    body.push(TypedStatement::Service {
        place: PLACE,
        service: Service::Terminate,
        argument: None,
    })?;
    Ok(body)
}

#[test]
fn a_write_and_an_assert_are_counted(rt: HostRuntime) -> Result<(), Fail> {
    let alloc = rt.alloc();
    let mut globals = Items::new(alloc);
    globals.push(variable(alloc, b"x", BYTE, None)?)?;
    let body = write_and_assert(alloc)?;
    let u = unit(
        globals,
        Items::new(alloc),
        task(alloc, Items::new(alloc), body)?,
    );
    let c = counts_of(alloc, &u, 1)?;
    assert_eq!(rt; (c.points, c.bits, c.weight), (5, 40, 6));
    Ok(())
}

// A function that calls the next one sixteen times; the last writes sixteen times.
fn caller(alloc: Global, number_of: usize) -> Result<TypedFunction, AllocError> {
    let mut body = Items::new(alloc);
    for _ in 0..16 {
        if number_of < 15 {
            body.push(call(alloc, number_of + 1))?;
        } else {
            body.push(TypedStatement::Set {
                place: PLACE,
                local: 0,
                value: number(1),
            })?;
        }
    }
    let mut locals = Items::new(alloc);
    locals.push(local(alloc, b"l", uint32())?)?;
    Ok(TypedFunction {
        name: name(alloc, b"f")?,
        result: None,
        params: 0,
        locals,
        body,
        close: PLACE,
    })
}

#[test]
fn counts_stop_at_the_greatest_number(rt: HostRuntime) -> Result<(), Fail> {
    let alloc = rt.alloc();
    let mut functions = Items::new(alloc);
    for i in 0..16 {
        functions.push(caller(alloc, i)?)?;
    }
    let mut body = Items::new(alloc);
    body.push(call(alloc, 0))?;
    let u = unit(
        Items::new(alloc),
        functions,
        task(alloc, Items::new(alloc), body)?,
    );
    let c = counts_of(alloc, &u, 1)?;
    assert_eq!(rt;
        (c.points, c.bits, c.weight),
        (u64::MAX, u64::MAX, u64::MAX)
    );
    Ok(())
}

// int16_t p; int32_t q; p = 1;
fn function_of_two(alloc: Global) -> Result<TypedFunctions, AllocError> {
    let mut locals = Items::new(alloc);
    locals.push(local(alloc, b"p", SHORT)?)?;
    locals.push(local(alloc, b"q", int32())?)?;
    let mut functions = Items::new(alloc);
    functions.push(TypedFunction {
        name: name(alloc, b"f")?,
        result: None,
        params: 1,
        locals,
        body: Items::new(alloc),
        close: PLACE,
    })?;
    Ok(functions)
}

// f(); f(); and an element read for an index.
fn two_calls(alloc: Global) -> Result<TypedBlock, AllocError> {
    let mut body = Items::new(alloc);
    body.push(call(alloc, 0))?;
    body.push(call(alloc, 0))?;
    body.push(TypedStatement::WriteElement {
        place: PLACE,
        global: 0,
        len: 3,
        index: TypedExpr::Element {
            place: PLACE,
            ctype: BYTE,
            global: 0,
            len: 3,
            index: Boxed::new(alloc, number(0))?,
        },
        value: TypedExpr::Global(PLACE, BYTE, 1),
    })?;
    Ok(body)
}

// The widths of cells.
fn widths(alloc: Global, names: &CellNames) -> Result<Vec<u32>, AllocError> {
    let mut widths = Vec::new(alloc);
    for c in names.items() {
        widths.push(c.width.bits())?;
    }
    Ok(widths)
}

#[test]
fn cells_follow_the_text(rt: HostRuntime) -> Result<(), Fail> {
    let alloc = rt.alloc();
    let mut globals = Items::new(alloc);
    globals.push(variable(alloc, b"a", BYTE, Some(3))?)?;
    globals.push(variable(alloc, b"b", SHORT, None)?)?;
    let mut locals = Items::new(alloc);
    locals.push(local(alloc, b"l", BYTE)?)?;
    let entities = task(alloc, locals, two_calls(alloc)?)?;
    let u = unit(globals, function_of_two(alloc)?, entities);
    let c = counts_of(alloc, &u, 1)?;
    assert_eq!(rt; (c.points, c.bits, c.weight), (8, 208, 14));
    let c = cells_of(alloc, &u, 1)?;
    assert_eq!(rt;
        widths(alloc, &c.globals)?.as_slice(),
        [8, 8, 8, 16].as_slice()
    );
    assert_eq!(rt; c.bases.as_slice(), [0, 3].as_slice());
    assert_eq!(rt; c.entities.len(), 1);
    for e in c.entities.as_slice() {
        assert_eq!(rt; (e.first, e.temp), (4, 9));
        assert_eq!(rt;
            widths(alloc, &e.names)?.as_slice(),
            [8, 16, 32, 16, 32, 32, 32].as_slice()
        );
    }
    Ok(())
}
