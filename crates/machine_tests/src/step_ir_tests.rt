// The lists grow where there is memory.
use application::app::Entity;
use chk_base::expr::Expr;
use chk_base::place::Place;
use chk_base::text::Text;
use chk_base::word::Width;
use std::alloc::{AllocError, Global};
use std::test::Fail;
use step_ir::code::{
    Action, CellName, CellNames, EntityCode, EntityCodes, Names, Nexts, Point, Points, Traps,
};
use step_ir::event::{Choice, Choices, Event, EventAction, Events, Next};

const PLACE: Place = Place {
    line: 1,
    column: 1,
    offset: 0,
};

// A point that ends a body, with a trap and a next.
fn point(alloc: Global) -> Result<Point, AllocError> {
    let mut traps = Traps::new(alloc);
    traps.push((Expr::Const(0), 3))?;
    let mut next = Nexts::new(alloc);
    next.push((Expr::Const(1), 0))?;
    Ok(Point {
        place: PLACE,
        action: Action::End,
        traps,
        next,
    })
}

// An entity of one point and one cell.
fn entity(alloc: Global) -> Result<EntityCode, AllocError> {
    let mut points = Points::new(alloc);
    points.push(point(alloc)?)?;
    let mut names = CellNames::new(alloc);
    names.push(CellName {
        text: Text::new(alloc),
        element: None,
        width: Width::W8,
        signed: false,
        start: 0,
    })?;
    Ok(EntityCode { points, names })
}

#[test]
fn lists_of_a_code_grow(rt: HostRuntime) -> Result<(), Fail> {
    let alloc = rt.alloc();
    let mut entities = EntityCodes::new(alloc);
    entities.push(entity(alloc)?)?;
    assert_eq!(rt; entities.len(), 1);
    let mut names = Names::new(alloc);
    names.push(Text::new(alloc))?;
    assert_eq!(rt; names.len(), 1);
    Ok(())
}

#[test]
fn lists_of_a_run_grow(rt: HostRuntime) -> Result<(), Fail> {
    let alloc = rt.alloc();
    let mut choices = Choices::new(alloc);
    choices.push(Choice::Arrive(Entity(1)))?;
    assert_eq!(rt; choices.len(), 1);
    let mut events = Events::new(alloc);
    events.push(Event {
        actor: Entity(1),
        action: EventAction::Arrive,
        next: Next::Runs(Entity(1)),
        place: PLACE,
    })?;
    assert_eq!(rt; events.len(), 1);
    Ok(())
}
