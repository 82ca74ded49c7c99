// What statements read and do, in the order of their steps.
ghost use Rattle.std.specs.Prelude.{◌≡◌, None, Some, true, IfOk};
ghost use Rattle.lower_law.specs.Statements as statement;
ghost use Rattle.lower_law.specs.Typed as plain;
ghost use Rattle.lower_pieces.specs.Acting.{context_of};
ghost use Rattle.lower_pieces.specs.Trees.{tree_of, statement_of};

use c_unit::expression::BinaryOperator;
use chk_base::place::Place;
use chk_base::word::Width;
use lower_pieces::actions::Frame;
use lower_pieces::asking::ask_thing;
use lower_pieces::evaluation::Item;
use lower_pieces::pieces::{Piece, Plan};
use lower_pieces::tree::{ExpressionTree, StatementTree};
use std::alloc::{AllocError, Global};
use std::test::Fail;
use step_ir::code::{Action, Nexts};
use typed_unit::typed::CType;

const PLACE: Place = Place {
    line: 1,
    column: 1,
    offset: 0,
};

const BYTE: CType = CType {
    width: Width::W8,
    signed: false,
};

const INT: CType = CType {
    width: Width::W32,
    signed: true,
};

// `x = x + 1;`, where x is an `int`.
fn increment(alloc: Global) -> Result<StatementTree, AllocError>
    ensures { IfOk result (λ s. statement_of s ≡ statement.Write PLACE 0 INT (plain.Binary plain.Add true (plain.Global 0 INT) (plain.Number 1))) }
{
    let x = Box::new(
        alloc,
        ExpressionTree::Global {
            cell: 0,
            ctype: INT,
        },
    )?;
    let one = Box::new(alloc, ExpressionTree::Number(1))?;
    Ok(StatementTree::Write {
        place: PLACE,
        cell: 0,
        ctype: INT,
        value: ExpressionTree::Binary(BinaryOperator::Add, true, x, one),
    })
}

// `assert(x || y);`
fn either(alloc: Global) -> Result<StatementTree, AllocError>
    ensures { IfOk result (λ s. statement_of s ≡ statement.Assert PLACE (plain.Disjunction (plain.Global 0 BYTE) (plain.Global 1 BYTE))) }
{
    let x = Box::new(
        alloc,
        ExpressionTree::Global {
            cell: 0,
            ctype: BYTE,
        },
    )?;
    let y = Box::new(
        alloc,
        ExpressionTree::Global {
            cell: 1,
            ctype: BYTE,
        },
    )?;
    Ok(StatementTree::Assert {
        place: PLACE,
        condition: ExpressionTree::Disjunction(x, y),
    })
}

#[test]
fn the_second_operand_of_a_disjunction_has_a_guard(rt: HostRuntime) -> Result<(), Fail> {
    let alloc = rt.alloc();
    let s = either(alloc)?;
    let asked = ask_thing(alloc, 2, 2, &s)?;
    assert_eq!(rt; asked.evaluation.items.len(), 2);
    assert!(rt;
        matches!(
            &asked.evaluation.items[0],
            Item::Read {
                guard: None,
                into: 2,
                ..
            }
        )
    );
    assert!(rt;
        matches!(
            &asked.evaluation.items[1],
            Item::Read {
                guard: Some(_),
                into: 3,
                ..
            }
        )
    );
    Ok(())
}

#[test]
fn a_global_is_read_and_then_written(rt: HostRuntime) -> Result<(), Fail> {
    let alloc = rt.alloc();
    let frame = Frame {
        base: 1,
        inner: false,
        after: Nexts::new(alloc),
        into: None,
    };
    let plan = Plan {
        alloc,
        first: 0,
        temp: 1,
        functions: &[],
        sizes: &[],
        rooms: &[],
    };
    let s = increment(alloc)?;
    let mut pieces = Vec::new(alloc);
    plan.one(&mut pieces, &frame, 0, 1, &s, &Nexts::new(alloc))?;
    assert_eq!(rt; pieces.len(), 2);
    match &pieces[0] {
        Piece::Stands(p) => {
            assert!(rt; matches!(&p.action, Action::Read { into: 1, .. }));
            assert_eq!(rt; p.traps.len(), 0);
        }
        Piece::Expands { .. } => assert!(rt; false),
    }
    match &pieces[1] {
        Piece::Stands(p) => {
            assert!(rt; matches!(&p.action, Action::Write { .. }));
            assert_eq!(rt; p.traps.len(), 1);
        }
        Piece::Expands { .. } => assert!(rt; false),
    }
    Ok(())
}
