// What stands in a certificate before its log.
ghost use Rattle.std.specs.Prelude.{◌≡◌, ◌++◌, IsSome, OnOk};
ghost use Rattle.chk_base.specs.Desk.{AppendsAll};
ghost use Rattle.cert_text.specs.CertificateParts.{bounds_text, counts_text, front_text, goal_text, head_text, lower_text, middle_text, tables_text, turns_text, upper_text};
ghost use Rattle.cert_text.specs.Spills.{Spills};

use crate::label::LabelTexts;
use crate::streams::{put_clauses, put_labels, put_table};
use crate::tokens::{put_clause, put_numbered, put_pair};
use chk_base::desk::{Desk, PutFault, append_all};
use chk_base::text::Text;
use clause_form::clause::Clause;
use clause_form::formula::Formula;
use std::alloc::{AllocError, Global};
use turn_encoding::encoding::Encoding;

/// The bounds of a run: its events, its arrivals, and the lines that the solver may learn.
#[derive(Clone, Copy, PartialEq, Eq, Debug)]
pub struct Bounds {
    pub turns: u16,
    pub arrivals: u8,
    pub budget: u64,
}

fn put_bounds(held: &mut Text, bounds: Bounds) -> Result<(), AllocError>
    ensures { OnOk result (held.new ≡ held.old ++ bounds_text bounds) }
{
    held.append(b"oschk certificate 1\n")?;
    put_pair(held, b"bounds", bounds.turns as u64, bounds.arrivals as u64)?;
    Ok(())
}

fn put_counts(held: &mut Text, budget: u64, formula: &Formula) -> Result<(), AllocError>
    ensures { OnOk result (held.new ≡ held.old ++ counts_text budget formula.now) }
{
    put_numbered(held, b"budget", budget)?;
    put_numbered(held, b"variables", formula.variables)?;
    put_numbered(held, b"clauses", formula.clauses.len() as u64)
}

fn put_head(held: &mut Text, bounds: Bounds, formula: &Formula) -> Result<(), AllocError>
    ensures { OnOk result (held.new ≡ held.old ++ head_text bounds formula.now) }
{
    put_bounds(held, bounds)?;
    put_counts(held, bounds.budget, formula)
}

fn put_goal(held: &mut Text, goal: &Clause, labels: &LabelTexts) -> Result<(), AllocError>
    ensures { OnOk result (held.new ≡ held.old ++ goal_text goal.now labels.now) }
{
    held.append(b"goal ")?;
    put_clause(held, goal.lits())?;
    held.append(b"\n")?;
    put_numbered(held, b"labels", labels.len() as u64)
}

// Bounds, counts and clauses.
fn put_upper<D: Desk>(
    alloc: Global,
    desk: &mut D,
    held: &mut Text,
    bounds: Bounds,
    formula: &Formula,
) -> Result<(), PutFault>
    ensures { Spills (D.state desk.old) (D.state desk.new) held.old held.new (upper_text bounds formula.now) result }
{
    put_head(held, bounds, formula)?;
    put_clauses(alloc, desk, held, &formula.clauses)
}

// The goal, and the labels.
fn put_middle<D: Desk>(
    alloc: Global,
    desk: &mut D,
    held: &mut Text,
    goal: &Clause,
    labels: &LabelTexts,
) -> Result<(), PutFault>
    ensures { Spills (D.state desk.old) (D.state desk.new) held.old held.new (middle_text goal.now labels.now) result }
{
    put_goal(held, goal, labels)?;
    put_labels(alloc, desk, held, labels)
}

// The turns, and where the log begins.
fn put_turns<D: Desk>(
    alloc: Global,
    desk: &mut D,
    held: &mut Text,
    encoding: &Encoding,
) -> Result<(), PutFault>
    ensures { Spills (D.state desk.old) (D.state desk.new) held.old held.new (turns_text encoding.now) result }
{
    put_table(alloc, desk, held, b"turn", 1, encoding.alternatives.rows())?;
    held.append(b"log\n")?;
    Ok(())
}

// The depths and the turns.
fn put_tables<D: Desk>(
    alloc: Global,
    desk: &mut D,
    held: &mut Text,
    encoding: &Encoding,
) -> Result<(), PutFault>
    ensures { Spills (D.state desk.old) (D.state desk.new) held.old held.new (tables_text encoding.now) result }
{
    put_table(alloc, desk, held, b"depth", 0, encoding.depths.rows())?;
    put_turns(alloc, desk, held, encoding)
}

// From the goal on.
fn put_lower<D: Desk>(
    alloc: Global,
    desk: &mut D,
    held: &mut Text,
    encoding: &Encoding,
    labels: &LabelTexts,
) -> Result<(), PutFault>
    ensures { Spills (D.state desk.old) (D.state desk.new) held.old held.new (lower_text encoding.now labels.now) result }
{
    put_middle(alloc, desk, held, &encoding.goal, labels)?;
    put_tables(alloc, desk, held, encoding)
}

fn put_front<D: Desk>(
    alloc: Global,
    desk: &mut D,
    held: &mut Text,
    bounds: Bounds,
    encoding: &Encoding,
    labels: &LabelTexts,
) -> Result<(), PutFault>
    ensures { Spills (D.state desk.old) (D.state desk.new) held.old held.new (front_text bounds encoding.now labels.now) result }
{
    put_upper(alloc, desk, held, bounds, &encoding.formula)?;
    put_lower(alloc, desk, held, encoding, labels)
}

/// Appends what stands before the log to the current file: the bounds, the formula, the goal, the labels with what they stand for, and
/// the literals of depths and labels. Where it fails or finds no memory, a prefix of it was appended.
pub fn write_front<D: Desk>(
    alloc: Global,
    desk: &mut D,
    bounds: Bounds,
    encoding: &Encoding,
    labels: &LabelTexts,
) -> Result<(), PutFault>
    requires { IsSome (D.state desk.old).current }
    ensures { AppendsAll (D.state desk.old) (D.state desk.new) (front_text bounds encoding.now labels.now) result }
{
    let mut held = Text::new(alloc);
    put_front(alloc, desk, &mut held, bounds, encoding, labels)?;
    append_all(desk, held.as_bytes())
}
