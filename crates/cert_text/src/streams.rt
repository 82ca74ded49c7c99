// Lists of a certificate, put after what is held, and appended where it is much.
ghost use Rattle.std.specs.Prelude.{◌≤◌};
ghost use Rattle.cert_text.specs.Parts.{cell_line, clause_line, label_line, log_line, log_part, parts_from, row_lines, table_lines, value_text};
ghost use Rattle.cert_text.specs.Spills.{Spills};

use crate::label::{LabelText, LabelTexts};
use crate::spill::spill_much;
use crate::tokens::{put_cell_line, put_clause_line, put_label_line, put_log_line, put_value};
use chk_base::desk::{Desk, PutFault};
use chk_base::text::Text;
use clause_form::assignment::Assignment;
use clause_form::clause::{Clause, Clauses};
use clause_form::line::{Line, Log};
use clause_form::lit::{Lists, Lit, Lits};
use std::alloc::Global;

fn spill_clause<D: Desk>(
    alloc: Global,
    desk: &mut D,
    held: &mut Text,
    clause: &Clause,
) -> Result<(), PutFault>
    ensures { Spills (D.state desk.old) (D.state desk.new) held.old held.new (clause_line 0 clause.now) result }
{
    put_clause_line(held, clause)?;
    spill_much(alloc, desk, held)
}

/// The clauses, a line each.
pub fn put_clauses<D: Desk>(
    alloc: Global,
    desk: &mut D,
    held: &mut Text,
    clauses: &Clauses,
) -> Result<(), PutFault>
    ensures { Spills (D.state desk.old) (D.state desk.new) held.old held.new (parts_from clause_line 0 clauses.now) result }
{
    for at in 0..clauses.len() {
        let Some(item) = clauses.get(at) else {
            return Ok(());
        };
        spill_clause(alloc, desk, held, item)?;
    }
    Ok(())
}

fn spill_label<D: Desk>(
    alloc: Global,
    desk: &mut D,
    held: &mut Text,
    number: u64,
    label: &LabelText,
) -> Result<(), PutFault>
    ensures { Spills (D.state desk.old) (D.state desk.new) held.old held.new (label_line number label.now) result }
{
    put_label_line(held, number, label)?;
    spill_much(alloc, desk, held)
}

/// The labels, a line each.
pub fn put_labels<D: Desk>(
    alloc: Global,
    desk: &mut D,
    held: &mut Text,
    labels: &LabelTexts,
) -> Result<(), PutFault>
    ensures { Spills (D.state desk.old) (D.state desk.new) held.old held.new (parts_from label_line 0 labels.now) result }
{
    for at in 0..labels.len() {
        let Some(item) = labels.get(at) else {
            return Ok(());
        };
        spill_label(alloc, desk, held, at as u64, item)?;
    }
    Ok(())
}

fn spill_cell<D: Desk>(
    alloc: Global,
    desk: &mut D,
    held: &mut Text,
    word: &[u8],
    row: u64,
    column: u64,
    lit: Lit,
) -> Result<(), PutFault>
    ensures { Spills (D.state desk.old) (D.state desk.new) held.old held.new (cell_line word.now row column lit) result }
{
    put_cell_line(held, word, row, column, lit)?;
    spill_much(alloc, desk, held)
}

// The row with this number, a line each literal.
fn put_row<D: Desk>(
    alloc: Global,
    desk: &mut D,
    held: &mut Text,
    word: &[u8],
    number: u64,
    row: &Lits,
) -> Result<(), PutFault>
    ensures { Spills (D.state desk.old) (D.state desk.new) held.old held.new (row_lines word.now number row.now) result }
{
    for at in 0..row.len() {
        let Some(item) = row.get(at) else {
            return Ok(());
        };
        spill_cell(alloc, desk, held, word, number, at as u64, *item)?;
    }
    Ok(())
}

/// The rows of a table, the first of which has this number.
pub fn put_table<D: Desk>(
    alloc: Global,
    desk: &mut D,
    held: &mut Text,
    word: &[u8],
    first: u8,
    rows: &Lists,
) -> Result<(), PutFault>
    requires { first ≤ 1 }
    ensures { Spills (D.state desk.old) (D.state desk.new) held.old held.new (table_lines word.now first rows.now) result }
{
    for at in 0..rows.len() {
        let Some(item) = rows.get(at) else {
            return Ok(());
        };
        put_row(alloc, desk, held, word, first as u64 + at as u64, item)?;
    }
    Ok(())
}

fn spill_line<D: Desk>(
    alloc: Global,
    desk: &mut D,
    held: &mut Text,
    line: &Line,
) -> Result<(), PutFault>
    ensures { Spills (D.state desk.old) (D.state desk.new) held.old held.new (log_line line.now) result }
{
    put_log_line(held, line)?;
    spill_much(alloc, desk, held)
}

/// The lines of a log.
pub fn put_log<D: Desk>(
    alloc: Global,
    desk: &mut D,
    held: &mut Text,
    log: &Log,
) -> Result<(), PutFault>
    ensures { Spills (D.state desk.old) (D.state desk.new) held.old held.new (parts_from log_part 0 log.now) result }
{
    for at in 0..log.len() {
        let Some(item) = log.get(at) else {
            return Ok(());
        };
        spill_line(alloc, desk, held, item)?;
    }
    Ok(())
}

fn spill_value<D: Desk>(
    alloc: Global,
    desk: &mut D,
    held: &mut Text,
    variable: u64,
    value: bool,
) -> Result<(), PutFault>
    ensures { Spills (D.state desk.old) (D.state desk.new) held.old held.new (value_text variable value) result }
{
    put_value(held, variable, value)?;
    spill_much(alloc, desk, held)
}

/// The values of a model, variable by variable.
pub fn put_model<D: Desk>(
    alloc: Global,
    desk: &mut D,
    held: &mut Text,
    values: &Assignment,
) -> Result<(), PutFault>
    ensures { Spills (D.state desk.old) (D.state desk.new) held.old held.new (parts_from value_text 1 values.now) result }
{
    for at in 0..values.len() {
        let Some(item) = values.get(at) else {
            return Ok(());
        };
        spill_value(alloc, desk, held, at as u64 + 1, *item)?;
    }
    Ok(())
}
