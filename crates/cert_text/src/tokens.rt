// Parts of a certificate's text, put at the end of a text in memory.
ghost use Rattle.std.specs.Prelude.{◌≡◌, ◌++◌, OnOk, codes, decimal};
ghost use Rattle.cert_form.specs.Words.{literal_token};
ghost use Rattle.cert_text.specs.Parts.{cell_line, clause_text, hints_text, label_line, label_text, literals_text, log_line, numbered, pair_line, value_text};

use crate::label::LabelText;
use chk_base::text::Text;
use clause_form::clause::Clause;
use clause_form::line::{Hints, Line};
use clause_form::lit::Lit;
use itoa::Buffer;
use std::alloc::AllocError;

pub fn put_number(out: &mut Text, number: u64) -> Result<(), AllocError>
    ensures { OnOk result (out.new ≡ out.old ++ decimal number) }
{
    let mut buffer = Buffer::new();
    out.append(buffer.format(number).as_bytes())
}

/// A word, a number, and the line's end.
pub fn put_numbered(out: &mut Text, word: &[u8], number: u64) -> Result<(), AllocError>
    ensures { OnOk result (out.new ≡ out.old ++ numbered word.now number) }
{
    out.append(word)?;
    out.append(b" ")?;
    put_number(out, number)?;
    out.append(b"\n")
}

#[tactic(auto, unfolding(clause_form::specs::Literals::is_positive))]
fn put_literal(out: &mut Text, lit: Lit) -> Result<(), AllocError>
    ensures { OnOk result (out.new ≡ out.old ++ literal_token lit) }
{
    if !lit.is_positive() {
        out.append(b"-")?;
    }
    put_number(out, lit.variable())
}

fn put_literals(out: &mut Text, lits: &[Lit]) -> Result<(), AllocError>
    ensures { OnOk result (out.new ≡ out.old ++ literals_text lits.now) }
{
    for lit in lits {
        put_literal(out, *lit)?;
        out.append(b" ")?;
    }
    Ok(())
}

/// The literals of a clause, and 0.
pub fn put_clause(out: &mut Text, lits: &[Lit]) -> Result<(), AllocError>
    ensures { OnOk result (out.new ≡ out.old ++ clause_text lits.now) }
{
    put_literals(out, lits)?;
    out.append(b"0")
}

pub fn put_clause_line(out: &mut Text, clause: &Clause) -> Result<(), AllocError>
    ensures { OnOk result (out.new ≡ out.old ++ (clause_text clause.now ++ codes "\n")) }
{
    put_clause(out, clause.lits())?;
    out.append(b"\n")
}

fn put_hints(out: &mut Text, hints: &Hints) -> Result<(), AllocError>
    ensures { OnOk result (out.new ≡ out.old ++ hints_text hints.now) }
{
    for at in 0..hints.len() {
        let Some(hint) = hints.get(at) else {
            return Ok(());
        };
        put_number(out, *hint)?;
        out.append(b" ")?;
    }
    Ok(())
}

pub fn put_log_line(out: &mut Text, line: &Line) -> Result<(), AllocError>
    ensures { OnOk result (out.new ≡ out.old ++ log_line line.now) }
{
    put_clause(out, line.clause.lits())?;
    out.append(b" ")?;
    put_hints(out, &line.hints)?;
    out.append(b"0\n")
}

fn put_label(out: &mut Text, label: &LabelText) -> Result<(), AllocError>
    ensures { OnOk result (out.new ≡ out.old ++ label_text label.now) }
{
    match label {
        LabelText::Idle => out.append(b"idle"),
        LabelText::Arrive(name) => {
            out.append(b"arrive ")?;
            out.append(name.as_bytes())
        }
        LabelText::Step(name, point) => {
            out.append(b"step ")?;
            out.append(name.as_bytes())?;
            out.append(b" ")?;
            put_number(out, *point as u64)
        }
    }
}

/// A word, two numbers, and the line's end.
pub fn put_pair(out: &mut Text, word: &[u8], first: u64, second: u64) -> Result<(), AllocError>
    ensures { OnOk result (out.new ≡ out.old ++ pair_line word.now first second) }
{
    out.append(word)?;
    out.append(b" ")?;
    put_number(out, first)?;
    out.append(b" ")?;
    put_number(out, second)?;
    out.append(b"\n")
}

/// The line of the label with this number.
pub fn put_label_line(out: &mut Text, number: u64, label: &LabelText) -> Result<(), AllocError>
    ensures { OnOk result (out.new ≡ out.old ++ label_line number label.now) }
{
    out.append(b"label ")?;
    put_number(out, number)?;
    out.append(b" ")?;
    put_label(out, label)?;
    out.append(b"\n")
}

/// The line of a table's literal, with its word, row and column.
pub fn put_cell_line(
    out: &mut Text,
    word: &[u8],
    row: u64,
    column: u64,
    lit: Lit,
) -> Result<(), AllocError>
    ensures { OnOk result (out.new ≡ out.old ++ cell_line word.now row column lit) }
{
    out.append(word)?;
    out.append(b" ")?;
    put_number(out, row)?;
    out.append(b" ")?;
    put_number(out, column)?;
    out.append(b" ")?;
    put_literal(out, lit)?;
    out.append(b"\n")
}

/// The variable with this number, or its negation where its value is false, and a space.
pub fn put_value(out: &mut Text, variable: u64, value: bool) -> Result<(), AllocError>
    ensures { OnOk result (out.new ≡ out.old ++ value_text variable value) }
{
    if !value {
        out.append(b"-")?;
    }
    put_number(out, variable)?;
    out.append(b" ")
}
