// Readers of the lines of depths and turns, of which only the number of depths is kept.
ghost use Rattle.std.specs.Prelude.{◌≡◌, ◌<◌, ◌≤◌, ◌+◌, ◌-◌, ◌∷◌, [], ℕ, codes, length, true, IfOk};
ghost use Rattle.std.specs.Fmt.{decimal};
ghost use Rattle.format.specs.Format.{nothing};
ghost use Rattle.cert_form.specs.Parts.{after_width_read, first_line_read, first_row_read, first_stop, first_turn, line_read, literal_read, moving_read, row_read, rows_read, second_row_read, tables_read};
ghost use Rattle.cert_form.specs.Texts.{GivesBy};
ghost use Rattle.cert_form.specs.Certificate.{nought};
ghost use Rattle.cert_form.specs.Words.{limit, sp, words};

use crate::labels::front;
use crate::one_token::{ReadError, fixed, keyword, last_word, literal, skip, word};

// A literal to the end of the line.
#[tactic(auto, using(crate::proofs::TableParts::literal_opened))]
fn literal_line(text: &[u8], variables: u64) -> Result<&[u8], ReadError>
    requires { variables < limit }
    ensures gives { GivesBy (literal_read variables) (λ _. tt) (λ r. r.now) result text.now }
    ensures shorter { IfOk result (λ r. length r.now < length text.now) }
{
    match literal(text, 0, variables) {
        Ok((_, rest)) => word(rest, b"\n"),
        Err(fault) => Err(fault),
    }
}

// A line of a table: its word, its two numbers and a literal.
#[tactic(auto, using(crate::proofs::TableParts::line_opened))]
fn line<'a>(
    text: &'a [u8],
    table: &[u8],
    variables: u64,
    turn: u64,
    number: u64,
) -> Result<&'a [u8], ReadError<'a>>
    requires few { variables < limit }
    requires turn { turn < limit }
    requires number { number < limit }
    ensures gives { GivesBy (line_read table.now variables turn number) (λ _. tt) (λ r. r.now) result text.now }
    ensures shorter { IfOk result (λ r. length r.now < length text.now) }
{
    let rest = match front(text, table, turn) {
        Ok(rest) => rest,
        Err(fault) => return Err(fault),
    };
    let rest = match fixed(rest, number) {
        Ok(rest) => rest,
        Err(fault) => return Err(fault),
    };
    match word(rest, b" ") {
        Ok(rest) => literal_line(rest, variables),
        Err(fault) => Err(fault),
    }
}

// So many lines of one turn.
#[tactic(auto, using(crate::proofs::TableParts::row_start, crate::proofs::TableParts::row_more, crate::proofs::TableParts::row_stuck, crate::proofs::TableParts::row_done))]
fn row<'a>(
    text: &'a [u8],
    table: &[u8],
    variables: u64,
    turn: u64,
    first: u64,
    count: u64,
) -> Result<&'a [u8], ReadError<'a>>
    requires few { variables < limit }
    requires turn { turn < limit }
    requires last { first + count ≤ limit }
    ensures gives { GivesBy (row_read table.now variables turn first count) (λ _. tt) (λ r. r.now) result text.now }
    ensures shorter { IfOk result (λ r. length r.now ≤ length text.now) }
{
    let mut rest = text;
    for number in first..first + count {
        rest = line(rest, table, variables, turn, number)?;
    }
    Ok(rest)
}

// The lines of so many turns, with so many lines each.
#[tactic(auto, using(crate::proofs::TableParts::rows_start, crate::proofs::TableParts::rows_more, crate::proofs::TableParts::rows_stuck, crate::proofs::TableParts::rows_done))]
fn rows<'a>(
    text: &'a [u8],
    table: &[u8],
    variables: u64,
    width: u64,
    first: u64,
    count: u64,
) -> Result<&'a [u8], ReadError<'a>>
    requires few { variables < limit }
    requires width { width ≤ limit }
    requires last { first + count ≤ limit }
    ensures gives { GivesBy (rows_read table.now variables width first count) (λ _. tt) (λ r. r.now) result text.now }
    ensures shorter { IfOk result (λ r. length r.now ≤ length text.now) }
{
    let mut rest = text;
    for turn in first..first + count {
        rest = row(rest, table, variables, turn, 0, width)?;
    }
    Ok(rest)
}

// A line of the first row, as it is cut where other rows follow.
#[tactic(auto, using(crate::proofs::TableParts::shifted_opened))]
fn shifted_line(text: &[u8], variables: u64, number: u64) -> Result<&[u8], ReadError>
    requires few { variables < limit }
    requires number { number < limit }
    ensures gives { GivesBy (first_line_read true variables number) (λ _. tt) (λ r. r.now) result text.now }
    ensures shorter { IfOk result (λ r. length r.now < length text.now) }
{
    let rest = match front(text, b"0", number) {
        Ok(rest) => rest,
        Err(fault) => return Err(fault),
    };
    match literal_line(rest, variables) {
        Ok(rest) => keyword(rest, b"depth"),
        Err(fault) => Err(fault),
    }
}

#[tactic(auto, using(crate::proofs::TableParts::first_line_alone))]
fn first_line(text: &[u8], more: bool, variables: u64, number: u64) -> Result<&[u8], ReadError>
    requires few { variables < limit }
    requires number { number < limit }
    ensures gives { GivesBy (first_line_read more variables number) (λ _. tt) (λ r. r.now) result text.now }
    ensures shorter { IfOk result (λ r. length r.now < length text.now) }
{
    if more {
        shifted_line(text, variables, number)
    } else {
        line(text, b"depth", variables, 0, number)
    }
}

// What stands after the first row.
fn first_stop(more: bool) -> &'static [u8]
    ensures { result.now ≡ first_stop more }
{
    if more { b"1" } else { b"log" }
}

// Whether the first row has one more line, which is passed over; at most 17 are taken.
#[tactic(auto, using(crate::proofs::TableParts::first_turn_stop, crate::proofs::TableParts::first_turn_line, crate::proofs::TableParts::first_turn_never))]
fn first_item(
    text: &[u8],
    more: bool,
    variables: u64,
    number: u64,
) -> Result<(bool, &[u8]), ReadError>
    requires few { variables < limit }
    ensures gives { GivesBy (first_turn more variables number) (λ x. x.0) (λ x. x.1.now) result text.now }
    ensures at_most { IfOk result (λ x. x.0 ≡ true → number < 17) }
    ensures shorter { IfOk result (λ x. length x.1.now < length text.now) }
{
    if let Some(rest) = skip(text, first_stop(more)) {
        return Ok((false, rest));
    }
    if number >= 17 {
        return Err(ReadError::At(text));
    }
    match first_line(text, more, variables, number) {
        Ok(rest) => Ok((true, rest)),
        Err(fault) => Err(fault),
    }
}

// How many lines the first row has, and what follows them and the token that stops.
#[tactic(auto, using(crate::proofs::TableParts::first_row_opened, crate::proofs::TableParts::first_rest_stop, crate::proofs::TableParts::first_rest_more, crate::proofs::TableParts::first_rest_stuck))]
fn first_row(text: &[u8], more: bool, variables: u64) -> Result<(u64, &[u8]), ReadError>
    requires few { variables < limit }
    requires known { 0 < variables }
    ensures gives { GivesBy (first_row_read more variables) (λ x. x.0) (λ x. x.1.now) result text.now }
    ensures some { IfOk result (λ x. (1 ≤ x.0) × (x.0 ≤ 17)) }
    ensures shorter { IfOk result (λ x. length x.1.now < length text.now) }
{
    let mut rest = first_line(text, more, variables, 0)?;
    let mut number: u64 = 1;
    'items: loop {
        let (item, after) = first_item(rest, more, variables, number)?;
        rest = after;
        if !item {
            return Ok((number, rest));
        }
        number += 1;
    }
}

// The front of the row of T = 1, of which the first word was read.
fn second_front(text: &[u8]) -> Result<&[u8], ReadError>
    ensures gives { GivesBy (words (sp ∷ nought ∷ sp ∷ []) nothing).read (λ _. tt) (λ r. r.now) result text.now }
    ensures shorter { IfOk result (λ r. length r.now < length text.now) }
{
    match word(text, b" ") {
        Ok(rest) => keyword(rest, b"0"),
        Err(fault) => Err(fault),
    }
}

// The row of T = 1 behind its front.
#[tactic(auto, using(crate::proofs::TableParts::second_row_opened))]
fn second_row(text: &[u8], variables: u64, width: u64) -> Result<&[u8], ReadError>
    requires few { variables < limit }
    requires width { (1 ≤ width) × (width ≤ limit) }
    ensures gives { GivesBy (second_row_read variables width) (λ _. tt) (λ r. r.now) result text.now }
    ensures shorter { IfOk result (λ r. length r.now < length text.now) }
{
    match literal_line(text, variables) {
        Ok(rest) => row(rest, b"depth", variables, 1, 1, width - 1),
        Err(fault) => Err(fault),
    }
}

// The rows after the first, each as wide as that.
#[tactic(auto, using(crate::proofs::TableParts::after_width_split))]
fn after_width(text: &[u8], variables: u64, width: u64, turns: u64) -> Result<&[u8], ReadError>
    requires few { variables < limit }
    requires width { (1 ≤ width) × (width ≤ limit) }
    requires some { 1 ≤ turns }
    requires last { turns < limit }
    ensures gives { GivesBy (after_width_read variables (turns - 1) width) (λ _. tt) (λ r. r.now) result text.now }
    ensures shorter { IfOk result (λ r. length r.now < length text.now) }
{
    let rest = match second_front(text) {
        Ok(rest) => rest,
        Err(fault) => return Err(fault),
    };
    match second_row(rest, variables, width) {
        Ok(rest) => rows(rest, b"depth", variables, width, 2, turns - 1),
        Err(fault) => Err(fault),
    }
}

// The depths where there are turns: the rows from 0 to their number.
#[tactic(auto, using(crate::proofs::TableParts::moving_opened))]
fn moving(text: &[u8], variables: u64, turns: u64) -> Result<&[u8], ReadError>
    requires few { variables < limit }
    requires known { 0 < variables }
    requires some { 1 ≤ turns }
    requires last { turns < limit }
    ensures gives { GivesBy (moving_read variables (turns - 1)) (λ _. tt) (λ r. r.now) result text.now }
    ensures shorter { IfOk result (λ r. length r.now < length text.now) }
{
    let rest = match keyword(text, b"depth") {
        Ok(rest) => rest,
        Err(fault) => return Err(fault),
    };
    match first_row(rest, true, variables) {
        Ok((width, rest)) => after_width(rest, variables, width, turns),
        Err(fault) => Err(fault),
    }
}

// The depths, the turns, and the line `log`.
#[tactic(auto, using(crate::proofs::TableParts::tables_still, crate::proofs::TableParts::tables_moving))]
pub(crate) fn tables(
    text: &[u8],
    variables: u64,
    labels: u64,
    turns: u64,
) -> Result<&[u8], ReadError>
    requires few { variables < limit }
    requires known { 0 < variables }
    requires labels { labels < limit }
    requires turns { turns < limit }
    ensures gives { GivesBy (tables_read variables labels turns) (λ _. tt) (λ r. r.now) result text.now }
    ensures shorter { IfOk result (λ r. length r.now < length text.now) }
{
    if turns == 0 {
        return match first_row(text, false, variables) {
            Ok((_, rest)) => word(rest, b"\n"),
            Err(fault) => Err(fault),
        };
    }
    let rest = match moving(text, variables, turns) {
        Ok(rest) => rest,
        Err(fault) => return Err(fault),
    };
    match rows(rest, b"turn", variables, labels, 1, turns) {
        Ok(rest) => last_word(rest, b"log"),
        Err(fault) => Err(fault),
    }
}
