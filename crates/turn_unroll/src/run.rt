// The run that an assignment gives.
ghost use Rattle.std.specs.Prelude.{◌≡◌, ◌<◌, ◌^◌, length, slice_get, [], ◌∷◌, ◌++◌, IfOk, OnErr, OnOk};
ghost use Rattle.std.specs.Option.{option_copied};
ghost use Rattle.clause_form.specs.ClauseTruth.{is_lit_true, values_of};
ghost use Rattle.bit_circuit.specs.BusValue.{bit, number};
ghost use Rattle.turn_law.specs.Description.{read, turns_read};
ghost use Rattle.turn_law.specs.Symbol.{first_true};
ghost use Rattle.turn_encoding.specs.Encodings.{encoding_of};
ghost use Rattle.turn_unroll.specs.Runs.{AreWhole, IsWhole, pair_at, pairs_of};

use crate::encoding::Encoding;
use crate::rows::place;
use chk_base::word::Word;
use clause_form::assignment::Assignment;
use clause_form::lit::{Lit, Lits};
use std::alloc::{AllocError, Global};
use std::marker::Model;

/// A turn of a run. The label is from 1 to the greatest of the program; the input has 32 bits, and is 0 where the label takes none.
#[derive(Clone, Copy, PartialEq, Eq, Debug)]
pub struct Turn {
    pub label: u32,
    pub input: Word,
}

/// Turns in order.
#[derive(Drop)]
pub struct Run {
    items: Vec<Turn>,
}

impl Model for Run {
    ghost use Rattle.std.specs.Prelude.{List};
    ghost use Rattle.turn_unroll.specs.declared.run.Turn.{Turn};

    ghost Value = { List Turn };

    ghost view = { λ r. r.items.items };
}

impl Run {
    pub fn new(alloc: Global) -> Self
        ensures { result ≡ [] }
    {
        Run {
            items: Vec::new(alloc),
        }
    }

    pub fn push(&mut self, item: Turn) -> Result<(), AllocError>
        ensures ok { OnOk result (self.new ≡ self.old ++ item ∷ []) }
        ensures err { OnErr result (self.new ≡ self.old) }
    {
        self.items.push(item)?;
        Ok(())
    }

    pub fn len(&self) -> usize
        ensures { result ≡ length self.now }
    {
        self.items.len()
    }

    pub fn get(&self, at: usize) -> Option<&Turn>
        ensures { option_copied result ≡ slice_get self.now at }
    {
        self.items.get(at)
    }
}

// The value of a variable; one that the values don't reach is false.
fn value_of(values: &Assignment, variable: u64) -> bool
    ensures { result ≡ values_of values.now variable }
{
    if variable == 0 {
        return false;
    }
    match values.get((variable - 1) as usize) {
        Some(value) => *value,
        None => false,
    }
}

// The value of a literal.
#[tactic(auto, unfolding(clause_form::specs::ClauseTruth::is_lit_true))]
fn holds(lit: Lit, values: &Assignment) -> bool
    ensures { result ≡ is_lit_true (values_of values.now) lit }
{
    let value = value_of(values, lit.variable());
    if lit.is_positive() { value } else { !value }
}

// 1 for a literal that is true, and 0 for one that is false.
fn bit(lit: Lit, values: &Assignment) -> u32
    ensures { result ≡ bit (values_of values.now) lit }
{
    if holds(lit, values) { 1 } else { 0 }
}

// The place of the first literal that is true, and the number of literals where none is.
fn first_true(row: &Lits, values: &Assignment) -> u32
    requires { length row.now < 2 ^ 32 }
    ensures { result ≡ first_true (values_of values.now) row.now }
{
    for i in 0..row.len() {
        if holds(place(row, i), values) {
            return i as u32;
        }
    }
    row.len() as u32
}

// The number whose bits the literals are.
fn number(row: &Lits, values: &Assignment) -> u32
    requires { length row.now ≡ 32 }
    ensures { result ≡ number (values_of values.now) row.now }
{
    let mut sum = 0;
    for i in (0..32).rev() {
        sum = 2 * sum + bit(place(row, i), values);
    }
    sum
}

// The label and the word of a turn, and None after the last.
fn turn_at(encoding: &Encoding, values: &Assignment, t: usize) -> Option<Turn>
    ensures pair { pair_at result ≡ slice_get (turns_read (values_of values.now) encoding.now.alternatives encoding.now.inputs) t }
    ensures width { IsWhole result }
{
    let labels = encoding.alternatives.row(t)?;
    let word = encoding.inputs.row(t)?;
    Some(Turn {
        label: first_true(labels, values),
        input: Word::whole(number(word, values)),
    })
}

/// The labels and words that the literals give under the values, turn by turn, up to before the first label 0. Where the values make the
/// formula true, this is a run of the program; a variable without a value counts as false. An error is want of memory.
pub fn run_of(alloc: Global, encoding: &Encoding, values: &Assignment) -> Result<Run, AllocError>
    ensures run { IfOk result (λ run. pairs_of run ≡ read (encoding_of encoding.now) (values_of values.now)) }
    ensures width { IfOk result (λ run. AreWhole run) }
{
    let mut run = Run::new(alloc);
    for t in 0..encoding.alternatives.len() {
        match turn_at(encoding, values, t) {
            Some(turn) => {
                if turn.label == 0 {
                    return Ok(run);
                }
                run.push(turn)?;
            }
            None => return Ok(run),
        }
    }
    Ok(run)
}
