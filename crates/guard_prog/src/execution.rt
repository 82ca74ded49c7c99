// Runs of a guarded program, turn by turn: plain and slow, for tests.
ghost use Rattle.std.specs.Prelude.{◌≡◌, ◌++◌, ◌%◌, ◌^◌, ◌<◌, ◌==◌, ℕ, if◌then◌else◌, IfOk, IfSome, true, length, slice_get, unwrap_or};
ghost use Rattle.std.specs.List.{list_all};
ghost use Rattle.std.specs.Option.{option_copied, option_map};
ghost use Rattle.chk_base.specs.Operators.{truth};
ghost use Rattle.chk_base.specs.Term.{term_of};
ghost use Rattle.chk_base.specs.Widths.{limit_of};
ghost use Rattle.guard_prog.specs.Drafts.{plain_alternatives, plain_of, plain_sets, program_of};
ghost use Rattle.guard_prog.specs.Executions.{IsExecutionOf, bits_at, enabled_with, is_takeable, state_of, values_after, width_at, widths_of};
ghost use Rattle.guard_prog.specs.GuardedRun.{alternatives_at, cell_after_input, cell_after_sets, is_fail, run, stack_after, start_of, takes_word, turn, turn_by, value_in};
ghost use Rattle.guard_prog.specs.WellShaped.{IsWellShaped, input_fits, sets_name_cells, starts_fit};

use crate::draft::{Alternative, Control, Draft, Stack};
use crate::guarded::Guarded;
use crate::shape::alternatives_of;
use chk_base::cells::Cells;
use chk_base::meaning::eval;
use chk_base::sets::Set;
use chk_base::word::{Width, Word};
use std::alloc::{AllocError, Global};

/// A run that has come so far: its cells, its stack with the top first, and whether a failure has come.
#[derive(Drop)]
pub struct Execution {
    pub cells: Cells,
    pub stack: Stack,
    pub is_failed: bool,
}

#[tactic(auto, using(crate::proofs::Cells::guard_within))]
fn is_enabled(cells: &Cells, alternative: &Alternative) -> bool
    requires { is_takeable (widths_of cells.now) alternative.now ≡ true }
    ensures { result ≡ truth (value_in (width_at cells.now) (bits_at cells.now) (term_of alternative.now.guard)) }
{
    eval(&alternative.guard, cells).bits != 0
}

// The enabled alternative with this label.
fn enabled_with<'a>(cells: &Cells, point: &'a [Alternative], label: u32) -> Option<&'a Alternative>
    requires { list_all (is_takeable (widths_of cells.now)) point.now ≡ true }
    ensures found { option_map plain_of (option_copied result) ≡ enabled_with cells.now label point.now }
    ensures takeable { IfSome (option_copied result) (λ a. is_takeable (widths_of cells.now) a ≡ true) }
{
    let mut rest = point;
    while let Some((alternative, others)) = rest.split_first() {
        if is_enabled(cells, alternative) && alternative.label == label {
            return Some(alternative);
        }
        rest = others;
    }
    None
}

fn is_word_for(input: Option<Width>, word: u32) -> bool
    ensures { result ≡ takes_word input word }
{
    match input {
        None => word == 0,
        Some(width) => Word::new(width, word).is_some(),
    }
}

// The stack of these points and what is below them.
fn joined(alloc: Global, above: &[u16], below: &[u16]) -> Result<Stack, AllocError>
    ensures { IfOk result (λ stack. stack ≡ above.now ++ below.now) }
{
    let mut stack = Stack::new(alloc);
    stack.append(above)?;
    stack.append(below)?;
    Ok(stack)
}

// The stack after a turn, if the turn can be taken.
fn next_stack(
    alloc: Global,
    depth: u8,
    control: Control,
    stack: &[u16],
) -> Result<Option<Stack>, AllocError>
    ensures { IfOk result (λ after. after ≡ stack_after depth control stack.now) }
{
    let after = match (control, stack) {
        (Control::Goto(q), [_, below @ ..]) => joined(alloc, &[q], below)?,
        (
            Control::Push {
                below: under,
                start,
            },
            [_, below @ ..],
        ) if stack.len() <= depth as usize => { joined(alloc, &[start, under], below)? }
        (Control::Pop, [_, next, below @ ..]) => joined(alloc, &[*next], below)?,
        (Control::PopPush(q), [_, next, below @ ..]) => joined(alloc, &[q, *next], below)?,
        (Control::Fail, [top, below @ ..]) => joined(alloc, &[*top], below)?,
        _ => return Ok(None),
    };
    Ok(Some(after))
}

// Sets a cell to a number modulo its width.
fn set_cell(cells: &mut Cells, cell: u16, number: u32)
    requires { cell < length cells.old }
    ensures widths { widths_of cells.new ≡ widths_of cells.old }
    ensures bits { (q : ℕ) → bits_at cells.new q ≡
        (if cell == q then number % limit_of (width_at cells.old q) else bits_at cells.old q) }
{
    let width = cells.get(cell).width;
    cells.set(cell, Word::taken(width, number));
}

// Sets the cells; each value is taken over the old cells.
fn set_cells(cells: &Cells, after: &mut Cells, sets: &[Set])
    requires start { after.old ≡ cells.now }
    requires fits { sets_name_cells (length cells.now) sets.now ≡ true }
    ensures widths { widths_of after.new ≡ widths_of cells.now }
    ensures bits { (q : ℕ) → bits_at after.new q ≡
        cell_after_sets (width_at cells.now) (bits_at cells.now) (plain_sets sets.now) q }
{
    for i in (0..sets.len()).rev() {
        let set = &sets[i];
        set_cell(after, set.cell, eval(&set.value, cells).bits);
    }
}

// Sets the cells where the first set takes the turn's word in place of its value.
fn set_cells_with_input(cells: &Cells, after: &mut Cells, sets: &[Set], width: Width, word: u32)
    requires start { after.old ≡ cells.now }
    requires fits { sets_name_cells (length cells.now) sets.now ≡ true }
    requires input { input_fits (widths_of cells.now) sets.now (Some width) ≡ true }
    requires word { word < limit_of width }
    ensures widths { widths_of after.new ≡ widths_of cells.now }
    ensures bits { (q : ℕ) → bits_at after.new q ≡
        cell_after_input (width_at cells.now) (bits_at cells.now) word (plain_sets sets.now) q }
{
    if let Some((first, others)) = sets.split_first() {
        set_cells(cells, after, others);
        set_cell(after, first.cell, word);
    }
}

// The cells after an alternative that is taken with this word.
fn next_cells(
    alloc: Global,
    cells: &Cells,
    alternative: &Alternative,
    word: u32,
) -> Result<Cells, AllocError>
    requires takeable { is_takeable (widths_of cells.now) alternative.now ≡ true }
    requires word { takes_word alternative.now.input word ≡ true }
    ensures widths { IfOk result (λ after. widths_of after ≡ widths_of cells.now) }
    ensures bits { IfOk result (λ after. (q : ℕ) → bits_at after q ≡ values_after cells.now alternative.now word q) }
{
    let mut after = cells.copy(alloc)?;
    let sets = alternative.sets.items();
    match (alternative.control, alternative.input) {
        (Control::Fail, _) => {}
        (_, None) => set_cells(cells, &mut after, sets),
        (_, Some(width)) => set_cells_with_input(cells, &mut after, sets, width, word),
    }
    Ok(after)
}

// The alternatives of the top point.
fn top_point<'a>(draft: &'a Draft, stack: &[u16]) -> &'a [Alternative]
    requires { IsWellShaped draft.now }
    ensures point { plain_alternatives result.now ≡ alternatives_at (program_of draft.now) stack.now }
    ensures takeable { list_all (is_takeable draft.now.widths) result.now ≡ true }
{
    match stack.split_first() {
        Some((top, _)) => alternatives_of(draft, *top as usize),
        None => &[],
    }
}

fn fails(control: Control) -> bool
    ensures { result ≡ is_fail control }
{
    matches!(control, Control::Fail)
}

// The cells with their start values.
fn start_cells(alloc: Global, widths: &[Width], starts: &[u32]) -> Result<Cells, AllocError>
    requires fits { starts_fit widths.now starts.now ≡ true }
    requires few { length widths.now < 2 ^ 16 }
    ensures widths { IfOk result (λ cells. widths_of cells ≡ widths.now) }
    ensures bits { IfOk result (λ cells. (q : ℕ) → bits_at cells q ≡ unwrap_or (slice_get starts.now q) 0) }
{
    let mut cells = Cells::new(alloc, widths)?;
    for q in 0..starts.len() {
        set_cell(&mut cells, q as u16, starts[q]);
    }
    Ok(cells)
}

impl Execution {
    /// The state at the start.
    pub fn new(alloc: Global, program: &Guarded) -> Result<Execution, AllocError>
        ensures state { IfOk result (λ execution. state_of execution ≡ start_of (program_of program.now)) }
        ensures widths { IfOk result (IsExecutionOf program.now) }
    {
        let draft = program.draft();
        Ok(Execution {
            cells: start_cells(alloc, draft.widths.items(), draft.starts.items())?,
            stack: Stack::reversed(alloc, draft.first.items())?,
            is_failed: false,
        })
    }

    // The state after this alternative is taken with this word, if it can be.
    fn after(
        &self,
        alloc: Global,
        draft: &Draft,
        alternative: &Alternative,
        word: u32,
    ) -> Result<Option<Execution>, AllocError>
        requires execution { IsExecutionOf draft.now self.now }
        requires takeable { is_takeable draft.now.widths alternative.now ≡ true }
        ensures state { IfOk result (λ next. option_map state_of next ≡
            turn_by (program_of draft.now) (state_of self.now) word (Some (plain_of alternative.now))) }
        ensures widths { IfOk result (λ next. IfSome next (IsExecutionOf draft.now)) }
    {
        if !is_word_for(alternative.input, word) {
            return Ok(None);
        }
        let Some(stack) = next_stack(alloc, draft.depth, alternative.control, self.stack.items())?
        else {
            return Ok(None);
        };
        Ok(Some(Execution {
            cells: next_cells(alloc, &self.cells, alternative, word)?,
            stack,
            is_failed: fails(alternative.control),
        }))
    }

    /// The state after one turn with this label and word; None where it is no turn.
    pub fn take(
        &self,
        alloc: Global,
        program: &Guarded,
        label: u32,
        word: u32,
    ) -> Result<Option<Execution>, AllocError>
        requires { IsExecutionOf program.now self.now }
        ensures state { IfOk result (λ next. option_map state_of next ≡
            turn (program_of program.now) (state_of self.now) (label, word)) }
        ensures widths { IfOk result (λ next. IfSome next (IsExecutionOf program.now)) }
    {
        if self.is_failed {
            return Ok(None);
        }
        let draft = program.draft();
        let point = top_point(draft, self.stack.items());
        match enabled_with(&self.cells, point, label) {
            Some(alternative) => self.after(alloc, draft, alternative, word),
            None => Ok(None),
        }
    }

    /// The state after these pairs of label and word, one turn for each; None where one of them is no turn.
    pub fn run(
        alloc: Global,
        program: &Guarded,
        pairs: &[(u32, u32)],
    ) -> Result<Option<Execution>, AllocError>
        ensures { IfOk result (λ last. option_map state_of last ≡
            run (program_of program.now) pairs.now (start_of (program_of program.now))) }
    {
        let mut execution = Execution::new(alloc, program)?;
        let mut rest = pairs;
        while let Some((pair, others)) = rest.split_first() {
            match execution.take(alloc, program, pair.0, pair.1)? {
                Some(next) => execution = next,
                None => return Ok(None),
            }
            rest = others;
        }
        Ok(Some(execution))
    }
}
