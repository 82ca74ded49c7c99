// The guarded program of an application.
ghost use Rattle.std.specs.Prelude.{◌≡◌, ℕ, ◌≤◌, true, IfOk, length};
ghost use Rattle.application.specs.InOrder.{IsInOrder};
ghost use Rattle.guard_prog.specs.Drafts.{program_of};
ghost use Rattle.one_stack.specs.BuildExact.{IsExact, NamesActors};
ghost use Rattle.one_stack.specs.Built.{IsBuiltOf};
ghost use Rattle.one_stack.specs.Labelled.{Takes, TakesWord, chosen_by, labels_of, most_of, step_with};
ghost use Rattle.one_stack.specs.Near.{AreAllNear};
ghost use Rattle.one_stack.specs.TaskForm.{is_task_form};
ghost use Rattle.step_ir.specs.Fits.{Fits};
ghost use Rattle.step_ir.specs.Points.{points_in, start_bits};
ghost use Rattle.step_ir.specs.PointStep.{behaviour_of};
ghost use Rattle.step_ir.specs.Setting.{setting_of};

use crate::alternatives::all_points;
use crate::label::Labels;
use crate::labels::labels_of;
use crate::law::built_is_exact;
use crate::laying::layout_of;
use crate::start::start_of;
use crate::starts::{first_of, starts_of};
use application::app::App;
use chk_base::word::{Width, Word};
use guard_prog::draft::Draft;
use guard_prog::guarded::{Guarded, validate};
use std::alloc::{AllocError, Global};
use step_ir::code::Code;
use step_ir::event::Choice;
use step_ir::law::cells_within;

/// The guarded program of an application, whose runs are those of the machine with one stack, and what its labels stand for.
#[derive(Drop)]
pub struct OneStack {
    pub program: Guarded,
    pub labels: Labels,
}

// The program of an application, before anybody has looked at it.
fn draft_of(alloc: Global, app: &App, code: &Code) -> Result<Draft, AllocError>
    requires order { IsInOrder app.now }
    requires fits { Fits app.now code.now }
    requires near { (e : ℕ) → AreAllNear (points_in code.now e) }
    ensures { IfOk result (IsBuiltOf app.now code.now) }
{
    let layout = layout_of(alloc, app, code)?;
    let points = all_points(alloc, &layout, code)?;
    let start = start_of(alloc, &layout)?;
    let starts = starts_of(alloc, &layout, code, &start)?;
    let first = first_of(alloc, &layout, &start)?;
    let depth = layout.entities();
    Ok(Draft {
        widths: layout.into_widths(),
        starts,
        first,
        points,
        depth,
    })
}

/// The guarded program of an application, whose runs are exactly the choice lists of the one-stack machine, and whose labels have the
/// entities that act. It is made for the task form: no routine, no input, no `Schedule` and no section; so no routine arrives, whatever
/// `arrivals` is.
pub fn build(alloc: Global, app: &App, code: &Code, arrivals: u8) -> Result<OneStack, AllocError>
    requires order { IsInOrder app.now }
    requires fits { Fits app.now code.now }
    requires form { is_task_form app.now code.now ≡ true }
    requires arrivals { arrivals ≤ 15 }
    ensures built { IfOk result (λ o. IsBuiltOf app.now code.now o.program) }
    ensures exact { IfOk result (λ o. IsExact (setting_of app.now) (behaviour_of code.now) (start_bits code.now) arrivals (program_of o.program) (chosen_by o.labels)) }
    ensures actors { IfOk result (λ o. NamesActors (setting_of app.now) (behaviour_of code.now) (start_bits code.now) (program_of o.program) o.labels) }
    ensures labels { IfOk result (λ o. o.labels ≡ labels_of o.program.depth o.program.points) }
    ensures greatest { IfOk result (λ o. length o.labels ≡ most_of o.program.points) }
    ensures words { IfOk result (λ o. (label word : ℕ) → TakesWord o.labels label word) }
    ensures depth { IfOk result (λ o. o.program.depth ≤ 16) }
{
    let _ = arrivals;
    // Calls of laws do nothing: the proof takes what they ensure.
    built_is_exact();
    cells_within();
    let draft = draft_of(alloc, app, code)?;
    let labels = labels_of(alloc, draft.depth, draft.points.items())?;
    match validate(alloc, draft) {
        Ok(program) => Ok(OneStack { program, labels }),
        Err(_) => unreachable!(),
    }
}

// The step of a label that takes this input, or none.
fn step_with(input: Option<Width>, word: &Word) -> Choice
    requires { Takes input word.now.bits }
    ensures { result ≡ step_with input word.now.bits }
{
    match input {
        None => Choice::Go,
        Some(width) => match Word::new(width, word.bits) {
            Some(word) => Choice::GoWith(word),
            None => unreachable!(),
        },
    }
}

/// What a label with an input stands for. Where the label takes no input, the word doesn't count.
pub fn choice_of(stack: &OneStack, label: u32, input: &Word) -> Choice
    requires listed { (1 ≤ label) × (label ≤ length stack.now.labels) }
    requires input { TakesWord stack.now.labels label input.now.bits }
    ensures { result ≡ chosen_by stack.now.labels label input.now.bits }
{
    match stack.labels.get(label as usize - 1) {
        None => Choice::Go,
        Some(item) => {
            if item.arrives {
                Choice::Arrive(item.entity)
            } else {
                step_with(item.input, input)
            }
        }
    }
}
