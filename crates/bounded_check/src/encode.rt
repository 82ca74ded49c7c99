// The formula of an application's runs.
ghost use Rattle.std.specs.Prelude.{◌≡◌, ◌≤◌, true, IfOk, length};
ghost use Rattle.application.specs.InOrder.{IsInOrder};
ghost use Rattle.bounded_check.specs.Depicts.{Depicts};
ghost use Rattle.one_stack.specs.TaskForm.{is_task_form};
ghost use Rattle.step_ir.specs.Fits.{Fits};
ghost use Rattle.step_ir.specs.Points.{start_bits};
ghost use Rattle.step_ir.specs.PointStep.{behaviour_of};
ghost use Rattle.step_ir.specs.Setting.{setting_of};
ghost use Rattle.turn_encoding.specs.Encodings.{encoding_of, HasShape};

use application::app::App;
use guard_prog::law::prefixes_are_runs;
use one_stack::build::{OneStack, build};
use std::alloc::{AllocError, Global};
use step_ir::code::Code;
use trace_law::law::same_traces_of_codes;
use turn_unroll::encoding::Encoding;
use turn_unroll::unroll::unroll;

/// An encoding with the program that it encodes and the labels of its turns.
#[derive(Drop)]
pub struct Encoded {
    pub stack: OneStack,
    pub encoding: Encoding,
}

/// The encoding of all runs of at most so many turns, from 1 to 512, and at most so many arrivals, up to 15, of an application of the task
/// form. An error is want of memory.
pub fn encode(
    alloc: Global,
    app: &App,
    code: &Code,
    turns: u16,
    arrivals: u8,
) -> Result<Encoded, AllocError>
    requires order { IsInOrder app.now }
    requires fits { Fits app.now code.now }
    requires form { is_task_form app.now code.now ≡ true }
    requires least { 1 ≤ turns }
    requires most { turns ≤ 512 }
    requires arrivals { arrivals ≤ 15 }
    ensures depicts { IfOk result (λ e. Depicts (encoding_of e.encoding) e.stack.labels (setting_of app.now) (behaviour_of code.now) (start_bits code.now) turns arrivals) }

    // The rows have a literal for each depth, for each label and the padding, and for each bit of a word.
    ensures shape { IfOk result (λ e. HasShape (encoding_of e.encoding) e.stack.program.depth (length e.stack.labels) turns) }
    ensures depth { IfOk result (λ e. e.stack.program.depth ≤ 16) }
    ensures entities { IfOk result (λ e. e.stack.program.depth ≡ (setting_of app.now).entities) }
    ensures turns { IfOk result (λ e. e.encoding.turns ≡ turns) }
{
    prefixes_are_runs();
    same_traces_of_codes();
    let stack = build(alloc, app, code, arrivals)?;
    let encoding = unroll(alloc, &stack.program, turns)?;
    Ok(Encoded { stack, encoding })
}
