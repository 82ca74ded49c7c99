// Schedule texts.
ghost use Rattle.std.specs.Prelude.{◌≡◌, ◌≢◌, ℕ, ◌≤◌, ◌++◌, List, not, drop, IfOk, IfErr, IfSome, IfNone, MatchOption, length};
ghost use Rattle.std.specs.List.{prefix_len};
ghost use Rattle.application.specs.InOrder.{IsInOrder};
ghost use Rattle.chk_base.specs.Places.{is_line_feed};
ghost use Rattle.replay.specs.ScheduleText.{IsNamed, IsOneSchedule, IsWrong, Spells};
ghost use Rattle.step_ir.specs.declared.event.Choice.{Choice as Chosen};
ghost use Rattle.application.specs.declared.app.Entity.{Entity as Named};
ghost use Rattle.step_ir.specs.Fits.{Fits};

use crate::value::{ValueType, type_in, word_in};
use application::app::{App, Entity};
use chk_base::place::{Place, place_of};
use chk_base::text::Text;
use osek_machine::machine::Machine;
use std::alloc::{AllocError, Global};
use step_ir::code::Code;
use step_ir::event::{Choice, Choices};

/// Why a text isn't read. `Line` has the place where the first line begins that spells no choice: one that isn't `go`, `go VALUE` or
/// `arrive NAME`, or whose value or name is none there. `Memory` is want of memory.
#[derive(Clone, Copy, PartialEq, Eq, Debug)]
pub enum ScheduleFault {
    Line(Place),
    Memory,
}

impl From<AllocError> for ScheduleFault {
    ghost use Rattle.std.specs.Prelude.{◌≡◌};
    ghost use Rattle.replay.specs.declared.schedule.ScheduleFault.TheVariants.{Memory};

    ghost from_gives = { λ _ fault. fault ≡ Memory };

    fn from(_error: AllocError) -> ScheduleFault {
        ScheduleFault::Memory
    }
}

// How many bytes the first line has, without its line feed.
fn line_length(text: &[u8]) -> usize
    ensures count { result ≡ prefix_len (λ b. not (is_line_feed b)) text.now }
    ensures within { result ≤ length text.now }
{
    text.iter().take_while(|byte| **byte != b'\n').count()
}

// What follows the line feed of a line, if it has one.
fn behind(text: &[u8]) -> &[u8]
    ensures { result.now ≡ drop 1 text.now }
{
    match text.split_first() {
        Some((_, rest)) => rest,
        None => text,
    }
}

// What follows these bytes at the front of a line.
fn after<'a>(line: &'a [u8], front: &[u8]) -> Option<&'a [u8]>
    ensures { MatchOption result ((rest : List ℕ) → line.now ≢ front.now ++ rest) (λ rest. line.now ≡ front.now ++ rest.now) }
{
    line.strip_prefix(front)
}

// The routine with this name.
fn routine_of(app: &App, name: &[u8]) -> Option<Entity>
    requires order { IsInOrder app.now }
    ensures found { IfSome result (IsNamed app.now name.now) }
    ensures none { IfNone result ((r : Named) → IsNamed app.now name.now r → ⊥) }
{
    let routines = app.routines.items();
    for i in 0..routines.len() {
        if routines[i].name.as_bytes() == name {
            return Some(Entity((app.tasks.len() + i) as u8));
        }
    }
    None
}

// The choice that a line spells, where the input has this type.
fn choice_of(app: &App, input: Option<ValueType>, line: &[u8]) -> Option<Choice>
    requires order { IsInOrder app.now }
    ensures found { IfSome result (Spells app.now input line.now) }
    ensures none { IfNone result ((choice : Chosen) → Spells app.now input line.now choice → ⊥) }
{
    if line == b"go".as_slice() {
        return Some(Choice::Go);
    }
    if let Some(digits) = after(line, b"go ") {
        return Some(Choice::GoWith(word_in(input, digits)?));
    }
    let name = after(line, b"arrive ")?;
    Some(Choice::Arrive(routine_of(app, name)?))
}

/// The choices that the lines of a text spell: `go` for the step of who runs, `go VALUE` for its input, `arrive NAME` for the arrival of a
/// routine. Each line ends with a line feed, which the last may lack; the empty text has no line. VALUE is a decimal number without leading
/// zeros, `-` before a negative one, and is a value of the type of the running input in the state after the lines before; a line whose choice
/// isn't permitted leaves that state as it was. Where who runs stands at no input, VALUE is any number from -2147483648 to 4294967295, as a
/// word of 32 bits.
pub fn read_schedule(
    alloc: Global,
    text: &Text,
    app: &App,
    code: &Code,
) -> Result<Choices, ScheduleFault>
    requires order { IsInOrder app.now }
    requires fit { Fits app.now code.now }
    requires short { length text.now ≤ 262144 }
    ensures choices { IfOk result (IsOneSchedule app.now code.now text.now) }
    ensures few { IfOk result (λ choices. length choices ≤ length text.now) }
    ensures refused { IfErr result (IsWrong app.now code.now text.now) }
{
    let mut machine = Machine::new(alloc, app, code)?;
    let mut choices = Choices::new(alloc);
    let all = text.as_bytes();
    let mut rest = all;
    while !rest.is_empty() {
        let (line, others) = rest.split_at(line_length(rest));
        let input = type_in(code, machine.input());
        let Some(choice) = choice_of(app, input, line) else {
            let offset = all.len() - rest.len();
            return Err(ScheduleFault::Line(place_of(text, offset as u32)));
        };
        choices.push(choice)?;
        let _ = machine.step(&choice);
        rest = behind(others);
    }
    Ok(choices)
}
