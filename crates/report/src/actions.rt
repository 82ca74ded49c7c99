// What is done in a step.
ghost use Rattle.std.specs.Prelude.{◌≡◌, ◌++◌, Some, codes, decimal, slice_get};
ghost use Rattle.std.specs.Fmt.{signed_decimal};
ghost use Rattle.chk_base.specs.Widths.{reading_of};
ghost use Rattle.report.specs.EventTexts.{action_text, argument_text, branch_text, cell_text, element_text, fail_text, return_text, service_after, service_text, service_word, value_text};
ghost use Rattle.report.specs.Lines.{code_text, counted, entity_name, failure_text, resource_name};
ghost use Rattle.report.specs.Printing.{Prints};
ghost use Rattle.step_ir.specs.Points.{cells_of};

use crate::names::{cell_name, entity_name, put_call, resource_name};
use crate::pieces::{Piece, put, put_all};
use crate::reports::WriteFault;
use application::app::{App, Entity};
use chk_base::sink::Sink;
use chk_base::word::Word;
use step_ir::code::{CellName, Code};
use step_ir::event::{EventAction, Failure, Service};

fn put_value<S: Sink>(out: &mut S, name: &CellName, value: Word) -> Result<(), WriteFault>
    ensures { Prints (S.state out.old) (S.state out.new) (value_text (Some name.now) value) result }
{
    put_all(
        out,
        &[
            Piece::Text(&name.text),
            Piece::Element(name.element),
            Piece::Bytes(b"="),
            Piece::Reading(value, name.signed),
        ],
    )
}

// The value of the cell with this number.
#[tactic(auto, using(crate::proofs::Printing::prints_nothing))]
fn put_value_in<S: Sink>(out: &mut S, code: &Code, cell: u16, value: Word) -> Result<(), WriteFault>
    ensures { Prints (S.state out.old) (S.state out.new) (value_text (slice_get (cells_of code.now) cell) value) result }
{
    match cell_name(code, cell) {
        Some(name) => put_value(out, name, value),
        None => Ok(()),
    }
}

fn put_cell<S: Sink>(
    out: &mut S,
    word: &[u8],
    code: &Code,
    cell: u16,
    value: Word,
) -> Result<(), WriteFault>
    ensures { Prints (S.state out.old) (S.state out.new) (cell_text word.now code.now cell value) result }
{
    put_all(out, &[Piece::Bytes(word), Piece::Bytes(b" ")])?;
    put_value_in(out, code, cell, value)
}

fn service_word(service: Service) -> &'static [u8]
    ensures { result.now ≡ service_word service }
{
    match service {
        Service::Activate(_) => b"ActivateTask",
        Service::Terminate => b"TerminateTask",
        Service::Chain(_) => b"ChainTask",
        Service::Schedule => b"Schedule",
        Service::Get(_) => b"GetResource",
        Service::Release(_) => b"ReleaseResource",
        Service::DisableAll => b"DisableAllInterrupts",
        Service::EnableAll => b"EnableAllInterrupts",
        Service::SuspendAll => b"SuspendAllInterrupts",
        Service::ResumeAll => b"ResumeAllInterrupts",
        Service::SuspendOs => b"SuspendOSInterrupts",
        Service::ResumeOs => b"ResumeOSInterrupts",
    }
}

fn put_service_word<S: Sink>(out: &mut S, service: Service) -> Result<(), WriteFault>
    ensures { Prints (S.state out.old) (S.state out.new) (service_word service) result }
{
    put(out, service_word(service))
}

// A blank, and the name of a task.
fn put_task_after<S: Sink>(out: &mut S, app: &App, task: Entity) -> Result<(), WriteFault>
    ensures { Prints (S.state out.old) (S.state out.new) (codes " " ++ entity_name app.now task.0) result }
{
    put_all(
        out,
        &[Piece::Bytes(b" "), Piece::Bytes(entity_name(app, task))],
    )
}

// A blank, and the name of a resource.
fn put_resource_after<S: Sink>(out: &mut S, app: &App, resource: u8) -> Result<(), WriteFault>
    ensures { Prints (S.state out.old) (S.state out.new) (codes " " ++ resource_name app.now resource) result }
{
    put_all(
        out,
        &[
            Piece::Bytes(b" "),
            Piece::Bytes(resource_name(app, resource)),
        ],
    )
}

#[tactic(auto, using(crate::proofs::Printing::prints_nothing))]
fn put_argument<S: Sink>(out: &mut S, app: &App, service: Service) -> Result<(), WriteFault>
    ensures { Prints (S.state out.old) (S.state out.new) (argument_text app.now service) result }
{
    match service {
        Service::Activate(task) => put_task_after(out, app, task),
        Service::Chain(task) => put_task_after(out, app, task),
        Service::Get(resource) => put_resource_after(out, app, resource),
        Service::Release(resource) => put_resource_after(out, app, resource),
        _ => Ok(()),
    }
}

fn put_service<S: Sink>(out: &mut S, app: &App, service: Service) -> Result<(), WriteFault>
    ensures { Prints (S.state out.old) (S.state out.new) (service_text app.now service) result }
{
    put_service_word(out, service)?;
    put_argument(out, app, service)
}

// A blank and a status, where it isn't 0.
#[tactic(auto, using(crate::proofs::Printing::prints_nothing))]
fn put_code<S: Sink>(out: &mut S, code: u8) -> Result<(), WriteFault>
    ensures { Prints (S.state out.old) (S.state out.new) (code_text code) result }
{
    if code == 0 {
        Ok(())
    } else {
        put_all(out, &[Piece::Counted(b" ", code as u64)])
    }
}

/// Writes a failure by its number, with the status of a service.
pub fn put_failure<S: Sink>(out: &mut S, failure: Failure) -> Result<(), WriteFault>
    ensures { Prints (S.state out.old) (S.state out.new) (failure_text failure) result }
{
    put_all(out, &[Piece::Counted(b"F", failure.number as u64)])?;
    put_code(out, failure.code)
}

fn put_after<S: Sink>(out: &mut S, app: &App, service: Service) -> Result<(), WriteFault>
    ensures { Prints (S.state out.old) (S.state out.new) (service_after app.now (Some service)) result }
{
    put(out, b" ")?;
    put_service(out, app, service)
}

#[tactic(auto, using(crate::proofs::Printing::prints_nothing))]
fn put_service_after<S: Sink>(
    out: &mut S,
    app: &App,
    service: Option<Service>,
) -> Result<(), WriteFault>
    ensures { Prints (S.state out.old) (S.state out.new) (service_after app.now service) result }
{
    match service {
        Some(service) => put_after(out, app, service),
        None => Ok(()),
    }
}

fn put_fail<S: Sink>(
    out: &mut S,
    app: &App,
    failure: Failure,
    service: Option<Service>,
) -> Result<(), WriteFault>
    ensures { Prints (S.state out.old) (S.state out.new) (fail_text app.now failure service) result }
{
    put(out, b"fail ")?;
    put_failure(out, failure)?;
    put_service_after(out, app, service)
}

fn put_return<S: Sink>(out: &mut S, code: &Code, set: Option<(u16, Word)>) -> Result<(), WriteFault>
    ensures { Prints (S.state out.old) (S.state out.new) (return_text code.now set) result }
{
    match set {
        Some((cell, value)) => put_cell(out, b"return", code, cell, value),
        None => put(out, b"return"),
    }
}

fn put_branch<S: Sink>(out: &mut S, taken: bool) -> Result<(), WriteFault>
    ensures { Prints (S.state out.old) (S.state out.new) (branch_text taken) result }
{
    if taken {
        put(out, b"branch 1")
    } else {
        put(out, b"branch 0")
    }
}

/// Writes what is done in a step.
pub fn put_action<S: Sink>(
    out: &mut S,
    app: &App,
    code: &Code,
    action: EventAction,
) -> Result<(), WriteFault>
    ensures { Prints (S.state out.old) (S.state out.new) (action_text app.now code.now action) result }
{
    match action {
        EventAction::Arrive => put(out, b"arrive"),
        EventAction::Read { cell, value } => put_cell(out, b"read", code, cell, value),
        EventAction::Write { cell, value } => put_cell(out, b"write", code, cell, value),
        EventAction::Local { cell, value } => put_cell(out, b"local", code, cell, value),
        EventAction::Branch(taken) => put_branch(out, taken),
        EventAction::Input { cell, value } => put_cell(out, b"input", code, cell, value),
        EventAction::Call(function) => put_call(out, code, function),
        EventAction::Return(set) => put_return(out, code, set),
        EventAction::Service(service) => put_service(out, app, service),
        EventAction::Assert => put(out, b"assert"),
        EventAction::End => put(out, b"end"),
        EventAction::Fail(failure, service) => put_fail(out, app, failure, service),
    }
}
