// The C text.
ghost use Rattle.std.specs.Prelude.{◌≡◌, ◌<◌, ◌*◌, OnOk};
ghost use Rattle.app_generator.specs.Drawn.{state_after};
ghost use Rattle.app_generator.specs.Generated.{activation, assertion, assignment, assignments, bodies_before, body, body_from, each_below, if_sharing, lock_lines, sum_text};
ghost use Rattle.app_generator.specs.Puts.{Puts};

use crate::draws::Draws;
use crate::pieces::{put, put_line, put_number};
use chk_base::text::Text;
use std::alloc::AllocError;

/// The variables, and the routine.
pub fn put_before(text: &mut Text) -> Result<(), AllocError>
    ensures { Puts text.old text.new bodies_before result }
{
    put(
        text,
        b"uint8_t g0;\nuint8_t g1;\nuint8_t g2;\nuint8_t g3;\nISR(I0) {\n  GetResource(R0);\n  g0 = g0 + 1;\n  ReleaseResource(R0);\n}\n",
    )
}

fn put_lock(text: &mut Text, i: u32) -> Result<(), AllocError>
    ensures { Puts text.old text.new (if_sharing i lock_lines) result }
{
    if i < 2 {
        put(
            text,
            b"  GetResource(R0);\n  g0 = g0 + 1;\n  ReleaseResource(R0);\n",
        )
    } else {
        put(text, b"")
    }
}

fn put_sum(text: &mut Text, target: u32, source: u32, number: u32) -> Result<(), AllocError>
    ensures { Puts text.old text.new (sum_text target source number) result }
{
    put(text, b"  g")?;
    put_number(text, target)?;
    put(text, b" = g")?;
    put_number(text, source)?;
    put(text, b" + ")?;
    put_number(text, number)?;
    put(text, b";")
}

// An assignment, by three draws.
fn put_assignment(text: &mut Text, draws: &mut Draws) -> Result<(), AllocError>
    ensures text { Puts text.old text.new (assignment draws.old.state) result }
    ensures draws { draws.new.state ≡ state_after draws.old.state 3 }
{
    let target = 1 + draws.draw(3);
    let source = 1 + draws.draw(3);
    let number = draws.draw(200);
    put_sum(text, target, source, number)?;
    put(text, b"\n")
}

// Four assignments.
fn put_assignments(text: &mut Text, draws: &mut Draws) -> Result<(), AllocError>
    ensures text { Puts text.old text.new (assignments draws.old.state) result }
    ensures draws { OnOk result (draws.new.state ≡ state_after draws.old.state 12) }
{
    put_assignment(text, draws)?;
    put_assignment(text, draws)?;
    put_assignment(text, draws)?;
    put_assignment(text, draws)?;
    Ok(())
}

fn put_activation(text: &mut Text, tasks: u32, i: u32) -> Result<(), AllocError>
    requires { i < tasks }
    ensures { Puts text.old text.new (activation tasks i) result }
{
    if i + 1 < tasks {
        put_line(text, b"  ActivateTask(T", i + 1, b");")
    } else {
        put(text, b"")
    }
}

fn put_assertion(text: &mut Text, arrivals: u8, i: u32) -> Result<(), AllocError>
    ensures { Puts text.old text.new (assertion arrivals i) result }
{
    if i == 0 {
        put_line(text, b"  assert(g0 <= ", 2 + arrivals as u32, b");")
    } else {
        put(text, b"")
    }
}

// The body of a task.
fn put_body(
    text: &mut Text,
    draws: &mut Draws,
    tasks: u32,
    arrivals: u8,
    i: u32,
) -> Result<(), AllocError>
    requires { i < tasks }
    ensures text { Puts text.old text.new (body draws.old.state tasks arrivals i) result }
    ensures draws { OnOk result (draws.new.state ≡ state_after draws.old.state 12) }
{
    put_line(text, b"TASK(T", i, b") {")?;
    put_assignments(text, draws)?;
    put_lock(text, i)?;
    put_activation(text, tasks, i)?;
    put_assertion(text, arrivals, i)?;
    put(text, b"  TerminateTask();\n")?;
    put(text, b"}\n")?;
    Ok(())
}

/// The bodies of the tasks.
pub fn put_bodies(
    text: &mut Text,
    draws: &mut Draws,
    tasks: u32,
    arrivals: u8,
) -> Result<(), AllocError>
    ensures { Puts text.old text.new (each_below (body_from draws.old.state tasks arrivals) tasks) result }
{
    for i in 0..tasks {
        put_body(text, draws, tasks, arrivals, i)?;
    }
    Ok(())
}
