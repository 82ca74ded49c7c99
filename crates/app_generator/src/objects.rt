// The OIL text.
ghost use Rattle.std.specs.Prelude.{codes};
ghost use Rattle.app_generator.specs.Generated.{each_below, head_text, if_sharing, object_text, objects_before, objects_behind, start_text, task_object};
ghost use Rattle.app_generator.specs.Puts.{Puts};

use crate::pieces::{put, put_number};
use chk_base::text::Text;
use std::alloc::AllocError;

/// What stands before the tasks.
pub fn put_before(text: &mut Text) -> Result<(), AllocError>
    ensures { Puts text.old text.new objects_before result }
{
    put(
        text,
        b"OIL_VERSION = \"2.5\";\nCPU c {\nOS o { STATUS = EXTENDED; };\nAPPMODE M { };\nRESOURCE R0 { RESOURCEPROPERTY = STANDARD; };\n",
    )
}

/// What stands behind them.
pub fn put_behind(text: &mut Text) -> Result<(), AllocError>
    ensures { Puts text.old text.new objects_behind result }
{
    put(
        text,
        b"ISR I0 { CATEGORY = 2; PRIORITY = 1; RESOURCE = R0; };\n};\n",
    )
}

fn put_start(text: &mut Text, i: u32) -> Result<(), AllocError>
    ensures { Puts text.old text.new (start_text i) result }
{
    if i == 0 {
        put(text, b"TRUE { APPMODE = M; }")
    } else {
        put(text, b"FALSE")
    }
}

fn put_resource(text: &mut Text, i: u32) -> Result<(), AllocError>
    ensures { Puts text.old text.new (if_sharing i (codes " RESOURCE = R0;")) result }
{
    if i < 2 {
        put(text, b" RESOURCE = R0;")
    } else {
        put(text, b"")
    }
}

// What stands before the value of AUTOSTART.
fn put_head(text: &mut Text, i: u32) -> Result<(), AllocError>
    ensures { Puts text.old text.new (head_text i) result }
{
    put(text, b"TASK T")?;
    put_number(text, i)?;
    put(text, b" { PRIORITY = ")?;
    put_number(text, i)?;
    put(text, b"; SCHEDULE = FULL; ACTIVATION = 1; AUTOSTART = ")
}

fn put_object(text: &mut Text, i: u32) -> Result<(), AllocError>
    ensures { Puts text.old text.new (object_text i) result }
{
    put_head(text, i)?;
    put_start(text, i)?;
    put(text, b";")?;
    put_resource(text, i)?;
    put(text, b" };")
}

fn put_task(text: &mut Text, i: u32) -> Result<(), AllocError>
    ensures { Puts text.old text.new (task_object i) result }
{
    put_object(text, i)?;
    put(text, b"\n")
}

/// So many tasks.
pub fn put_tasks(text: &mut Text, tasks: u32) -> Result<(), AllocError>
    ensures { Puts text.old text.new (each_below task_object tasks) result }
{
    for i in 0..tasks {
        put_task(text, i)?;
    }
    Ok(())
}
