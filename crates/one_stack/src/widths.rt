// Widths of cells.
ghost use Rattle.std.specs.Prelude.{◌≡◌, ◌*◌, ◌++◌, IfOk, OnOk, map};
ghost use Rattle.chk_base.specs.declared.word.Width.TheVariants.{W1, W8};
ghost use Rattle.one_stack.specs.Built.{table};
ghost use Rattle.step_ir.specs.Points.{cells_of};

use chk_base::word::{Width, Widths};
use std::alloc::{AllocError, Global};
use step_ir::code::{CellName, Code};

fn put_name_widths(widths: &mut Widths, names: &[CellName]) -> Result<(), AllocError>
    ensures { OnOk result (widths.new ≡ widths.old ++ map (λ n. n.width) names.now) }
{
    for name in names {
        widths.push(name.width)?;
    }
    Ok(())
}

/// The widths of a code's cells.
pub fn code_widths(alloc: Global, code: &Code) -> Result<Widths, AllocError>
    ensures { IfOk result (λ widths. widths ≡ map (λ n. n.width) (cells_of code.now)) }
{
    let mut widths = Widths::new(alloc);
    put_name_widths(&mut widths, code.globals.items())?;
    let entities = code.entities.items();
    for entity in entities {
        put_name_widths(&mut widths, entity.names.items())?;
    }
    Ok(widths)
}

// The same width, so many times.
fn put_widths(widths: &mut Widths, width: Width, count: u16) -> Result<(), AllocError>
    ensures { OnOk result (widths.new ≡ widths.old ++ table count (λ q. width)) }
{
    for _q in 0..count {
        widths.push(width)?;
    }
    Ok(())
}

/// The widths of slots, where levels have so many places together.
pub fn put_slots(
    widths: &mut Widths,
    entities: u8,
    places: u16,
    resources: u8,
) -> Result<(), AllocError>
    ensures { OnOk result (widths.new ≡ widths.old
        ++ (table entities (λ x. W1) ++ (table entities (λ t. W8)
        ++ (table places (λ q. W8) ++ (table resources (λ q. W1) ++ table (entities * resources) (λ q. W8)))))) }
{
    put_widths(widths, Width::W1, entities as u16)?;
    put_widths(widths, Width::W8, entities as u16)?;
    put_widths(widths, Width::W8, places)?;
    put_widths(widths, Width::W1, resources as u16)?;
    put_widths(widths, Width::W8, entities as u16 * resources as u16)
}
