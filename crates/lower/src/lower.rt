// Checked units become codes.
ghost use Rattle.std.specs.Prelude.{◌≡◌, IfOk, IfErr};
ghost use Rattle.application.specs.InOrder.{IsInOrder};
ghost use Rattle.typed_unit.specs.Views.{unit_of};
ghost use Rattle.static_rules.specs.Checked.{Fits};
ghost use Rattle.fit_law.specs.Codes.{IsCodeOf};
ghost use Rattle.lower.specs.LoweredCode.{IsLowered, IsRefusal};
ghost use Rattle.lower.specs.Ready.{IsReady};

use crate::entities::Lowering;
use crate::trees::{function_names, function_trees};
use application::app::App;
use fit_law::law::codes_fit;
use lower_code::tables::tables;
use lower_law::law::{lowering_is_exact, schedules_are_the_same, units_fit_their_cells};
use scope_law::law::{bodies_are_right, names_are_right, services_are_right, variables_are_right};
use static_rules::check::Checked;
use std::alloc::{AllocError, Global};
use step_ir::code::Code;
use typed_unit::typed::TypedUnit;
use unit_counts::cells::{UnitCells, cells_of};
use unit_counts::counts::counts_of;

/// Why a unit is refused. `Points` has the number of its points after every call is expanded at its place, which is above 2,048; `Cells` has
/// the number of the bits of its cells, which is above 8,192, where the points fit. Each number is as far as it goes below 2^64. `Memory` is
/// want of memory.
#[derive(Clone, Copy, PartialEq, Eq, Debug)]
pub enum LowerFault {
    Points(u64),
    Cells(u64),
    Memory,
}

impl From<AllocError> for LowerFault {
    ghost use Rattle.std.specs.Prelude.{◌≡◌};
    ghost use Rattle.lower.specs.declared.lower.LowerFault.TheVariants.{Memory};

    ghost from_gives = { λ _ fault. fault ≡ Memory };

    fn from(_error: AllocError) -> LowerFault {
        LowerFault::Memory
    }
}

// The code of a unit, whose cells have so many bits, and whose weight is this.
fn code_of(
    alloc: Global,
    unit: &TypedUnit,
    entities: usize,
    bits: u32,
    weight: u64,
) -> Result<Code, AllocError>
    requires { IsReady (unit_of unit.now) entities }
    ensures code { IfOk result (IsCodeOf (unit_of unit.now) entities) }
    ensures cells { IfOk result (λ code. code.cells ≡ bits) }
    ensures weight { IfOk result (λ code. code.weight ≡ weight) }
{
    let functions = function_trees(alloc, unit.globals.as_slice(), unit.functions.as_slice())?;
    let tables = tables(alloc, functions.as_slice(), 17)?;
    let UnitCells {
        globals,
        bases: _,
        entities: cells,
    } = cells_of(alloc, unit, entities)?;
    let lowering = Lowering {
        alloc,
        unit,
        entities,
        functions: functions.as_slice(),
        tables: tables.as_slice(),
    };
    let codes = lowering.all(cells)?;
    Ok(Code {
        entities: codes,
        globals,
        functions: function_names(alloc, unit.functions.as_slice())?,
        cells: bits,
        weight,
    })
}

/// The code of a checked unit for its application: one step of a point is one step of the language (ISO/IEC 9899:1999, 6.5 and 6.8), and the
/// reverse, with the same event. A text whose expansion is too large is refused by its counts, before anything is expanded.
///
/// # Errors
///
/// `Points` and `Cells` exactly where their limits are passed, in this order; `Memory` is want of memory alone.
pub fn lower(alloc: Global, checked: &Checked, app: &App) -> Result<Code, LowerFault>
    requires order { IsInOrder app.now }
    requires fits { Fits app.now checked.now }
    ensures code { IfOk result (IsLowered app.now (unit_of checked.now)) }
    ensures refused { IfErr result (IsRefusal app.now (unit_of checked.now)) }
{
    names_are_right();
    services_are_right();
    variables_are_right();
    bodies_are_right();
    codes_fit();
    units_fit_their_cells();
    lowering_is_exact();
    schedules_are_the_same();
    let unit = checked.unit();
    let entities = app.tasks.len() + app.routines.len();
    let counts = counts_of(alloc, unit, entities)?;
    if counts.points > 2048 {
        return Err(LowerFault::Points(counts.points));
    }
    if counts.bits > 8192 {
        return Err(LowerFault::Cells(counts.bits));
    }
    let code = code_of(alloc, unit, entities, counts.bits as u32, counts.weight)?;
    Ok(code)
}
