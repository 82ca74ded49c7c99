// From two texts to the application and its code.
ghost use Rattle.std.specs.Prelude.{◌≡◌, ◌≤◌, length, IfOk, IfErr};
ghost use Rattle.std.specs.Option.{option_copied};
ghost use Rattle.application.specs.InOrder.{IsInOrder};
ghost use Rattle.typed_unit.specs.Views.{unit_of};
ghost use Rattle.lower.specs.LoweredCode.{IsLowered};
ghost use Rattle.static_rules.specs.Checked as checked;
ghost use Rattle.step_ir.specs.Fits.{Fits};
ghost use Rattle.text_stages.specs.Prepared.{IsPrepared, IsRunStop, IsStop, IsTakenForRun};
ghost use Rattle.text_stages.specs.Stages.{StopsBy, IsCountRefusal};

use crate::limits::{check_form, check_limits};
use crate::read::{Texts, read_texts};
use crate::stop::Stop;
use answers::refusal::Refusal;
use application::app::App;
use chk_base::text::Text;
use lower::lower::{LowerFault, lower};
use std::alloc::Global;
use step_ir::code::Code;

/// An application and its code.
#[derive(Drop)]
pub struct Prepared {
    pub app: App,
    pub code: Code,
}

/// The application of texts that were read, and the code of their unit.
///
/// # Errors
///
/// `Points` and `Cells` exactly where the code would pass their limits, in this order; `Memory` is want of memory alone.
pub fn lowered(alloc: Global, texts: Texts) -> Result<Prepared, Stop>
    requires order { IsInOrder texts.app }
    requires fits { checked.Fits texts.app texts.unit }
    ensures app { IfOk result (λ p. p.app ≡ texts.app) }
    ensures code { IfOk result (λ p. IsLowered texts.app (unit_of texts.unit) p.code) }
    ensures order { IfOk result (λ p. IsInOrder p.app) }
    ensures fits { IfOk result (λ p. Fits p.app p.code) }
    ensures stop { IfErr result (StopsBy (IsCountRefusal texts.app (unit_of texts.unit))) }
{
    match lower(alloc, &texts.unit, &texts.app) {
        Ok(code) => Ok(Prepared {
            app: texts.app,
            code,
        }),
        Err(LowerFault::Points(number)) => Err(Stop::Refused(Refusal::Points(number))),
        Err(LowerFault::Cells(number)) => Err(Stop::Refused(Refusal::Cells(number))),
        Err(LowerFault::Memory) => Err(Stop::Memory),
    }
}

/// The application and the code of two texts, by stages: those of `read_texts`, and then the counts of points and cells. Without a mode, the
/// first of the text is meant.
///
/// # Errors
///
/// `Refused` exactly where a stage refuses the texts, with the refusal of the first; `Memory` is want of memory alone.
pub fn prepare(alloc: Global, oil: &Text, c: &Text, mode: Option<&Text>) -> Result<Prepared, Stop>
    requires oil { length oil.now ≤ 262144 }
    requires c { length c.now ≤ 262144 }
    ensures prepared { IfOk result (λ p. IsPrepared oil.now c.now (option_copied mode.entry) p.app p.code) }
    ensures order { IfOk result (λ p. IsInOrder p.app) }
    ensures fits { IfOk result (λ p. Fits p.app p.code) }
    ensures stop { IfErr result (IsStop oil.now c.now (option_copied mode.entry)) }
{
    let texts = read_texts(alloc, oil, c, mode)?;
    lowered(alloc, texts)
}

/// The application and the code of two texts for a run of at most so many turns, by stages: those of `read_texts`, then that the name
/// `oschk_input` stands nowhere in the C text, the counts of points and cells, and last the limits of a run. Without a mode, the first of the
/// text is meant.
///
/// # Errors
///
/// `Refused` exactly where a stage refuses the texts, with the refusal of the first; `Memory` is want of memory alone.
pub fn prepare_run(
    alloc: Global,
    oil: &Text,
    c: &Text,
    mode: Option<&Text>,
    turns: u16,
) -> Result<Prepared, Stop>
    requires oil { length oil.now ≤ 262144 }
    requires c { length c.now ≤ 262144 }
    ensures taken { IfOk result (λ p. IsTakenForRun oil.now c.now (option_copied mode.entry) turns p.app p.code) }
    ensures order { IfOk result (λ p. IsInOrder p.app) }
    ensures fits { IfOk result (λ p. Fits p.app p.code) }
    ensures stop { IfErr result (IsRunStop oil.now c.now (option_copied mode.entry) turns) }
{
    let texts = read_texts(alloc, oil, c, mode)?;
    check_form(&texts)?;
    let prepared = lowered(alloc, texts)?;
    check_limits(&prepared.code, turns)?;
    Ok(prepared)
}
