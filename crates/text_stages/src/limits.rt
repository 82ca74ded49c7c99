// What a run takes: texts that take no input, and codes that aren't too large for its turns.
ghost use Rattle.std.specs.Prelude.{◌≡◌, None, IfErr, OnOk};
ghost use Rattle.text_stages.specs.Limits.{IsFormRefusal, IsLimitRefusal, IsWithinLimits};

use crate::read::Texts;
use answers::refusal::Refusal;
use step_ir::code::Code;

/// The most that turns times the weight of one step may be.
const SIZE_LIMIT: u64 = 65_536;

/// The most that turns times the bits of the cells may be.
const STATE_LIMIT: u64 = 1_048_576;

/// Whether the C text takes no input, and so is of the form that is run. It takes no memory.
///
/// # Errors
///
/// `FormC` with the place at which the name `oschk_input` first stands.
pub fn check_form(texts: &Texts) -> Result<(), Refusal>
    ensures taken { OnOk result (texts.now.input ≡ None) }
    ensures refused { IfErr result (IsFormRefusal texts.now.input) }
{
    match texts.input {
        Some(place) => Err(Refusal::FormC(place)),
        None => Ok(()),
    }
}

/// Whether a code isn't too large for so many turns. It takes no memory.
///
/// # Errors
///
/// `Size` exactly where turns times its weight pass their limit, with their product as far as it goes below 2^64; else `State` exactly where
/// turns times its cells pass theirs, with their product.
#[tactic(auto, using(crate::proofs::Products::state_fits))]
pub fn check_limits(code: &Code, turns: u16) -> Result<(), Refusal>
    ensures within { OnOk result (IsWithinLimits turns code.now) }
    ensures refused { IfErr result (IsLimitRefusal turns code.now) }
{
    let turns = u64::from(turns);
    let size = turns.saturating_mul(code.weight);
    if size > SIZE_LIMIT {
        return Err(Refusal::Size(size));
    }
    let state = turns * u64::from(code.cells);
    if state > STATE_LIMIT {
        return Err(Refusal::State(state));
    }
    Ok(())
}
