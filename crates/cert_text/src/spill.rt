// Appending what is held in memory.
ghost use Rattle.std.specs.Prelude.{◌≡◌, [], OnOk};
ghost use Rattle.cert_text.specs.Spills.{Spills};

use chk_base::desk::{Desk, PutFault, append_all};
use chk_base::text::Text;
use std::alloc::Global;

/// How many bytes are held before they are appended.
const HELD: usize = 65_536;

/// Appends what is held, and holds nothing.
#[tactic(auto, using(crate::proofs::Spilling::appended, crate::proofs::Spilling::refused))]
pub fn spill<D: Desk>(alloc: Global, desk: &mut D, held: &mut Text) -> Result<(), PutFault>
    ensures spills { Spills (D.state desk.old) (D.state desk.new) held.old held.new [] result }
    ensures empty { OnOk result (held.new ≡ []) }
{
    append_all(desk, held.as_bytes())?;
    *held = Text::new(alloc);
    Ok(())
}

/// Appends what is held where it is much.
pub fn spill_much<D: Desk>(alloc: Global, desk: &mut D, held: &mut Text) -> Result<(), PutFault>
    ensures { Spills (D.state desk.old) (D.state desk.new) held.old held.new [] result }
{
    if held.as_bytes().len() < HELD {
        return Ok(());
    }
    spill(alloc, desk, held)
}
