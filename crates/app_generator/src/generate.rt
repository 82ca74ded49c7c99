// Both texts.
ghost use Rattle.std.specs.Prelude.{◌≡◌, ◌≤◌, IfOk, length};
ghost use Rattle.app_generator.specs.Generated.{generated_c, generated_oil};

use crate::draws::Draws;
use crate::{bodies, objects};
use chk_base::text::Text;
use std::alloc::{AllocError, Global};

/// An application as its two texts.
#[derive(Drop)]
pub struct Generated {
    pub oil: Text,
    pub c: Text,
}

/// The application of this number, 0 to 2^32 - 1. Its first task asserts what holds where at most so many interrupts arrive. Each text has
/// at most 262,144 bytes.
pub fn generate(alloc: Global, number: u32, arrivals: u8) -> Result<Generated, AllocError>
    ensures oil { IfOk result (λ g. g.oil ≡ generated_oil number) }
    ensures c { IfOk result (λ g. g.c ≡ generated_c number arrivals) }
    ensures short { IfOk result (λ g. (length g.oil ≤ 262144) × (length g.c ≤ 262144)) }
{
    let mut draws = Draws { state: number };
    let tasks = 2 + draws.draw(7);
    let mut oil = Text::new(alloc);
    objects::put_before(&mut oil)?;
    objects::put_tasks(&mut oil, tasks)?;
    objects::put_behind(&mut oil)?;
    let mut c = Text::new(alloc);
    bodies::put_before(&mut c)?;
    bodies::put_bodies(&mut c, &mut draws, tasks, arrivals)?;
    Ok(Generated { oil, c })
}
