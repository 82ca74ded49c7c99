// Texts that are fetched.
ghost use Rattle.std.specs.Prelude.{◌≡◌, ◌≤◌, IfOk, IfErr};
ghost use Rattle.oschk_cmd.specs.Fetched.{HasBoth, IsNoTexts};
ghost use Rattle.oschk_cmd.specs.Fit.{IsFit};

use crate::reply::Reply;
use chk_base::desk::{Desk, FetchFault};
use chk_base::text::Text;
use report::reports::Refusal;
use std::alloc::Global;

/// The most bytes that a text may have.
pub const LIMIT: u64 = 262_144;

/// An OIL text and a C text.
#[derive(Drop)]
pub struct Both {
    pub oil: Text,
    pub c: Text,
}

/// The texts of these names, the OIL text first, or what is replied where there are none.
pub fn fetch_both<D: Desk>(alloc: Global, desk: &mut D, oil: &Text, c: &Text) -> Result<Both, Reply>
    ensures both { IfOk result (λ both. HasBoth (D.state desk.old) oil.now c.now both.oil both.c) }
    ensures none { IfErr result (IsNoTexts oil.now c.now (D.state desk.old) (D.state desk.new)) }
    ensures fit { IfErr result IsFit }
    ensures later { (D.state desk.old).faults ≤ (D.state desk.new).faults }
    ensures files { (D.state desk.new).files ≡ (D.state desk.old).files }
    ensures current { (D.state desk.new).current ≡ (D.state desk.old).current }
{
    let oil = match desk.fetch(alloc, oil, LIMIT) {
        Ok(text) => text,
        Err(FetchFault::Failed) => return Err(Reply::ReadFault),
        Err(FetchFault::TooLong) => return Err(Reply::Refused(Refusal::LongOil)),
        Err(FetchFault::Memory) => return Err(Reply::OutOfMemory),
    };
    match desk.fetch(alloc, c, LIMIT) {
        Ok(c) => Ok(Both { oil, c }),
        Err(FetchFault::Failed) => Err(Reply::ReadFault),
        Err(FetchFault::TooLong) => Err(Reply::Refused(Refusal::LongC)),
        Err(FetchFault::Memory) => Err(Reply::OutOfMemory),
    }
}
