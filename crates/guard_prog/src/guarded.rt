// Drafts that are well shaped, and why others are refused.
ghost use Rattle.std.specs.Prelude.{◌≡◌, ◌↔◌, IfErr, IfOk, IsOk};
ghost use Rattle.guard_prog.specs.WellShaped.{IsWellShaped, IsCause};

use crate::draft::Draft;
use crate::shape::first_break;
use std::alloc::Global;
use std::marker::Model;

/// A draft that is well shaped.
#[derive(Drop)]
pub struct Guarded {
    draft: Draft,
}

impl Model for Guarded {
    ghost use Rattle.guard_prog.specs.declared.draft.Draft.{Draft};
    ghost use Rattle.chk_base.specs.contracts.expr.Expr as e;
    ghost use Rattle.guard_prog.specs.WellShaped.{IsWellShaped};
    ghost use Rattle.std.specs.Coded.{codes};

    ghost Value = { Draft };

    ghost coded = { Prim.hlevel (codes, e.the_row.coded) };

    ghost view = { λ g. g.draft };

    ghost invariant = { λ g. IsWellShaped g.draft };
}

/// Why a draft is refused: `Shape` names the least point that breaks a condition.
#[derive(Clone, Copy, PartialEq, Eq, Debug)]
pub enum DraftFault {
    Shape(u16),
    Memory,
}

impl Guarded {
    /// The draft that was validated.
    pub fn draft(&self) -> &Draft
        ensures draft { result.now ≡ self.now }
        ensures shaped { IsWellShaped self.now }
    {
        &self.draft
    }
}

/// Takes a draft that is well shaped, and drops another. It takes no memory.
pub fn validate(alloc: Global, draft: Draft) -> Result<Guarded, DraftFault>
    ensures taken { IfOk result (λ program. program ≡ draft) }
    ensures exact { IsOk result ↔ IsWellShaped draft }
    ensures refused { IfErr result (IsCause draft) }
{
    let _ = alloc;
    match first_break(&draft) {
        Some(i) => Err(DraftFault::Shape(i)),
        None => Ok(Guarded { draft }),
    }
}
