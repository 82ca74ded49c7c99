// Desks: where files are fetched and written.
ghost use Rattle.std.specs.Prelude.{◌≡◌, None};
ghost use Rattle.chk_base.specs.declared.desk.FetchFault.TheVariants as fetch;
ghost use Rattle.chk_base.specs.declared.desk.PutFault.TheVariants as put;
ghost use Rattle.chk_base.specs.Desk.{DeskState, Fetches, Begins, Appends, AppendsAll};

use crate::text::Text;
use std::alloc::{AllocError, Global};
use thiserror::Error;

/// Why a file wasn't fetched: the desk failed, the file is longer than the limit, or there was no memory.
#[derive(Clone, Copy, PartialEq, Eq, Debug, Error)]
pub enum FetchFault {
    #[error("Failed")]
    Failed,
    #[error("TooLong")]
    TooLong,
    #[error("Memory")]
    Memory,
}

/// Why a file wasn't begun, or nothing appended: the desk failed, or there was no memory.
#[derive(Clone, Copy, PartialEq, Eq, Debug, Error)]
pub enum PutFault {
    #[error("Failed")]
    Failed,
    #[error("Memory")]
    Memory,
}

impl From<AllocError> for FetchFault {
    ghost from_gives = { λ _ fault. fault ≡ fetch.Memory };

    fn from(_error: AllocError) -> FetchFault {
        FetchFault::Memory
    }
}

impl From<AllocError> for PutFault {
    ghost from_gives = { λ _ fault. fault ≡ put.Memory };

    fn from(_error: AllocError) -> PutFault {
        PutFault::Memory
    }
}

/// Named files, one of which may be current: the one that was begun last. Want of memory is no fault of the desk.
pub trait Desk {
    /// The files where they are told, the current file, and the desk's faults.
    ghost state: { Self → DeskState };

    /// The bytes of a file, which are at most `limit`.
    fn fetch(&mut self, alloc: Global, name: &Text, limit: u64) -> Result<Text, FetchFault>
        ensures { Fetches (state self.old) (state self.new) name.now limit result };

    /// Makes a file empty and current. The file needn't have been there.
    fn begin(&mut self, name: &Text) -> Result<(), PutFault>
        ensures { Begins (state self.old) (state self.new) name.now result };

    /// Puts the first bytes of a piece at the end of the current file, and answers how many. Where no file was begun it fails.
    fn append(&mut self, piece: &[u8]) -> Result<usize, PutFault>
        ensures { Appends (state self.old) (state self.new) piece.now result };

    /// Before a call has failed there is no last fault.
    ghost none_before: { (desk : Self) → (state desk).faults ≡ 0 → (state desk).last_fault ≡ None };
}

/// Appends a whole piece to the current file. Where it fails or finds no memory, a prefix of the piece was appended.
pub fn append_all<D: Desk>(desk: &mut D, piece: &[u8]) -> Result<(), PutFault>
    ensures { AppendsAll (D.state desk.old) (D.state desk.new) piece.now result }
{
    let mut rest = piece;
    while !rest.is_empty() {
        let taken = desk.append(rest)?;
        rest = &rest[taken..];
    }
    Ok(())
}
