// A desk in memory.
ghost use Rattle.std.specs.Prelude.{◌≡◌, ◌↔◌, ◌∷◌, ◌++◌, ◌≤◌, [], None, Some, false, length, if◌then◌else◌, IsTrue, IfOk, OnOk, OnErr, IsErrOf, option_copied};
ghost use Rattle.std.specs.FinMap.{empty, get};
ghost use Rattle.chk_base.specs.Causes.{risen, is_fault_of};
ghost use Rattle.chk_base.specs.Pieces.{at_most};
ghost use Rattle.chk_base.specs.Desk.{Fetches, Begins, Appends, FetchAnswer, is_fetch_failed, is_put_failed, with_file};
ghost use Rattle.chk_base.specs.Faults.{count_of};
ghost use Rattle.chk_base.specs.MemDesk.{desk_state, HasCurrent, IsToFail, FetchFails, AppendFails, CountsCall};

use crate::bound::Bound;
use crate::desk::{Desk, FetchFault, PutFault};
use crate::faults::Faults;
use crate::file_list::FileList;
use crate::text::Text;
use std::alloc::{AllocError, Global};
use std::marker::Model;

/// A desk in memory. A call fails where its number was given; a fetch also where there is no file of that name, and an append also where
/// no file was begun. An append takes the whole piece, or as much of it as a bound lets it. The calls of the trait are numbered from 1; after
/// 2^64 - 1 of them each further one has that number.
#[derive(Drop)]
pub struct MemDesk {
    alloc: Global,
    files: FileList,
    current: Option<Text>,
    most: Bound,
    calls: u64,
    to_fail: Vec<u64>,
    faults: Faults,
}

impl Model for MemDesk {
    ghost use Rattle.std.specs.Coded.{codes};
    ghost use Rattle.chk_base.specs.Desk.{files_code};
    ghost use Rattle.chk_base.specs.MemDesk.{MemDeskState, HasCurrent};

    ghost Value = { MemDeskState };

    ghost coded = { Prim.hlevel (codes, files_code) };

    ghost view = { λ a. record { files = a.files; current = a.current; most = a.most; calls = a.calls; to_fail = a.to_fail.items; faults = a.faults } };

    ghost invariant = { λ a. HasCurrent a.files a.current };
}

// The bytes of a file, where they are no more than the limit.
fn read(alloc: Global, file: &Text, limit: u64) -> Result<Text, FetchFault>
    ensures answer { FetchAnswer (Some file.now) limit result }
    ensures fault { is_fault_of is_fetch_failed result ≡ false }
{
    if file.as_bytes().len() as u64 > limit {
        return Err(FetchFault::TooLong);
    }
    Ok(file.copy(alloc)?)
}

impl MemDesk {
    /// A desk without files.
    pub fn new(alloc: Global) -> MemDesk
        ensures { result ≡ record { files = empty; current = None; most = None; calls = 0; to_fail = []; faults = None } }
    {
        MemDesk {
            alloc,
            files: FileList::new(alloc),
            current: None,
            most: Bound::none(),
            calls: 0,
            to_fail: Vec::new(alloc),
            faults: Faults::new(),
        }
    }

    /// Gives a file these bytes, in place of any that it had. This is no call of the trait.
    pub fn put(&mut self, name: &Text, bytes: &Text) -> Result<(), AllocError>
        ensures ok { OnOk result (self.new ≡ record self.old { files = with_file name.now bytes.now self.old.files }) }
        ensures err { OnErr result (self.new ≡ self.old) }
    {
        let name = name.copy(self.alloc)?;
        let bytes = bytes.copy(self.alloc)?;
        self.files.put(name, bytes)?;
        Ok(())
    }

    /// Lets the call with this number fail.
    pub fn fail_at(&mut self, call: u64) -> Result<(), AllocError>
        ensures ok { OnOk result (self.new ≡ record self.old { to_fail = self.old.to_fail ++ call ∷ [] }) }
        ensures err { OnErr result (self.new ≡ self.old) }
    {
        self.to_fail.push(call)?;
        Ok(())
    }

    /// Lets each append from now on take at most so many bytes.
    pub fn take_at_most(&mut self, n: u32)
        requires { 1 ≤ n }
        ensures { self.new ≡ record self.old { most = Some n } }
    {
        self.most = Bound::of(n);
    }

    /// The bytes of a file.
    pub fn file(&self, name: &Text) -> Option<&Text>
        ensures { option_copied result ≡ get self.now.files name.now }
    {
        self.files.get(name)
    }

    // Counts a call, and says whether its number was given.
    fn is_to_fail(&mut self) -> bool
        ensures fails { IsTrue result ↔ IsToFail self.old }
        ensures counted { self.new ≡ record self.old { calls = risen self.old.calls } }
    {
        self.calls = self.calls.saturating_add(1);
        self.to_fail.contains(&self.calls)
    }
}

impl Desk for MemDesk {
    ghost use Rattle.chk_base.specs.Faults.{none_before};
    ghost use Rattle.chk_base.specs.MemDesk.{desk_state};

    ghost state = { desk_state };

    ghost none_before = { λ desk none. none_before desk.faults none };

    fn fetch(&mut self, alloc: Global, name: &Text, limit: u64) -> Result<Text, FetchFault>
        ensures fetch { Fetches (desk_state self.old) (desk_state self.new) name.now limit result }
        ensures failed { IsErrOf result FetchFault.Failed ↔ FetchFails self.old name.now }
        ensures count { count_of self.new.faults ≡ (if is_fault_of is_fetch_failed result then risen (count_of self.old.faults) else count_of self.old.faults) }
        ensures calls { CountsCall self.old self.new }
    {
        let is_to_fail = self.is_to_fail();
        match self.files.get(name) {
            Some(file) if !is_to_fail => read(alloc, file, limit),
            _ => {
                self.faults.add_fetch(name);
                Err(FetchFault::Failed)
            }
        }
    }

    fn begin(&mut self, name: &Text) -> Result<(), PutFault>
        ensures begin { Begins (desk_state self.old) (desk_state self.new) name.now result }
        ensures failed { IsErrOf result PutFault.Failed ↔ IsToFail self.old }
        ensures count { count_of self.new.faults ≡ (if is_fault_of is_put_failed result then risen (count_of self.old.faults) else count_of self.old.faults) }
        ensures calls { CountsCall self.old self.new }
    {
        if self.is_to_fail() {
            self.faults.add_begin(name);
            return Err(PutFault::Failed);
        }
        let current = name.copy(self.alloc)?;
        let name = name.copy(self.alloc)?;
        self.files.put(name, Text::new(self.alloc))?;
        self.current = Some(current);
        Ok(())
    }

    fn append(&mut self, piece: &[u8]) -> Result<usize, PutFault>
        ensures append { Appends (desk_state self.old) (desk_state self.new) piece.now result }
        ensures failed { IsErrOf result PutFault.Failed ↔ AppendFails self.old }
        ensures count { count_of self.new.faults ≡ (if is_fault_of is_put_failed result then risen (count_of self.old.faults) else count_of self.old.faults) }
        ensures calls { CountsCall self.old self.new }
        ensures there { HasCurrent self.old.files self.old.current }
        ensures taken { IfOk result (λ n. n ≡ at_most self.old.most (length piece.now)) }
    {
        let is_to_fail = self.is_to_fail();
        match &self.current {
            Some(current) if !is_to_fail => {
                let taken = self.most.taken(piece.len());
                self.files.append(current, &piece[..taken])?;
                Ok(taken)
            }
            current => {
                self.faults.add_append(current.as_ref());
                Err(PutFault::Failed)
            }
        }
    }
}
