// A desk over the files of the system.
ghost use Rattle.std.specs.Prelude.{◌≡◌, ◌≤◌, None, IfOk, length, min};
ghost use Rattle.chk_base.specs.Pieces.{TakesSome};

use crate::desk::{Desk, FetchFault, PutFault};
use crate::faults::Faults;
use crate::text::Text;
use std::alloc::Global;
use std::io::{ErrorKind, Read, Write};
use std::rt::Files;
use std::{fs, io};

// The file that was begun last, open to be appended to.
#[derive(Drop)]
struct Current<F> {
    name: Text,
    file: F,
}

/// The files of the system, named by their paths. It tells nothing of what they hold. Each error counts as a fault, but for
/// want of memory; so does a name that isn't text, and a write that takes nothing.
#[derive(Drop)]
pub struct FileDesk<R: Files> {
    alloc: Global,
    rt: R,
    current: Option<Current<R::File>>,
    faults: Faults,
}

// What a fetch answers where the system answers this error.
fn fetch_fault(error: io::Error) -> FetchFault {
    if error.kind() == ErrorKind::OutOfMemory {
        FetchFault::Memory
    } else {
        FetchFault::Failed
    }
}

// What a begin or an append answers where the system answers this error.
fn put_fault(error: io::Error) -> PutFault {
    if error.kind() == ErrorKind::OutOfMemory {
        PutFault::Memory
    } else {
        PutFault::Failed
    }
}

// The bytes of a file, of which no more are read than show that they are more than the limit.
fn read<R: Files>(alloc: Global, rt: &R, name: &Text, limit: u64) -> Result<Text, FetchFault>
    ensures { IfOk result (λ text. length text ≤ limit) }
{
    let path = str::from_utf8(name.as_bytes()).map_err(|_| FetchFault::Failed)?;
    let file = fs::open(rt, path).map_err(fetch_fault)?;
    let mut bytes = Vec::new(alloc);
    file.take(limit.saturating_add(1))
        .read_to_end(&mut bytes)
        .map_err(fetch_fault)?;
    if bytes.len() as u64 > limit {
        return Err(FetchFault::TooLong);
    }
    Ok(Text::of(bytes))
}

// The file of this name, made empty.
fn create<R: Files>(alloc: Global, rt: &R, name: &Text) -> Result<Current<R::File>, PutFault>
    ensures { IfOk result (λ current. current.name ≡ name.now) }
{
    let copy = name.copy(alloc)?;
    let path = str::from_utf8(name.as_bytes()).map_err(|_| PutFault::Failed)?;
    let file = fs::create(rt, path).map_err(put_fault)?;
    Ok(Current { name: copy, file })
}

// Writes the first bytes of a piece, and answers how many.
fn write<F: Write>(file: &mut F, piece: &[u8]) -> Result<usize, PutFault>
    ensures { IfOk result (TakesSome piece.now) }
{
    let taken = file.write(piece).map_err(put_fault)?;
    if taken == 0 && !piece.is_empty() {
        return Err(PutFault::Failed);
    }
    Ok(taken)
}

impl<R: Files> FileDesk<R> {
    ghost use Rattle.chk_base.specs.Desk.{at_first};

    /// A desk over the files of this runtime.
    pub fn new(alloc: Global, rt: R) -> FileDesk<R>
        ensures { ⟦<FileDesk<R> as Desk>⟧.state result ≡ at_first None }
    {
        FileDesk {
            alloc,
            rt,
            current: None,
            faults: Faults::new(),
        }
    }
}

impl<R: Files> Desk for FileDesk<R> {
    ghost use Rattle.std.specs.Prelude.{None, option_map};
    ghost use Rattle.chk_base.specs.Faults.{count_of, last_of, none_before};

    ghost state = { λ desk. record {
      files = None;
      current = option_map (λ c. c.name) desk.current;
      faults = count_of desk.faults;
      last_fault = last_of desk.faults;
    } };

    ghost none_before = { λ desk none. none_before desk.faults none };

    fn fetch(&mut self, alloc: Global, name: &Text, limit: u64) -> Result<Text, FetchFault> {
        let result = read(alloc, &self.rt, name, limit);
        if let Err(FetchFault::Failed) = result {
            self.faults.add_fetch(name);
        }
        result
    }

    fn begin(&mut self, name: &Text) -> Result<(), PutFault> {
        match create(self.alloc, &self.rt, name) {
            Ok(current) => {
                self.current = Some(current);
                Ok(())
            }
            Err(PutFault::Failed) => {
                self.faults.add_begin(name);
                Err(PutFault::Failed)
            }
            Err(PutFault::Memory) => Err(PutFault::Memory),
        }
    }

    fn append(&mut self, piece: &[u8]) -> Result<usize, PutFault> {
        let Some(current) = &mut self.current else {
            self.faults.add_append(None);
            return Err(PutFault::Failed);
        };
        let result = write(&mut current.file, piece);
        if let Err(PutFault::Failed) = result {
            self.faults.add_append(Some(&current.name));
        }
        result
    }
}
