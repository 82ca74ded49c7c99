// A sink in memory.
ghost use Rattle.std.specs.Prelude.{◌≡◌, ◌⊎◌, ◌↔◌, ◌+◌, ◌∷◌, ◌++◌, ◌≤◌, [], Some, None, min, take, length, is_err, if◌then◌else◌, IsErr, IfOk, OnOk, OnErr};
ghost use Rattle.chk_base.specs.Causes.{risen};
ghost use Rattle.chk_base.specs.Pieces.{at_most};
ghost use Rattle.chk_base.specs.MemSink.{sink_state, room_left, FailsAt};
ghost use Rattle.chk_base.specs.Sink.{Writes};

use crate::bound::Bound;
use crate::sink::{Failed, Sink};
use crate::text::Text;
use std::alloc::{AllocError, Global};
use std::marker::Model;

/// A sink in memory, with room for so many bytes. A write takes what there is room for, and of that what a bound lets it; it fails where nothing
/// is left, or where its number was given. The writes are numbered from 1; after 2^64 - 1 of them each further one has that number.
#[derive(Drop)]
pub struct MemSink {
    room: usize,
    most: Bound,
    // A text shows contracts its bytes and not its memory. So what a write is sure to have room for stands here, and `text` is a copy to lend.
    bytes: Vec<u8>,
    text: Text,
    calls: u64,
    to_fail: Vec<u64>,
    faults: u64,
}

impl Model for MemSink {
    ghost use Rattle.std.specs.Prelude.{◌≡◌, ◌≤◌, length, take, vec_capacity};
    ghost use Rattle.chk_base.specs.MemSink.{MemSinkState};

    ghost Value = { MemSinkState };

    ghost view = { λ a. record { room = a.room; most = a.most; written = a.bytes.items; text = a.text; calls = a.calls; to_fail = a.to_fail.items; faults = a.faults } };

    ghost invariant = { λ a. (length a.bytes.items ≤ a.room) × (a.room ≤ vec_capacity a.bytes) × (a.text ≡ take (length a.text) a.bytes.items) };
}

impl MemSink {
    /// A sink to which nothing was written. It takes its memory here.
    pub fn new(alloc: Global, room: u32) -> Result<MemSink, AllocError>
        ensures { IfOk result (λ sink. sink ≡ record { room = room; most = None; written = []; text = []; calls = 0; to_fail = []; faults = 0 }) }
    {
        let room = room as usize;
        let bytes = Vec::with_capacity(alloc, room)?;
        let text = Text::with_capacity(alloc, room)?;
        Ok(MemSink {
            room,
            most: Bound::none(),
            bytes,
            text,
            calls: 0,
            to_fail: Vec::new(alloc),
            faults: 0,
        })
    }

    /// Lets the write with this number fail.
    pub fn fail_at(&mut self, call: u64) -> Result<(), AllocError>
        ensures ok { OnOk result (self.new ≡ record self.old { to_fail = self.old.to_fail ++ call ∷ [] }) }
        ensures err { OnErr result (self.new ≡ self.old) }
    {
        self.to_fail.push(call)?;
        Ok(())
    }

    /// Lets each write from now on take at most so many bytes.
    pub fn take_at_most(&mut self, n: u32)
        requires { 1 ≤ n }
        ensures { self.new ≡ record self.old { most = Some n } }
    {
        self.most = Bound::of(n);
    }

    /// The bytes that were written: a prefix of them, and all of them unless a write was refused memory for this copy, which `new` took.
    pub fn text(&self) -> &Text
        ensures value { result.now ≡ self.now.text }
        ensures prefix { result.now ≡ take (length result.now) self.now.written }
    {
        &self.text
    }
}

impl Sink for MemSink {
    ghost use Rattle.chk_base.specs.MemSink.{sink_state};

    ghost state = { sink_state };

    fn write(&mut self, piece: &[u8]) -> Result<usize, Failed>
        ensures write { Writes (sink_state self.old) (sink_state self.new) piece.now result }
        ensures failed { IsErr result ↔ FailsAt self.old piece.now }
        ensures count { self.new.faults ≡ (if is_err result then risen self.old.faults else self.old.faults) }
        ensures taken { IfOk result (λ n. n ≡ at_most self.old.most (min (length piece.now) (room_left self.old))) }
        ensures calls { self.new.calls ≡ risen self.old.calls }
        ensures room { self.new.room ≡ self.old.room }
        ensures most { self.new.most ≡ self.old.most }
        ensures to_fail { self.new.to_fail ≡ self.old.to_fail }
        ensures text { (self.new.text ≡ self.new.written) ⊎ (self.new.text ≡ self.old.text) }
    {
        self.calls = self.calls.saturating_add(1);
        let left = self.room - self.bytes.len();
        if self.to_fail.contains(&self.calls) || left == 0 && !piece.is_empty() {
            self.faults = self.faults.saturating_add(1);
            return Err(Failed);
        }
        let taken = &piece[..self.most.taken(piece.len().min(left))];
        if self.text.as_bytes().len() == self.bytes.len() {
            // `new` took the memory, so this isn't refused.
            let _ = self.text.append(taken);
        }
        self.bytes.extend_from_slice(taken).unwrap();
        Ok(taken.len())
    }
}
