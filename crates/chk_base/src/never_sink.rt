// A sink that never fails.
ghost use Rattle.std.specs.Prelude.{◌≡◌, ◌++◌, [], take, Ok, length};

use crate::sink::{Failed, Sink};
use std::marker::Model;

const ROOM: usize = 65_536;

/// A sink that never fails, keeps the first 65,536 bytes and tells nothing of what was written.
#[derive(Drop)]
pub struct NeverSink {
    kept: [u8; ROOM],
    len: usize,
}

impl Model for NeverSink {
    ghost use Rattle.std.specs.Prelude.{ℕ, ◌≤◌, List, take};

    ghost Value = { List ℕ };

    ghost view = { λ a. take a.len a.kept };

    ghost invariant = { λ a. a.len ≤ 65536 };
}

impl NeverSink {
    /// A sink to which nothing was written.
    pub fn new() -> NeverSink
        ensures { result ≡ [] }
    {
        NeverSink {
            kept: [0; ROOM],
            len: 0,
        }
    }
}

impl Sink for NeverSink {
    ghost use Rattle.std.specs.Prelude.{None};
    ghost use Rattle.chk_base.specs.Sink.{Writes, at_first};

    ghost state = { λ sink. at_first None };

    fn write(&mut self, piece: &[u8]) -> Result<usize, Failed>
        ensures write { Writes (at_first None) (at_first None) piece.now result }
        ensures whole { result ≡ Ok (length piece.now) }
        ensures kept { self.new ≡ take 65536 (self.old ++ piece.now) }
    {
        let taken = piece.len().min(ROOM - self.len);
        self.kept[self.len..self.len + taken].copy_from_slice(&piece[..taken]);
        self.len += taken;
        Ok(piece.len())
    }
}
