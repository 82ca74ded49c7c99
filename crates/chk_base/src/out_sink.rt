// A sink over the standard output.
use crate::sink::{Failed, Sink};

/// The standard output. It tells nothing of what was written. Each error counts as a fault, and so does a write that takes nothing.
#[derive(Drop)]
pub struct OutSink<R: Print> {
    rt: R,
    faults: u64,
}

impl<R: Print> OutSink<R> {
    ghost use Rattle.std.specs.Prelude.{◌≡◌, None};
    ghost use Rattle.chk_base.specs.Sink.{at_first};

    /// A sink over the standard output of this runtime.
    pub fn new(rt: R) -> OutSink<R>
        ensures { ⟦<OutSink<R> as Sink>⟧.state result ≡ at_first None }
    {
        OutSink { rt, faults: 0 }
    }
}

impl<R: Print> Sink for OutSink<R> {
    ghost use Rattle.std.specs.Prelude.{None};

    ghost state = { λ sink. record { written = None; faults = sink.faults } };

    fn write(&mut self, piece: &[u8]) -> Result<usize, Failed> {
        match self.rt.write_some(piece) {
            Ok(taken) if taken > 0 || piece.is_empty() => Ok(taken),
            _ => {
                self.faults = self.faults.saturating_add(1);
                Err(Failed)
            }
        }
    }
}
