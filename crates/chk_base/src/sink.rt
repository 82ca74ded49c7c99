// Sinks: where bytes are written.
ghost use Rattle.chk_base.specs.Sink.{SinkState, Writes, WritesAll};

/// The sink failed.
#[derive(Clone, Copy, PartialEq, Eq, Debug)]
pub struct Failed;

/// What takes bytes in order.
pub trait Sink {
    /// The bytes written so far where they are told, and how often the sink has failed.
    ghost state: { Self → SinkState };

    /// Writes the first bytes of a piece, and answers how many.
    fn write(&mut self, piece: &[u8]) -> Result<usize, Failed>
        ensures { Writes (state self.old) (state self.new) piece.now result };
}

/// Writes a whole piece. Where it fails, a prefix of the piece was written.
pub fn write_all<S: Sink>(out: &mut S, piece: &[u8]) -> Result<(), Failed>
    ensures { WritesAll (S.state out.old) (S.state out.new) piece.now result }
{
    let mut rest = piece;
    while !rest.is_empty() {
        let taken = out.write(rest)?;
        rest = &rest[taken..];
    }
    Ok(())
}
