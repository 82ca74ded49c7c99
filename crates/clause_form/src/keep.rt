// Keeps of lines.
ghost use Rattle.std.specs.Prelude.{◌≡◌, List, Option, ℕ};
ghost use Rattle.clause_form.specs.declared.line.Line.{Line};
ghost use Rattle.clause_form.specs.Keep.{Keeps, HasCause};

use crate::line::Line;
use thiserror::Error;

/// Why a keep didn't take a line.
#[derive(Clone, Copy, Debug, Error, PartialEq, Eq)]
pub enum KeepFault {
    #[error("Failed")]
    Failed,
    #[error("Memory")]
    Memory,
}

/// What keeps the lines of a search.
pub trait Keep {
    // what it was made with or set to
    ghost Origin: { Type 0 };

    ghost origin: { Self → Origin };

    // the lines, where it tells them
    ghost lines: { Self → Option (List Line) };

    // how often it failed; it stands still at its type's end
    ghost faults: { Self → ℕ };

    /// Puts the line at the end; after a fault the lines are as before.
    fn line(&mut self, line: &Line) -> Result<(), KeepFault>
        ensures kept { Keeps result (lines self.old) line.now (lines self.new) }
        ensures cause { HasCause result (faults self.old) (faults self.new) }
        ensures origin { origin self.new ≡ origin self.old };
}
