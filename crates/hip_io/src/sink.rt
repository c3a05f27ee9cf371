ghost use Rattle.std.specs.Prelude.{◌≡◌, []};
ghost use Rattle.hip_io.specs.Sinks.{Delivers, HasPut, Writes};

use thiserror::Error;

/// The answer to a piece that a sink was given.
#[derive(Clone, Copy, Debug, PartialEq, Eq)]
pub enum Put {
    Done,
    Failed,
}

/// A text could not be written whole.
#[derive(Debug, Drop, Error)]
#[error("the write failed")]
pub struct WriteFault;

/// Where bytes go. A sink may hold the last bytes back until `deliver`. Code that writes a text to its end delivers it.
pub trait Sink {
    ghost use Rattle.std.specs.Prelude.{ℕ};
    ghost use Rattle.hip_io.specs.Sinks.{SinkState};

    ghost state: { Self → SinkState };

    // How many of the last bytes that it was given a sink still holds back.
    ghost held: { Self → ℕ };

    /// Appends the piece. After `Failed` a prefix of it was appended.
    fn put(&mut self, bytes: &[u8]) -> Put
        ensures { HasPut (state self.old) (state self.new) bytes.now result };

    /// Sends out what is held back. It appends nothing; `Failed` says that a write has failed.
    fn deliver(&mut self) -> Put
        ensures nothing { HasPut (state self.old) (state self.new) [] result }
        ensures all { result ≡ Put.Done → held self.new ≡ 0 };
}

/// Appends the piece, unless an earlier one has failed.
pub fn put_after<S: Sink>(before: Put, out: &mut S, piece: &[u8]) -> Put
    ensures { Writes before result (S.state out.old) (S.state out.new) piece.now }
{
    match before {
        Put::Done => out.put(piece),
        Put::Failed => Put::Failed,
    }
}

/// Sends out what is held back, unless an earlier piece has failed.
pub fn deliver_after<S: Sink>(before: Put, out: &mut S) -> Put
    ensures { Delivers before result (S.state out.old) (S.state out.new) (S.held out.new) [] }
{
    match before {
        Put::Done => out.deliver(),
        Put::Failed => before,
    }
}
