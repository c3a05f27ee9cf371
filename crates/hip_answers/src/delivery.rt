//! The end of a call, once its status is known.

ghost use Rattle.std.specs.Prelude.{◌≡◌};
ghost use Rattle.hip_answers.specs.Answers.{Finishes, PutsLine};

use crate::lines::put_line;
use crate::status::Status;
use hip_io::{Put, Sink};

/// Writes the line of a status, as far as it can be written, and answers the status.
pub fn refuse<N: Sink>(notes: &mut N, status: Status) -> Status
    ensures status { result ≡ status }
    ensures line { PutsLine status (N.state notes.old) (N.state notes.new) }
{
    let _put = put_line(notes, &status);
    status
}

/// The status of a call that has written to the output and then tried to write its text for the notes: the status, or a
/// write fault. After a write fault it tries to write the line of the write fault.
pub fn finish<N: Sink>(notes: &mut N, tried: Put, status: Status) -> Status
    ensures { Finishes tried status (N.state notes.old) (N.state notes.new) result }
{
    match tried {
        Put::Done => status,
        Put::Failed => refuse(notes, Status::WriteFault),
    }
}
