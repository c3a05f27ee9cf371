//! The end of a call: what the notes hold back is sent out.

ghost use Rattle.std.specs.Prelude.{◌≡◌};
ghost use Rattle.hip_tool.specs.CallEnd.{Closes, EndsBy, IsSentOut, is_carried_out};

use hip_answers::{Status, refuse};
use hip_io::{Put, Sink};

/// Whether a call that ends with this status has carried out its command.
fn is_carried_out(status: &Status) -> bool
    ensures { result ≡ is_carried_out status.now }
{
    match status {
        Status::Done | Status::Trapped { .. } | Status::Cut => true,
        Status::Usage
        | Status::Missing { .. }
        | Status::ReadFault
        | Status::WriteFault
        | Status::BadProgram { .. }
        | Status::Misfit { .. }
        | Status::NoMemory
        | Status::TooLarge
        | Status::MisfitIn { .. }
        | Status::NoEntry { .. }
        | Status::BadPick { .. } => false,
    }
}

/// Sends out what the notes hold back, and answers the status. If that fails after a command that was carried out, the
/// call ends in a write fault, and its line is tried.
pub(crate) fn close<N: Sink>(notes: &mut N, status: Status) -> Status
    ensures closes { Closes status (N.state notes.old) (N.state notes.new) result }
    ensures sent { IsSentOut (N.state notes.old) (N.state notes.new) (N.held notes.new) }
{
    match notes.deliver() {
        Put::Done => status,
        Put::Failed => close_after_fault(notes, status),
    }
}

/// The end of a call whose notes could not be sent out.
fn close_after_fault<N: Sink>(notes: &mut N, status: Status) -> Status
    ensures { EndsBy Put.Failed (is_carried_out status) status (N.state notes.old) (N.state notes.new) result }
{
    if is_carried_out(&status) {
        return refuse(notes, Status::WriteFault);
    }
    status
}
