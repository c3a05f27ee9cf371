//! Why one of many traces is refused.

ghost use Rattle.std.specs.Prelude.{◌≡◌};
ghost use Rattle.hip_repair_commands.specs.AskedRuns.{numbered, status_of_traces};
ghost use Rattle.hip_repair_commands.specs.Many.{status_in};

use hip_answers::{FileRole, Status, TraceFileRefusal};
use hip_program_files::Failure;

/// The file that is not the trace of a run of a program, and why.
#[derive(Clone, Copy, Debug, PartialEq, Eq)]
pub struct NumberedRefusal {
    /// The file's number among the traces, counted from 1.
    pub number: u64,
    pub why: TraceFileRefusal,
}

/// A refusal of the trace of that number.
pub(crate) fn numbered(number: u64, failure: Failure<TraceFileRefusal>) -> Failure<NumberedRefusal>
    ensures { result ≡ numbered number failure }
{
    match failure {
        Failure::Refused(why) => Failure::Refused(NumberedRefusal { number, why }),
        Failure::ReadFault => Failure::ReadFault,
        Failure::NoMemory => Failure::NoMemory,
    }
}

/// The status if one of the traces is not loaded.
pub(crate) fn status_of_traces(failure: Failure<NumberedRefusal>) -> Status
    ensures { result ≡ status_of_traces failure }
{
    match failure {
        Failure::Refused(refusal) => status_in(refusal.number, refusal.why),
        Failure::ReadFault => Status::ReadFault,
        Failure::NoMemory => Status::NoMemory,
    }
}

fn status_in(number: u64, why: TraceFileRefusal) -> Status
    ensures { result ≡ status_in number why }
{
    match why {
        TraceFileRefusal::Missing => Status::Missing {
            file: FileRole::Number(number),
        },
        TraceFileRefusal::Misfit { entry, kind } => Status::MisfitIn {
            trace: number,
            entry,
            kind,
        },
    }
}
