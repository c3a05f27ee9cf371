use crate::status::{FileRole, Status};
use hip_program_files::Failure;
use hip_run_traces::MisfitKind;

/// Why a file is not the trace of a run of a program.
#[derive(Clone, Copy, Debug, PartialEq, Eq)]
pub enum TraceFileRefusal {
    /// There is no such file.
    Missing,
    /// This entry, numbered from 1, is the first that differs from the run's.
    Misfit { entry: u128, kind: MisfitKind },
}

/// The status of a trace that is not loaded.
impl From<Failure<TraceFileRefusal>> for Status {
    ghost use Rattle.std.specs.Prelude.{◌≡◌};
    ghost use Rattle.hip_answers.specs.TraceFiles.{status_of_trace};

    ghost from_gives = { λ failure status. status ≡ status_of_trace failure };

    fn from(failure: Failure<TraceFileRefusal>) -> Status {
        match failure {
            Failure::Refused(TraceFileRefusal::Missing) => Status::Missing {
                file: FileRole::Trace,
            },
            Failure::Refused(TraceFileRefusal::Misfit { entry, kind }) => Status::Misfit {
                entry,
                kind,
            },
            Failure::ReadFault => Status::ReadFault,
            Failure::NoMemory => Status::NoMemory,
        }
    }
}
