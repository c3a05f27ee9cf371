ghost use Rattle.std.specs.Prelude.{◌≡◌};
ghost use Rattle.hip_answers.specs.Statuses.{code_of};

use hip_io::WriteFault;
use hip_program_files::{Failure, LoadRefusal, ProgramRefusal};
use hip_run_traces::MisfitKind;
use hip_runs::TrapKind;
use hip_types::{NoMemory, PickRefusal};

/// The file that a status is about.
#[derive(Clone, Copy, PartialEq, Eq)]
pub enum FileRole {
    Program,
    Trace,
    /// One of many traces, numbered from 1.
    Number(u64),
}

/// How a command ended.
#[derive(Drop)]
pub enum Status {
    /// It was carried out.
    Done,
    /// The words are no command.
    Usage,
    /// There is no such file.
    Missing {
        file: FileRole,
    },
    /// A file could not be read.
    ReadFault,
    /// A text could not be written.
    WriteFault,
    /// The program's text is not read, or the program is not sound.
    BadProgram {
        refusal: ProgramRefusal,
    },
    /// The trace is not one of a run of the program. This entry is the first that differs, numbered from 1.
    Misfit {
        entry: u128,
        kind: MisfitKind,
    },
    /// Memory ran out.
    NoMemory,
    /// The program's text has more than 16,777,216 bytes.
    TooLarge,
    /// The run trapped.
    Trapped {
        kind: TrapKind,
    },
    /// The run was cut at its limit of turns.
    Cut,
    /// One of many traces, numbered from 1, is not one of a run of the program. This entry is the first that differs.
    MisfitIn {
        trace: u64,
        entry: u128,
        kind: MisfitKind,
    },
    /// The trace has this number of entries, and none with the order's number, which is 0 or greater than that.
    NoEntry {
        entries: u128,
    },
    /// The first pick that fails does so in this way; never out of memory.
    BadPick {
        refusal: PickRefusal,
    },
}

impl Status {
    /// The exit status of the program.
    pub fn code(&self) -> u8
        ensures { result ≡ code_of self.now }
    {
        match self {
            Status::Done => 0,
            Status::Usage => 1,
            Status::Missing { .. } => 2,
            Status::ReadFault => 3,
            Status::WriteFault => 4,
            Status::BadProgram { .. } => 5,
            Status::Misfit { .. } => 6,
            Status::NoMemory => 7,
            Status::TooLarge => 8,
            Status::Trapped { .. } => 9,
            Status::Cut => 10,
            Status::MisfitIn { .. } => 11,
            Status::NoEntry { .. } => 12,
            Status::BadPick { .. } => 13,
        }
    }
}

/// The status of a program that is not loaded.
impl From<Failure<LoadRefusal>> for Status {
    ghost use Rattle.std.specs.Prelude.{◌≡◌};
    ghost use Rattle.hip_answers.specs.Statuses.{status_of_failure};

    ghost from_gives = { λ failure status. status ≡ status_of_failure failure };

    fn from(failure: Failure<LoadRefusal>) -> Status {
        match failure {
            Failure::Refused(LoadRefusal::Missing) => Status::Missing {
                file: FileRole::Program,
            },
            Failure::Refused(LoadRefusal::TooLarge) => Status::TooLarge,
            Failure::Refused(LoadRefusal::Bad(refusal)) => Status::BadProgram { refusal },
            Failure::ReadFault => Status::ReadFault,
            Failure::NoMemory => Status::NoMemory,
        }
    }
}

impl From<WriteFault> for Status {
    ghost use Rattle.std.specs.Prelude.{◌≡◌};
    ghost use Rattle.hip_answers.specs.declared.status.Status.TheVariants as statuses;

    ghost from_gives = { λ _ status. status ≡ statuses.WriteFault };

    fn from(_: WriteFault) -> Status {
        Status::WriteFault
    }
}

impl From<NoMemory> for Status {
    ghost use Rattle.std.specs.Prelude.{◌≡◌};
    ghost use Rattle.hip_answers.specs.declared.status.Status.TheVariants as statuses;

    ghost from_gives = { λ _ status. status ≡ statuses.NoMemory };

    fn from(_: NoMemory) -> Status {
        Status::NoMemory
    }
}
