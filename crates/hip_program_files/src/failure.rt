//! Failures of the stages, and the refusals that become failures.

use crate::refusal::{LoadRefusal, ProgramRefusal};
use hip_grammar::ParseRefusal;
use hip_io::ReadRefusal;
use hip_sound::{TypeFault, TypeRefusal};
use hip_types::NoMemory;

/// Why a stage gives nothing: a refusal of its own, a file that could not be read, or no memory.
#[derive(Debug, Drop)]
pub enum Failure<R> {
    Refused(R),
    ReadFault,
    NoMemory,
}

impl<R> From<NoMemory> for Failure<R> {
    ghost use Rattle.std.specs.Prelude.{◌≡◌};
    ghost use Rattle.hip_program_files.specs.declared.failure.Failure.TheVariants as failures;

    ghost from_gives = { λ _ failure. failure ≡ failures.NoMemory };

    fn from(_: NoMemory) -> Failure<R> {
        Failure::NoMemory
    }
}

impl From<ParseRefusal> for Failure<ProgramRefusal> {
    ghost use Rattle.std.specs.Prelude.{◌≡◌};
    ghost use Rattle.hip_program_files.specs.Failures.{failure_of_text};

    ghost from_gives = { λ why failure. failure ≡ failure_of_text why };

    fn from(why: ParseRefusal) -> Failure<ProgramRefusal> {
        match why {
            ParseRefusal::NoMemory => Failure::NoMemory,
            why => Failure::Refused(ProgramRefusal::Text(why)),
        }
    }
}

impl From<TypeRefusal> for Failure<ProgramRefusal> {
    ghost use Rattle.std.specs.Prelude.{◌≡◌};
    ghost use Rattle.hip_program_files.specs.Failures.{failure_of_form};

    ghost from_gives = { λ why failure. failure ≡ failure_of_form why };

    fn from(why: TypeRefusal) -> Failure<ProgramRefusal> {
        match why.fault {
            TypeFault::NoMemory => Failure::NoMemory,
            _ => Failure::Refused(ProgramRefusal::Form(why)),
        }
    }
}

impl From<ReadRefusal> for Failure<LoadRefusal> {
    ghost use Rattle.std.specs.Prelude.{◌≡◌};
    ghost use Rattle.hip_program_files.specs.Failures.{failure_of_file};

    ghost from_gives = { λ why failure. failure ≡ failure_of_file why };

    fn from(why: ReadRefusal) -> Failure<LoadRefusal> {
        match why {
            ReadRefusal::Missing => Failure::Refused(LoadRefusal::Missing),
            ReadRefusal::ReadFault => Failure::ReadFault,
            ReadRefusal::TooLarge => Failure::Refused(LoadRefusal::TooLarge),
            ReadRefusal::NoMemory => Failure::NoMemory,
        }
    }
}

impl From<Failure<ProgramRefusal>> for Failure<LoadRefusal> {
    ghost use Rattle.std.specs.Prelude.{◌≡◌};
    ghost use Rattle.hip_program_files.specs.Failures.{failure_of_program};

    ghost from_gives = { λ why failure. failure ≡ failure_of_program why };

    fn from(why: Failure<ProgramRefusal>) -> Failure<LoadRefusal> {
        match why {
            Failure::Refused(refusal) => Failure::Refused(LoadRefusal::Bad(refusal)),
            Failure::ReadFault => Failure::ReadFault,
            Failure::NoMemory => Failure::NoMemory,
        }
    }
}
