ghost use Rattle.std.specs.Prelude.{◌≡◌};
ghost use Rattle.hip_typing.specs.Verified.{refusal_of, refusal_on_paths};
ghost use Rattle.hip_sound.specs.Refusals.{fault_of};

use crate::assigned::NotAssigned;
use crate::refused::Refused;
use hip_sound::{Fault, Place, TypeFault, TypeRefusal};

fn fault_of(fault: Fault) -> TypeFault
    ensures { result ≡ fault_of fault }
{
    match fault {
        Fault::Duplicate => TypeFault::Duplicate,
        Fault::Unknown => TypeFault::Unknown,
        Fault::Mismatch => TypeFault::Mismatch,
        Fault::NoMain => TypeFault::NoMain,
        Fault::BadExtern => TypeFault::BadExtern,
        Fault::BadGlobal => TypeFault::BadGlobal,
        Fault::BadEdge => TypeFault::BadEdge,
        Fault::TooLarge => TypeFault::TooLarge,
    }
}

/// The refusal of a program for a verification that stopped. Out of memory has no place of its own.
pub fn refusal_of(refused: Refused) -> TypeRefusal
    ensures { result ≡ refusal_of refused }
{
    match refused {
        Refused::Found(finding) => TypeRefusal {
            fault: fault_of(finding.fault),
            place: finding.place,
        },
        Refused::NoMemory => TypeRefusal {
            fault: TypeFault::NoMemory,
            place: Place::Whole,
        },
    }
}

/// The refusal of a program that uses a register without an assignment on some path.
pub fn refusal_on_paths(refused: NotAssigned) -> TypeRefusal
    ensures { result ≡ refusal_on_paths refused }
{
    match refused {
        NotAssigned::Use { place, path } => TypeRefusal {
            fault: TypeFault::Unassigned { path },
            place,
        },
        NotAssigned::NoMemory => TypeRefusal {
            fault: TypeFault::NoMemory,
            place: Place::Whole,
        },
    }
}
