//! Why no crash image is picked.

ghost use Rattle.std.specs.Prelude.{◌≡◌};
ghost use Rattle.hip_run_commands.specs.ImagesAtEntries.{failure_of_picks, status_of_image};

use hip_answers::Status;
use hip_program_files::Failure;
use hip_types::PickRefusal;

/// Why no crash image is picked.
#[derive(Clone, Copy, Debug, PartialEq, Eq)]
pub enum ImageRefusal {
    /// The trace has this number of entries, and none with the order's number.
    NoEntry { entries: u128 },
    /// The first pick that fails does so in this way; never out of memory.
    BadPick { refusal: PickRefusal },
}

/// The status of an image that is not picked.
pub(crate) fn status_of_image(failure: Failure<ImageRefusal>) -> Status
    ensures { result ≡ status_of_image failure }
{
    match failure {
        Failure::Refused(ImageRefusal::NoEntry { entries }) => Status::NoEntry { entries },
        Failure::Refused(ImageRefusal::BadPick { refusal }) => Status::BadPick { refusal },
        Failure::ReadFault => Status::ReadFault,
        Failure::NoMemory => Status::NoMemory,
    }
}

/// A refusal of picks, as a refusal of the image.
pub(crate) fn failure_of_picks(refusal: PickRefusal) -> Failure<ImageRefusal>
    ensures { result ≡ failure_of_picks refusal }
{
    match refusal {
        PickRefusal::NoMemory => Failure::NoMemory,
        _ => Failure::Refused(ImageRefusal::BadPick { refusal }),
    }
}
