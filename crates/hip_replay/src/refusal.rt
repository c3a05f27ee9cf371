use hip_io::WriteFault;
use hip_types::NoMemory;

/// Why the text of a run was not written whole.
#[derive(Clone, Copy, Debug, PartialEq, Eq)]
pub enum RecordRefusal {
    WriteFault,
    NoMemory,
}

impl From<NoMemory> for RecordRefusal {
    ghost use Rattle.std.specs.Prelude.{◌≡◌};
    ghost use Rattle.hip_replay.specs.declared.refusal.RecordRefusal.TheVariants as refusals;

    ghost from_gives = { λ _ refusal. refusal ≡ refusals.NoMemory };

    fn from(_: NoMemory) -> RecordRefusal {
        RecordRefusal::NoMemory
    }
}

impl From<WriteFault> for RecordRefusal {
    ghost use Rattle.std.specs.Prelude.{◌≡◌};
    ghost use Rattle.hip_replay.specs.declared.refusal.RecordRefusal.TheVariants as refusals;

    ghost from_gives = { λ _ refusal. refusal ≡ refusals.WriteFault };

    fn from(_: WriteFault) -> RecordRefusal {
        RecordRefusal::WriteFault
    }
}
