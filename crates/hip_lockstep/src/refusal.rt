use hip_run_traces::MisfitKind;
use hip_types::NoMemory;

/// Why a trace was not replayed.
#[derive(Clone, Copy, Debug, PartialEq, Eq)]
pub enum ReplayRefusal {
    /// The entry of this number, counted from 1, is the first that differs from the run's.
    Misfit { entry: u128, kind: MisfitKind },
    /// A read of the file failed.
    ReadFault,
    NoMemory,
}

impl From<NoMemory> for ReplayRefusal {
    ghost use Rattle.std.specs.Prelude.{◌≡◌};
    ghost use Rattle.hip_lockstep.specs.declared.refusal.ReplayRefusal.TheVariants as refusals;

    ghost from_gives = { λ _ refusal. refusal ≡ refusals.NoMemory };

    fn from(_: NoMemory) -> ReplayRefusal {
        ReplayRefusal::NoMemory
    }
}
