ghost use Rattle.hip_typing.specs.Seen.Answers.{Answers, asked};

use hip_sound::{Fault, Finding, Place};
use hip_types::NoMemory;

/// Why the verifier stopped.
#[derive(Drop)]
pub enum Refused {
    Found(Finding),
    NoMemory,
}

impl From<NoMemory> for Refused {
    ghost use Rattle.std.specs.Prelude.{◌≡◌};
    ghost use Rattle.hip_typing.specs.declared.refused.Refused.TheVariants as refused;

    ghost from_gives = { λ _ e. e ≡ refused.NoMemory };

    fn from(_cause: NoMemory) -> Refused {
        Refused::NoMemory
    }
}

/// Refuses the place with the fault if the test of a rule does not hold.
pub fn ask(holds: bool, fault: Fault, place: Place) -> Result<(), Refused>
    ensures { Answers result (asked holds fault place) }
{
    if holds {
        Ok(())
    } else {
        Err(Refused::Found(Finding { fault, place }))
    }
}
