ghost use Rattle.hip_globals.specs.Addresses.{OwnTypesFit};
ghost use Rattle.hip_typing.specs.Seen.Answers.{Answers};
ghost use Rattle.hip_sound.specs.Rules.{sizes_required};

use crate::refused::{Refused, ask};
use hip_globals::are_within_limits;
use hip_sound::{Fault, Place};
use hip_tree::Program;

/// Verifies that the region and the volatile globals are not too large.
pub fn verify_sizes(program: &Program) -> Result<(), Refused>
    requires { OwnTypesFit program.now.globals }
    ensures { Answers result (sizes_required program.now).found }
{
    let fit = are_within_limits(program.globals.as_slice());
    ask(fit, Fault::TooLarge, Place::Whole)
}
