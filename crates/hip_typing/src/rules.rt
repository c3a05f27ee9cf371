ghost use Rattle.hip_typing.specs.Seen.Answers.{Answers};
ghost use Rattle.hip_sound.specs.Rules.{rules_required};

pub mod externs;
pub mod globals;
pub mod inner;
pub mod named;
pub mod sizes;
pub mod whole;

use crate::places::verify_places;
use crate::refused::Refused;
use crate::rules::externs::verify_externs;
use crate::rules::globals::verify_globals;
use crate::rules::inner::verify_registers;
use crate::rules::named::verify_names;
use crate::rules::sizes::verify_sizes;
use crate::rules::whole::verify_main;
use hip_tree::Program;
use std::alloc::Global;

/// Verifies the rules between the rule of spelling and the rule of paths, in their order.
pub fn verify_rules(alloc: Global, program: &Program) -> Result<(), Refused>
    ensures { Answers result (rules_required program.now).found }
{
    verify_names(alloc, program)?;
    verify_globals(alloc, program)?;
    verify_externs(program)?;
    verify_sizes(program)?;
    verify_main(program)?;
    verify_registers(alloc, program)?;
    verify_places(alloc, program)
}
