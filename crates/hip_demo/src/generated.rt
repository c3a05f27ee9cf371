//! The generated program.

ghost use Rattle.std.specs.Prelude.{◌≡◌, ◌<◌, ◌≤◌, IfOk};
ghost use Rattle.hip_gen.specs.Generated.{generated_program};

use hip_command_io::read_program;
use hip_gen::{LARGEST_SIZE, SEED_END, generate, generated_programs_are_sound};
use hip_program_files::Failure;
use hip_sound::Checked;
use hip_types::NoMemory;
use std::alloc::Global;

/// The program that the generated text for a seed and a size reads as.
pub(crate) fn load_generated(alloc: Global, seed: u64, size: u64) -> Result<Checked, NoMemory>
    requires seed { seed < SEED_END }
    requires some { 1 ≤ size }
    requires small { size ≤ LARGEST_SIZE }
    ensures { IfOk result (λ checked. checked ≡ generated_program seed size) }
{
    // Lemma: the text that is generated reads as a sound program.
    generated_programs_are_sound();
    let text = generate(alloc, seed, size)?;
    match read_program(alloc, text.as_slice()) {
        Ok(checked) => Ok(checked),
        Err(Failure::NoMemory) => Err(NoMemory),
        // The text reads as a sound program, and no file is read.
        Err(Failure::Refused(_)) => unreachable!(),
        Err(Failure::ReadFault) => unreachable!(),
    }
}
