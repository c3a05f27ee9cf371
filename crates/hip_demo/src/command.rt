//! `demo`: what is shown of a generated program.

ghost use Rattle.std.specs.Prelude.{◌≡◌, ◌<◌, ◌≤◌, false};
ghost use Rattle.hip_answers.specs.Answers.{IsDelivered};
ghost use Rattle.hip_command_io.specs.Results.{GivesResult, status_of};
ghost use Rattle.hip_demo.specs.Demo.{DemoAnswers};
ghost use Rattle.hip_io.specs.Cabinets.{CabinetState};

use crate::lines::put_shown;
use crate::shown::show_generated;
use hip_answers::Status;
use hip_command_io::Counts;
use hip_gen::{LARGEST_SIZE, SEED_END, generated_programs_are_sound};
use hip_io::{Put, Sink};
use std::alloc::Global;

/// Makes the program for a seed and a size, records its run in memory, replays the trace, repairs the program and runs
/// it again. It takes all its memory before it writes the first byte, and reads no file of the cabinet.
#[inline(never)]
pub fn demo<S: Sink>(alloc: Global, seed: u64, size: u64, out: &mut S) -> Result<Counts, Status>
    requires seed { seed < SEED_END }
    requires some { 1 ≤ size }
    requires small { size ≤ LARGEST_SIZE }
    ensures gives { (files : CabinetState) → GivesResult (DemoAnswers seed size files files) false files files
        (S.state out.old) (S.state out.new) result }
    ensures delivered { S.held out.old ≡ 0 → IsDelivered (status_of result) (S.held out.new) }
{
    // Lemma: the text that is generated reads as a sound program.
    generated_programs_are_sound();
    let shown = show_generated(alloc, seed, size)?;
    match put_shown(out, seed, size, &shown) {
        Put::Done => Ok(Counts::Nothing),
        Put::Failed => Err(Status::WriteFault),
    }
}
