//! `run`: what a program prints.

ghost use Rattle.std.specs.Prelude.{◌≡◌, ◌≤◌, true, length};
ghost use Rattle.hip_answers.specs.Answers.{IsDelivered};
ghost use Rattle.hip_answers.specs.Fetches.{FetchesFiles};
ghost use Rattle.hip_command_io.specs.Results.{GivesResult, status_of};
ghost use Rattle.hip_run_commands.specs.Run.{RunAnswers};

use hip_answers::Status;
use hip_command_io::{Counts, load_program, status_of_recording};
use hip_io::{Cabinet, Sink};
use hip_replay::print_run;
use hip_runs::{MOST_NUMBERS, MOST_TURNS, first_input};
use hip_types::{LOWEST_BASE, Row};
use std::alloc::Global;

/// Runs the program of a file, with its region at the lowest base, writes what it prints as it runs, and answers how
/// the run has ended.
#[inline(never)]
pub fn run_file<C: Cabinet, S: Sink>(
    alloc: Global,
    program: &str,
    limit: u64,
    numbers: Row<i64>,
    cabinet: &mut C,
    out: &mut S,
) -> Result<Counts, Status>
    requires limit { limit ≤ MOST_TURNS }
    requires numbers { length numbers ≤ MOST_NUMBERS }
    ensures gives { GivesResult (RunAnswers (C.state cabinet.old) (C.state cabinet.new) program.now limit numbers) true
        (C.state cabinet.old) (C.state cabinet.new) (S.state out.old) (S.state out.new) result }
    ensures fetches { FetchesFiles 1 (status_of result) (C.state cabinet.old) (C.state cabinet.new) }
    ensures delivered { S.held out.old ≡ 0 → IsDelivered (status_of result) (S.held out.new) }
{
    let checked = load_program(alloc, cabinet, program)?;
    let input = first_input(alloc, &checked, LOWEST_BASE, limit, numbers)?;
    match print_run(alloc, &checked, &input, out) {
        Ok(ending) => Ok(Counts::Ending(ending)),
        Err(refusal) => Err(status_of_recording(refusal)),
    }
}
