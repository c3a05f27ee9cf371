//! `record`: the trace of a program's run.

ghost use Rattle.hip_answers.specs.Answers.{IsDelivered};
ghost use Rattle.hip_answers.specs.Fetches.{FetchesFiles};
ghost use Rattle.hip_command_io.specs.Results.{GivesResult, status_of};
ghost use Rattle.hip_run_commands.specs.Record.{RecordAnswers};
ghost use Rattle.hip_globals.specs.Addresses.{IsBase};
ghost use Rattle.std.specs.Prelude.{◌≡◌, ◌≤◌, true, length};

use hip_answers::Status;
use hip_command_io::{Counts, load_program, put_trace};
use hip_io::{Cabinet, Sink};
use hip_runs::{MOST_NUMBERS, MOST_TURNS, first_input};
use hip_types::Row;
use std::alloc::Global;

/// Where a run begins: the base of its region, the most turns that it takes, and the numbers that it reads.
#[derive(Drop)]
pub struct RunStart {
    pub base: u64,
    pub limit: u64,
    pub numbers: Row<i64>,
}

/// Runs the program of a file, writes the trace of the run as it runs, a line for each entry, and answers how the run
/// has ended.
#[inline(never)]
pub fn record_file<C: Cabinet, S: Sink>(
    alloc: Global,
    program: &str,
    start: RunStart,
    cabinet: &mut C,
    out: &mut S,
) -> Result<Counts, Status>
    requires base { IsBase start.base }
    requires limit { start.limit ≤ MOST_TURNS }
    requires numbers { length start.numbers ≤ MOST_NUMBERS }
    ensures gives { GivesResult
        (RecordAnswers (C.state cabinet.old) (C.state cabinet.new) program.now start.base start.limit start.numbers)
        true (C.state cabinet.old) (C.state cabinet.new) (S.state out.old) (S.state out.new) result }
    ensures fetches { FetchesFiles 1 (status_of result) (C.state cabinet.old) (C.state cabinet.new) }
    ensures delivered { S.held out.old ≡ 0 → IsDelivered (status_of result) (S.held out.new) }
{
    let RunStart {
        base,
        limit,
        numbers,
    } = start;
    let checked = load_program(alloc, cabinet, program)?;
    let input = first_input(alloc, &checked, base, limit, numbers)?;
    put_trace(alloc, &checked, &input, out)
}
