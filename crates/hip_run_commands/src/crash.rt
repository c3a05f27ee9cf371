//! `crash`: the trace of a run that begins with a crash image of another run.

ghost use Rattle.std.specs.Prelude.{◌≡◌, true};
ghost use Rattle.hip_answers.specs.Answers.{IsDelivered};
ghost use Rattle.hip_answers.specs.Fetches.{FetchesFiles};
ghost use Rattle.hip_command_io.specs.Results.{GivesOnRun, GivesResult, status_of};
ghost use Rattle.hip_run_commands.specs.Crash.{CrashAnswers, CrashTexts};
ghost use Rattle.hip_run_commands.specs.ImagesAtEntries.{HasEntries};
ghost use Rattle.hip_runs.specs.Validity.{IsValid};

use crate::image_refusal::status_of_image;
use crate::picked_image::image_at;
use hip_answers::Status;
use hip_command_io::{Counts, LoadedRun, Sought, load_run, put_trace};
use hip_io::{Cabinet, Sink};
use hip_runs::Input;
use hip_types::{Pick, Row};
use std::alloc::Global;

/// Where a run crashes: an entry of its trace, and what its cache lines keep there.
#[derive(Drop)]
pub struct CrashPoint {
    pub entry: u64,
    pub picks: Row<Pick>,
}

/// Picks a crash image of the run whose trace a file has, writes the trace of the run that begins with it as it runs,
/// and answers how that run has ended.
#[inline(never)]
pub fn crash_file<C: Cabinet, S: Sink>(
    alloc: Global,
    program: &str,
    trace: &str,
    point: CrashPoint,
    cabinet: &mut C,
    out: &mut S,
) -> Result<Counts, Status>
    ensures gives { GivesResult
        (CrashAnswers (C.state cabinet.old) (C.state cabinet.new) program.now trace.now point.entry point.picks) true
        (C.state cabinet.old) (C.state cabinet.new) (S.state out.old) (S.state out.new) result }
    ensures fetches { FetchesFiles 2 (status_of result) (C.state cabinet.old) (C.state cabinet.new) }
    ensures delivered { S.held out.old ≡ 0 → IsDelivered (status_of result) (S.held out.new) }
{
    let loaded = load_run(alloc, program, trace, Sought::Reports, cabinet)?;
    crash_run(alloc, loaded, point, out)
}

/// Picks an image of a run that is loaded, and writes the trace of the run that begins with it.
fn crash_run<S: Sink>(
    alloc: Global,
    loaded: LoadedRun,
    point: CrashPoint,
    out: &mut S,
) -> Result<Counts, Status>
    requires valid { IsValid loaded.checked loaded.replayed.input }
    requires counted { HasEntries loaded.checked loaded.replayed.input loaded.replayed.entries }
    ensures gives { GivesOnRun
        (CrashTexts point.entry point.picks loaded.checked loaded.replayed.input loaded.replayed.findings) true
        (S.state out.old) (S.state out.new) result }
    ensures delivered { S.held out.old ≡ 0 → IsDelivered (status_of result) (S.held out.new) }
{
    let CrashPoint { entry, picks } = point;
    let LoadedRun { checked, replayed } = loaded;
    let entries = replayed.entries;
    let input = replayed.input;
    let image = match image_at(alloc, &checked, &input, entries, entry, picks.as_slice()) {
        Ok(image) => image,
        Err(failure) => return Err(status_of_image(failure)),
    };
    let begun = Input { image, ..input };
    put_trace(alloc, &checked, &begun, out)
}
