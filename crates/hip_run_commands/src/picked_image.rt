//! The crash image that picks give at an entry of a trace.

ghost use Rattle.std.specs.Prelude.{◌≡◌};
ghost use Rattle.hip_run_commands.specs.ImagesAtEntries.{HasEntries, TraceHasEntry, PicksImage, StateAtEntry};
ghost use Rattle.hip_runs.specs.Validity.{IsValid};
ghost use Rattle.hip_runs.specs.Seen.{state_of};

use crate::image_refusal::{ImageRefusal, failure_of_picks};
use crate::steps_to_entry::advance_to;
use hip_crash::{CrashLog, Pick};
use hip_image::Image;
use hip_program_files::Failure;
use hip_runs::Input;
use hip_sound::Checked;
use hip_step::{Begin, Machine};
use std::alloc::Global;

/// The image that picks give at an entry of a run's trace, which has `entries` entries.
pub(crate) fn image_at(
    alloc: Global,
    checked: &Checked,
    input: &Input,
    entries: u128,
    entry: u64,
    picks: &[Pick],
) -> Result<Image, Failure<ImageRefusal>>
    requires valid { IsValid checked.now input.now }
    requires counted { HasEntries checked.now input.now entries }
    ensures { PicksImage checked.now input.now entry picks.now result }
{
    if entry == 0 || entries < entry as u128 {
        return Err(Failure::Refused(ImageRefusal::NoEntry { entries }));
    }
    let mut machine = Machine::new(alloc, checked, input)?;
    let mut log = CrashLog::new(alloc, checked, input)?;
    image_later(alloc, &mut log, &mut machine, entry, picks)
}

/// The image that picks give at an entry, for a log and a machine before the first step.
fn image_later<'a>(
    alloc: Global,
    log: &mut CrashLog<'a>,
    machine: &mut Machine<'a>,
    entry: u64,
    picks: &[Pick],
) -> Result<Image, Failure<ImageRefusal>>
    requires same { log.old ≡ machine.old }
    requires fresh { log.old.taken ≡ 0 }
    requires has { TraceHasEntry log.old.program log.old.input entry }
    ensures { PicksImage log.old.program log.old.input entry picks.now result }
{
    advance_to(log, machine, entry as u128)?;
    image_now(alloc, log, entry, picks)
}

/// The image that picks give, for a log that has reached an entry.
fn image_now(
    alloc: Global,
    log: &CrashLog<'_>,
    entry: u64,
    picks: &[Pick],
) -> Result<Image, Failure<ImageRefusal>>
    requires { StateAtEntry log.now.program log.now.input entry (state_of log.now) }
    ensures { PicksImage log.now.program log.now.input entry picks.now result }
{
    match log.pick_image(alloc, picks) {
        Ok(image) => Ok(image),
        Err(refusal) => Err(failure_of_picks(refusal)),
    }
}
