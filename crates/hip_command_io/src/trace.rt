//! The trace of a run, in a file.

ghost use Rattle.std.specs.Prelude.{◌≡◌, IsTrue};
ghost use Rattle.hip_replay.specs.Replays.{Replays};
ghost use Rattle.hip_trace.specs.Reads.{ReaderState};
ghost use Rattle.hip_command_io.specs.LoadedTraces.{LoadsTrace, failure_of};
ghost use Rattle.hip_program_files.specs.Outside.{CountsFetches};

use hip_answers::TraceFileRefusal;
use hip_io::{Cabinet, Fetched};
use hip_lockstep::ReplayRefusal;
use hip_program_files::Failure;
use hip_replay::{Replayed, Sought, replay};
use hip_sound::Checked;
use hip_trace::Reader;
use std::alloc::Global;

fn failure_of(refusal: ReplayRefusal) -> Failure<TraceFileRefusal>
    ensures { result ≡ failure_of refusal }
{
    match refusal {
        ReplayRefusal::Misfit { entry, kind } => Failure::Refused(TraceFileRefusal::Misfit {
            entry,
            kind,
        }),
        ReplayRefusal::ReadFault => Failure::ReadFault,
        ReplayRefusal::NoMemory => Failure::NoMemory,
    }
}

/// The run whose trace the rest of the current file is.
fn replay_rest<C: Cabinet>(
    alloc: Global,
    checked: &Checked,
    sought: Sought,
    cabinet: &mut C,
) -> Result<Replayed, ReplayRefusal>
    requires { IsTrue (C.state cabinet.old).is_current }
    ensures { (r : ReaderState) × Replays checked.now sought r (C.state cabinet.old) (C.state cabinet.new) result }
{
    let mut reader = Reader::new();
    replay(alloc, checked, sought, &mut reader, cabinet)
}

/// The run of the program whose trace the file of that name has: its input, what it found of what is sought, how it has
/// ended, and how many entries its trace has. The cabinet may be in any state.
pub fn load_trace<C: Cabinet>(
    alloc: Global,
    checked: &Checked,
    sought: Sought,
    cabinet: &mut C,
    name: &str,
) -> Result<Replayed, Failure<TraceFileRefusal>>
    ensures loads { LoadsTrace checked.now sought name.now (C.state cabinet.old) (C.state cabinet.new) result }
    ensures fetches { CountsFetches 1 (C.state cabinet.old) (C.state cabinet.new) }
{
    match cabinet.fetch(name) {
        Fetched::Ready => match replay_rest(alloc, checked, sought, cabinet) {
            Ok(replayed) => Ok(replayed),
            Err(refusal) => Err(failure_of(refusal)),
        },
        Fetched::Missing => Err(Failure::Refused(TraceFileRefusal::Missing)),
        Fetched::Failed => Err(Failure::ReadFault),
    }
}
