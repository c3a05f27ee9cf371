//! The trace of a run, written as it runs.

ghost use Rattle.hip_answers.specs.Answers.{IsDelivered};
ghost use Rattle.hip_answers.specs.Traces.{GivesTrace};
ghost use Rattle.hip_command_io.specs.Results.{GivesOnRun, status_of, status_of_recording};
ghost use Rattle.hip_runs.specs.Validity.{IsValid};
ghost use Rattle.std.specs.Prelude.{◌≡◌, true};

use crate::counts::Counts;
use hip_answers::Status;
use hip_io::Sink;
use hip_replay::{RecordRefusal, write_trace};
use hip_runs::Input;
use hip_sound::Checked;
use std::alloc::Global;

/// The status of a text that was not written whole while a run took its steps.
pub fn status_of_recording(refusal: RecordRefusal) -> Status
    ensures { result ≡ status_of_recording refusal }
{
    match refusal {
        RecordRefusal::WriteFault => Status::WriteFault,
        RecordRefusal::NoMemory => Status::NoMemory,
    }
}

/// Writes the trace of a run as it runs, and answers how the run has ended.
pub fn put_trace<S: Sink>(
    alloc: Global,
    checked: &Checked,
    input: &Input,
    out: &mut S,
) -> Result<Counts, Status>
    requires { IsValid checked.now input.now }
    ensures gives { GivesOnRun (GivesTrace checked.now input.now) true (S.state out.old) (S.state out.new) result }
    ensures delivered { IsDelivered (status_of result) (S.held out.new) }
{
    match write_trace(alloc, checked, input, out) {
        Ok(ended) => Ok(Counts::Ending(ended.ending)),
        Err(refusal) => Err(status_of_recording(refusal)),
    }
}
