//! A run that is recorded in memory, and its trace replayed.

ghost use Rattle.std.specs.Prelude.{◌≡◌, [], ◌∷◌, IfOk, codes};
ghost use Rattle.hip_demo.specs.Replays.{HasKept, HasReplayedText};
ghost use Rattle.hip_run_traces.specs.Misfits.{IsTraceOf};
ghost use Rattle.hip_runs.specs.Validity.{IsValid};
ghost use Rattle.hip_runs.specs.declared.input.Input.{Input};

use crate::kept::KeptText;
use hip_io::{Cabinet, Fetched, MemCabinet, NamedFile};
use hip_lockstep::ReplayRefusal;
use hip_replay::{Recorded, Replayed, Sought, record_run, replay};
use hip_run_traces::{each_run_has_one_trace, misfits_are_one};
use hip_runs::Input;
use hip_sound::Checked;
use hip_trace::Reader;
use hip_types::{NoMemory, Row};
use std::alloc::Global;

/// How many bytes of a trace in memory come at a time.
const CHUNK: usize = 4_096;

/// A recorded run, and the text of its trace.
#[derive(Drop)]
pub(crate) struct Kept {
    pub recorded: Recorded,
    pub text: Row<u8>,
}

/// Runs a program on an input, and keeps the text of the trace.
pub(crate) fn keep_run(alloc: Global, checked: &Checked, input: &Input) -> Result<Kept, NoMemory>
    requires { IsValid checked.now input.now }
    ensures { IfOk result (λ kept. HasKept checked.now input.now kept) }
{
    let mut text = KeptText::new(alloc);
    match record_run(alloc, checked, input, &mut text) {
        Ok(recorded) => Ok(Kept {
            recorded,
            text: text.into_text(),
        }),
        Err(_) => Err(NoMemory),
    }
}

/// A cabinet with one file, `trace`.
fn with_trace(alloc: Global, text: Row<u8>) -> Result<MemCabinet, NoMemory>
    ensures { IfOk result (λ cabinet. cabinet.files ≡ record { name = codes "trace"; bytes = text } ∷ []) }
{
    let mut files = Row::new(alloc);
    files.push(NamedFile {
        name: Row::from_slice(alloc, b"trace")?,
        bytes: text,
    })?;
    Ok(MemCabinet::new(files, CHUNK))
}

/// Replays the trace of a run of the program.
pub(crate) fn replay_text(
    alloc: Global,
    checked: &Checked,
    text: Row<u8>,
) -> Result<Replayed, NoMemory>
    requires { (I : Input) × IsTraceOf checked.now text I }
    ensures { IfOk result (λ replayed. HasReplayedText checked.now text replayed) }
{
    // Lemmas: a run has one trace, and a text one first misfit.
    each_run_has_one_trace();
    misfits_are_one();
    let mut cabinet = with_trace(alloc, text)?;
    match cabinet.fetch("trace") {
        Fetched::Ready => {}
        // The cabinet has this file, and a cabinet in memory does not fail.
        Fetched::Missing => unreachable!(),
        Fetched::Failed => unreachable!(),
    }
    let mut reader = Reader::new();
    match replay(alloc, checked, Sought::Findings, &mut reader, &mut cabinet) {
        Ok(replayed) => Ok(replayed),
        Err(ReplayRefusal::NoMemory) => Err(NoMemory),
        // The text is the trace of a run, and a cabinet in memory does not fail.
        Err(ReplayRefusal::Misfit { .. }) => unreachable!(),
        Err(ReplayRefusal::ReadFault) => unreachable!(),
    }
}
