//! A program and one of its runs, in two files.

ghost use Rattle.hip_command_io.specs.Runs.{FetchesRun, LoadsRun};

use crate::program::load_program;
use crate::trace::load_trace;
use hip_answers::Status;
use hip_io::Cabinet;
use hip_replay::{Replayed, Sought};
use hip_sound::Checked;
use std::alloc::Global;

/// A program, and one of its runs.
#[derive(Drop)]
pub struct LoadedRun {
    pub checked: Checked,
    pub replayed: Replayed,
}

/// The program of a file, and its run whose trace another file has, with what is sought of its findings.
pub fn load_run<C: Cabinet>(
    alloc: Global,
    program: &str,
    trace: &str,
    sought: Sought,
    cabinet: &mut C,
) -> Result<LoadedRun, Status>
    ensures loads { LoadsRun program.now trace.now sought (C.state cabinet.old) (C.state cabinet.new) result }
    ensures fetches { FetchesRun result (C.state cabinet.old) (C.state cabinet.new) }
{
    let checked = load_program(alloc, cabinet, program)?;
    let replayed = load_trace(alloc, &checked, sought, cabinet, trace)?;
    Ok(LoadedRun { checked, replayed })
}
