//! `rerun`: the trace of the repaired program's run, on the input of a trace of the original program.

ghost use Rattle.std.specs.Prelude.{◌≡◌, true};
ghost use Rattle.hip_answers.specs.Answers.{IsDelivered};
ghost use Rattle.hip_answers.specs.Fetches.{FetchesFiles};
ghost use Rattle.hip_command_io.specs.Results.{GivesOnRun, GivesResult, status_of};
ghost use Rattle.hip_repair_answers.specs.Answers.{HasRerun, RerunAnswers};
ghost use Rattle.hip_run_repairs.specs.RunRepairs.{IsRepairFor};
ghost use Rattle.hip_runs.specs.Found.Marks.{IsFound};
ghost use Rattle.hip_runs.specs.Validity.{IsValid};

use hip_answers::Status;
use hip_command_io::{Counts, Replayed, Sought, load_run, status_of_recording};
use hip_io::{Cabinet, Sink};
use hip_repair_answers::repairs_cure;
use hip_replay::record_run;
use hip_run_repairs::{Repair, repair_for};
use hip_sound::Checked;
use std::alloc::Global;

/// Runs the repaired program on the run's input, writes its trace as it runs, and answers how many reports each of the
/// two runs has.
fn run_repair<S: Sink>(
    alloc: Global,
    checked: &Checked,
    replayed: &Replayed,
    repair: &Repair,
    out: &mut S,
) -> Result<Counts, Status>
    requires valid { IsValid checked.now replayed.now.input }
    requires found { IsFound checked.now replayed.now.input replayed.now.findings }
    requires repair { IsRepairFor checked.now replayed.now.findings repair.now }
    ensures gives { GivesOnRun (HasRerun checked.now replayed.now.input replayed.now.findings) true
        (S.state out.old) (S.state out.new) result }
    ensures delivered { IsDelivered (status_of result) (S.held out.new) }
{
    // Lemmas: what a repair cures, and that the program is sound.
    repairs_cure();
    let _program = checked.program();
    match record_run(alloc, &repair.repaired.checked, &replayed.input, out) {
        Ok(recorded) => Ok(Counts::Rerun {
            before: replayed.findings.reports().len(),
            after: recorded.findings.reports().len(),
        }),
        Err(refusal) => Err(status_of_recording(refusal)),
    }
}

/// Repairs a program for what one of its runs found, and runs it.
fn rerun_findings<S: Sink>(
    alloc: Global,
    checked: &Checked,
    replayed: &Replayed,
    out: &mut S,
) -> Result<Counts, Status>
    requires valid { IsValid checked.now replayed.now.input }
    requires found { IsFound checked.now replayed.now.input replayed.now.findings }
    ensures gives { GivesOnRun (HasRerun checked.now replayed.now.input replayed.now.findings) true
        (S.state out.old) (S.state out.new) result }
    ensures delivered { S.held out.old ≡ 0 → IsDelivered (status_of result) (S.held out.new) }
{
    let repair = repair_for(alloc, checked, &replayed.findings)?;
    run_repair(alloc, checked, replayed, &repair, out)
}

/// Repairs the program of a file for the run whose trace another file has, and writes the trace of the repaired
/// program's run on the same input as it runs.
#[inline(never)]
pub fn rerun_file<C: Cabinet, S: Sink>(
    alloc: Global,
    program: &str,
    trace: &str,
    cabinet: &mut C,
    out: &mut S,
) -> Result<Counts, Status>
    ensures gives { GivesResult (RerunAnswers (C.state cabinet.old) (C.state cabinet.new) program.now trace.now) true
        (C.state cabinet.old) (C.state cabinet.new) (S.state out.old) (S.state out.new) result }
    ensures fetches { FetchesFiles 2 (status_of result) (C.state cabinet.old) (C.state cabinet.new) }
    ensures delivered { S.held out.old ≡ 0 → IsDelivered (status_of result) (S.held out.new) }
{
    let loaded = load_run(alloc, program, trace, Sought::Findings, cabinet)?;
    rerun_findings(alloc, &loaded.checked, &loaded.replayed, out)
}
