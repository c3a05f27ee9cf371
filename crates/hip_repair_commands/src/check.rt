//! `check`: the reports of a run.

ghost use Rattle.std.specs.Prelude.{◌≡◌, false};
ghost use Rattle.hip_answers.specs.Answers.{IsDelivered};
ghost use Rattle.hip_answers.specs.Fetches.{FetchesFiles};
ghost use Rattle.hip_command_io.specs.Results.{GivesOnRun, GivesResult, status_of};
ghost use Rattle.hip_repair_answers.specs.Answers.{CheckAnswers, HasChecked};

use hip_answers::Status;
use hip_command_io::{Counts, Replayed, Sought, load_run};
use hip_io::{Cabinet, Put, Sink};
use hip_report_lines::put_reports;
use hip_sound::Checked;
use std::alloc::Global;

/// Writes a line for each report of a run, and answers their number.
fn report_findings<S: Sink>(
    checked: &Checked,
    replayed: &Replayed,
    out: &mut S,
) -> Result<Counts, Status>
    ensures gives { GivesOnRun (HasChecked checked.now replayed.now.input replayed.now.findings) false
        (S.state out.old) (S.state out.new) result }
    ensures delivered { S.held out.old ≡ 0 → IsDelivered (status_of result) (S.held out.new) }
{
    let reports = replayed.findings.reports();
    match put_reports(out, checked.program(), reports) {
        Put::Done => Ok(Counts::Reports(reports.len())),
        Put::Failed => Err(Status::WriteFault),
    }
}

/// Writes the reports of the run whose trace one file has, of the program that another file has. It takes all its
/// memory before it writes the first byte.
#[inline(never)]
pub fn check_file<C: Cabinet, S: Sink>(
    alloc: Global,
    program: &str,
    trace: &str,
    cabinet: &mut C,
    out: &mut S,
) -> Result<Counts, Status>
    ensures gives { GivesResult (CheckAnswers (C.state cabinet.old) (C.state cabinet.new) program.now trace.now) false
        (C.state cabinet.old) (C.state cabinet.new) (S.state out.old) (S.state out.new) result }
    ensures fetches { FetchesFiles 2 (status_of result) (C.state cabinet.old) (C.state cabinet.new) }
    ensures delivered { S.held out.old ≡ 0 → IsDelivered (status_of result) (S.held out.new) }
{
    let loaded = load_run(alloc, program, trace, Sought::Reports, cabinet)?;
    report_findings(&loaded.checked, &loaded.replayed, out)
}
