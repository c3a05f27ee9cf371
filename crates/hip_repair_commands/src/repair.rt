//! `repair`: the repaired program, for the trace of one of its runs.

ghost use Rattle.std.specs.Prelude.{◌≡◌, false};
ghost use Rattle.hip_answers.specs.Answers.{IsDelivered};
ghost use Rattle.hip_answers.specs.Fetches.{FetchesFiles};
ghost use Rattle.hip_command_io.specs.Results.{GivesOnRun, GivesResult, status_of};
ghost use Rattle.hip_repair_answers.specs.Answers.{HasRepaired, RepairAnswers};
ghost use Rattle.hip_run_repairs.specs.RunRepairs.{IsRepairFor};
ghost use Rattle.hip_runs.specs.Found.Marks.{IsFound};
ghost use Rattle.hip_runs.specs.Validity.{IsValid};

use hip_answers::Status;
use hip_command_io::{Counts, Replayed, Sought, load_run};
use hip_io::{Cabinet, Sink};
use hip_repair_answers::repairs_cure;
use hip_run_repairs::{Repair, repair_for};
use hip_sound::Checked;
use hip_write::write;
use std::alloc::Global;

/// Writes the repaired program, and answers the counts.
fn put_repair<S: Sink>(
    checked: &Checked,
    replayed: &Replayed,
    repair: Repair,
    out: &mut S,
) -> Result<Counts, Status>
    requires valid { IsValid checked.now replayed.now.input }
    requires found { IsFound checked.now replayed.now.input replayed.now.findings }
    requires repair { IsRepairFor checked.now replayed.now.findings repair }
    ensures gives { GivesOnRun (HasRepaired checked.now replayed.now.input replayed.now.findings) false
        (S.state out.old) (S.state out.new) result }
    ensures delivered { S.held out.old ≡ 0 → IsDelivered (status_of result) (S.held out.new) }
{
    // Lemmas: what a repair cures, and that the program is sound.
    repairs_cure();
    let _program = checked.program();
    let Repair { plan, repaired } = repair;
    write(repaired.checked.program(), out)?;
    Ok(Counts::Repair {
        reports: replayed.findings.reports().len(),
        plan,
        clones: repaired.clones.len(),
    })
}

/// Repairs a program for what one of its runs found, and writes it.
fn repair_findings<S: Sink>(
    alloc: Global,
    checked: &Checked,
    replayed: &Replayed,
    out: &mut S,
) -> Result<Counts, Status>
    requires valid { IsValid checked.now replayed.now.input }
    requires found { IsFound checked.now replayed.now.input replayed.now.findings }
    ensures gives { GivesOnRun (HasRepaired checked.now replayed.now.input replayed.now.findings) false
        (S.state out.old) (S.state out.new) result }
    ensures delivered { S.held out.old ≡ 0 → IsDelivered (status_of result) (S.held out.new) }
{
    let repair = repair_for(alloc, checked, &replayed.findings)?;
    put_repair(checked, replayed, repair, out)
}

/// Repairs the program of a file for the run whose trace another file has. It takes all its memory before it writes the
/// first byte.
#[inline(never)]
pub fn repair_file<C: Cabinet, S: Sink>(
    alloc: Global,
    program: &str,
    trace: &str,
    cabinet: &mut C,
    out: &mut S,
) -> Result<Counts, Status>
    ensures gives { GivesResult (RepairAnswers (C.state cabinet.old) (C.state cabinet.new) program.now trace.now) false
        (C.state cabinet.old) (C.state cabinet.new) (S.state out.old) (S.state out.new) result }
    ensures fetches { FetchesFiles 2 (status_of result) (C.state cabinet.old) (C.state cabinet.new) }
    ensures delivered { S.held out.old ≡ 0 → IsDelivered (status_of result) (S.held out.new) }
{
    let loaded = load_run(alloc, program, trace, Sought::Findings, cabinet)?;
    repair_findings(alloc, &loaded.checked, &loaded.replayed, out)
}
