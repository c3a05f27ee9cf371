//! `thin`: the repaired program, for the trace of one of its runs, whose clones do not flush the low stores.

ghost use Rattle.std.specs.Prelude.{◌≡◌, false};
ghost use Rattle.hip_answers.specs.Answers.{IsDelivered};
ghost use Rattle.hip_answers.specs.Fetches.{FetchesFiles};
ghost use Rattle.hip_command_io.specs.Results.{GivesOnRun, GivesResult, status_of};
ghost use Rattle.hip_runs.specs.Found.Marks.{IsFound};
ghost use Rattle.hip_runs.specs.Validity.{IsValid};
ghost use Rattle.hip_repair_commands.specs.Thin.{HasThinned, ThinAnswers};
ghost use Rattle.hip_run_repairs.specs.RunRepairs.{IsThinnedFor};

use crate::thin_laws::thins_cure;
use hip_answers::Status;
use hip_command_io::{Counts, Replayed, Sought, load_run};
use hip_io::{Cabinet, Sink};
use hip_run_repairs::{Repair, Thinned, thin_for};
use hip_sound::Checked;
use hip_write::write;
use std::alloc::Global;

/// Writes the repaired program, and answers the counts.
fn put_thinned<S: Sink>(
    checked: &Checked,
    replayed: &Replayed,
    thinned: Thinned,
    out: &mut S,
) -> Result<Counts, Status>
    requires valid { IsValid checked.now replayed.now.input }
    requires found { IsFound checked.now replayed.now.input replayed.now.findings }
    requires thinned { IsThinnedFor checked.now replayed.now.findings thinned }
    ensures gives { GivesOnRun (HasThinned checked.now replayed.now.input replayed.now.findings) false
        (S.state out.old) (S.state out.new) result }
    ensures delivered { S.held out.old ≡ 0 → IsDelivered (status_of result) (S.held out.new) }
{
    // Lemmas: what such a repair cures, and that the program is sound.
    thins_cure();
    let _program = checked.program();
    let Thinned { repair, spared } = thinned;
    let Repair { plan, repaired } = repair;
    write(repaired.checked.program(), out)?;
    Ok(Counts::Thin {
        reports: replayed.findings.reports().len(),
        plan,
        clones: repaired.clones.len(),
        spared,
    })
}

/// Repairs a program for what one of its runs found, and writes it.
fn thin_findings<S: Sink>(
    alloc: Global,
    checked: &Checked,
    replayed: &Replayed,
    out: &mut S,
) -> Result<Counts, Status>
    requires valid { IsValid checked.now replayed.now.input }
    requires found { IsFound checked.now replayed.now.input replayed.now.findings }
    ensures gives { GivesOnRun (HasThinned checked.now replayed.now.input replayed.now.findings) false
        (S.state out.old) (S.state out.new) result }
    ensures delivered { S.held out.old ≡ 0 → IsDelivered (status_of result) (S.held out.new) }
{
    let thinned = thin_for(alloc, checked, &replayed.findings)?;
    put_thinned(checked, replayed, thinned, out)
}

/// Repairs the program of a file for the run whose trace another file has, with clones that do not flush the low
/// stores. It takes all its memory before it writes the first byte.
#[inline(never)]
pub fn thin_file<C: Cabinet, S: Sink>(
    alloc: Global,
    program: &str,
    trace: &str,
    cabinet: &mut C,
    out: &mut S,
) -> Result<Counts, Status>
    ensures gives { GivesResult (ThinAnswers (C.state cabinet.old) (C.state cabinet.new) program.now trace.now) false
        (C.state cabinet.old) (C.state cabinet.new) (S.state out.old) (S.state out.new) result }
    ensures fetches { FetchesFiles 2 (status_of result) (C.state cabinet.old) (C.state cabinet.new) }
    ensures delivered { S.held out.old ≡ 0 → IsDelivered (status_of result) (S.held out.new) }
{
    let loaded = load_run(alloc, program, trace, Sought::Findings, cabinet)?;
    thin_findings(alloc, &loaded.checked, &loaded.replayed, out)
}
