//! `many`: one repaired program for the traces of many runs.

ghost use Rattle.std.specs.List.{All};
ghost use Rattle.std.specs.Prelude.{◌≡◌, ◌+◌, ℕ, false, List, Option, length};
ghost use Rattle.hip_answers.specs.Answers.{IsDelivered};
ghost use Rattle.hip_answers.specs.Fetches.{FetchesFiles};
ghost use Rattle.hip_command_io.specs.Results.{GivesOnRun, GivesResult, status_of};
ghost use Rattle.hip_io.specs.declared.cabinet.NamedFile.{NamedFile};
ghost use Rattle.hip_repair_commands.specs.AskedRuns.{AreAsked};
ghost use Rattle.hip_repair_commands.specs.Many.{HasRepairedMany, ManyAnswers};
ghost use Rattle.hip_run_repairs.specs.RunRepairs.{IsRepairForAll};
ghost use Rattle.hip_repair_commands.specs.ManyRuns.{AreRunsOf, TracedRun, plans_of, reports_of};
ghost use Rattle.hip_repair_answers.specs.Cured.{IsCuredBy};
ghost use Rattle.hip_repairs.specs.Direct.{direct};

use crate::many_runs::{AllAsked, ask_all};
use crate::numbered_refusal::status_of_traces;
use hip_answers::Status;
use hip_command_io::{Counts, ManyCounts, load_program};
use hip_io::{Cabinet, Sink};
use hip_repair_answers::plans_cure;
use hip_repairs::direct_stores_stay_outside;
use hip_run_repairs::{ManyRepair, repair_for_all};
use hip_sound::Checked;
use hip_types::Text;
use hip_write::write;
use std::alloc::Global;

/// Repairs the program of a file for the runs whose traces other files have, once for all of them. It takes all its
/// memory before it writes the first byte.
#[inline(never)]
pub fn many_file<C: Cabinet, S: Sink>(
    alloc: Global,
    program: &str,
    traces: &[Text],
    cabinet: &mut C,
    out: &mut S,
) -> Result<Counts, Status>
    ensures gives { GivesResult (ManyAnswers (C.state cabinet.old) (C.state cabinet.new) program.now traces.now) false
        (C.state cabinet.old) (C.state cabinet.new) (S.state out.old) (S.state out.new) result }
    ensures fetches { FetchesFiles (1 + length traces.now) (status_of result)
        (C.state cabinet.old) (C.state cabinet.new) }
    ensures delivered { S.held out.old ≡ 0 → IsDelivered (status_of result) (S.held out.new) }
{
    let checked = load_program(alloc, cabinet, program)?;
    match ask_all(alloc, &checked, traces, cabinet) {
        Ok(asked) => repair_many(alloc, checked, traces.len(), &asked, out),
        Err(failure) => Err(status_of_traces(failure)),
    }
}

/// Repairs a program for the runs of all traces, and writes it.
fn repair_many<S: Sink>(
    alloc: Global,
    checked: Checked,
    traces: usize,
    asked: &AllAsked,
    out: &mut S,
) -> Result<Counts, Status>
    ensures gives { (files : Option (List NamedFile)) → (names : List (List ℕ)) → (runs : List TracedRun) →
        AreRunsOf files checked names runs → traces ≡ length names → AreAsked checked runs asked.now →
        GivesOnRun (HasRepairedMany checked runs) false (S.state out.old) (S.state out.new) result }
    ensures delivered { S.held out.old ≡ 0 → IsDelivered (status_of result) (S.held out.new) }
{
    // Lemmas: what a plan cures, that direct stores stay outside, and that the program is sound.
    plans_cure();
    direct_stores_stay_outside();
    let _program = checked.program();
    let made = repair_for_all(alloc, &checked, asked.plans.as_slice())?;
    put_repair(checked, traces, asked.reports, made, out)
}

/// Writes the repaired program, and answers the counts and the reasons.
fn put_repair<S: Sink>(
    checked: Checked,
    traces: usize,
    reports: u128,
    made: ManyRepair,
    out: &mut S,
) -> Result<Counts, Status>
    ensures gives { (runs : List TracedRun) → traces ≡ length runs → reports ≡ reports_of runs →
        IsRepairForAll checked (plans_of checked runs) made →
        All (λ r. IsCuredBy checked r.input made.repair.plan (direct checked)) runs →
        GivesOnRun (HasRepairedMany checked runs) false (S.state out.old) (S.state out.new) result }
    ensures delivered { S.held out.old ≡ 0 → IsDelivered (status_of result) (S.held out.new) }
{
    write(made.repair.repaired.checked.program(), out)?;
    Ok(Counts::Many(ManyCounts {
        checked,
        traces,
        reports,
        made,
    }))
}
