//! The traces, loaded one after the other.

ghost use Rattle.std.specs.Prelude.{◌≡◌, ◌≤◌, ◌+◌, ◌^◌, length};
ghost use Rattle.hip_program_files.specs.Outside.{CountsFetches};
ghost use Rattle.hip_repair_commands.specs.AskedRuns.{Asks, AsksAll, FetchesTraces};

use crate::numbered_refusal::{NumberedRefusal, numbered};
use hip_answers::TraceFileRefusal;
use hip_command_io::{Sought, load_trace};
use hip_io::Cabinet;
use hip_plan::plan;
use hip_program_files::Failure;
use hip_repairs::Plan;
use hip_sound::Checked;
use hip_types::{NoMemory, Row, Text};
use std::alloc::Global;

/// The plan for a run, and how many reports it has.
#[derive(Drop)]
pub(crate) struct Asked {
    pub plan: Plan,
    pub reports: usize,
}

/// The plan for each of many runs, and how many reports they have together.
#[derive(Drop)]
pub(crate) struct AllAsked {
    pub plans: Row<Plan>,
    pub reports: u128,
}

/// Loads the trace of a file, and plans for its run.
fn ask<C: Cabinet>(
    alloc: Global,
    checked: &Checked,
    cabinet: &mut C,
    name: &str,
) -> Result<Asked, Failure<TraceFileRefusal>>
    ensures asks { Asks checked.now name.now (C.state cabinet.old) (C.state cabinet.new) result }
    ensures fetches { CountsFetches 1 (C.state cabinet.old) (C.state cabinet.new) }
{
    let replayed = load_trace(alloc, checked, Sought::Findings, cabinet, name)?;
    let plan = plan(alloc, checked, &replayed.findings)?;
    Ok(Asked {
        plan,
        reports: replayed.findings.reports().len(),
    })
}

/// How many reports runs have together, after one more run.
fn added(reports: u128, more: usize) -> u128
    requires { reports + 2 ^ 64 ≤ 2 ^ 128 }
    ensures sum { result ≡ reports + more }
    ensures few { result ≤ reports + 2 ^ 64 }
{
    reports + more as u128
}

/// Loads the traces of files in order, up to the first file that is not the trace of a run, and plans for their runs.
pub(crate) fn ask_all<C: Cabinet>(
    alloc: Global,
    checked: &Checked,
    traces: &[Text],
    cabinet: &mut C,
) -> Result<AllAsked, Failure<NumberedRefusal>>
    ensures asks { AsksAll checked.now traces.now (C.state cabinet.old) (C.state cabinet.new) result }
    ensures fetches { FetchesTraces (length traces.now) result (C.state cabinet.old) (C.state cabinet.new) }
{
    let mut plans = Row::new(alloc);
    let mut reports = 0;
    'traces: for index in 0..traces.len() {
        match ask(alloc, checked, cabinet, traces[index].as_str()) {
            Ok(asked) => {
                reports = added(reports, asked.reports);
                plans.push(asked.plan)?;
            }
            Err(failure) => return Err(numbered(index as u64 + 1, failure)),
        }
    }
    Ok(AllAsked { plans, reports })
}
