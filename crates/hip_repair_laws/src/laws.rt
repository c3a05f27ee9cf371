//! What those who use repairs may rely on.

ghost use Rattle.hip_tree.specs.declared.program.Program.{Program};
ghost use Rattle.hip_tree.specs.declared.site.Site.{Site};
ghost use Rattle.hip_runs.specs.Found.WellFormed.{IsWellFormed};
ghost use Rattle.hip_runs.specs.declared.report.Findings.{Findings};
ghost use Rattle.hip_runs.specs.declared.report.Report.{Report};
ghost use Rattle.hip_repairs.specs.Choice.{plan_for};
ghost use Rattle.hip_repairs.specs.declared.plan.Plan.{Plan};
ghost use Rattle.hip_histories.specs.Chains.{Repair, repaired_on};
ghost use Rattle.hip_repair_laws.specs.Defined.{AddsNothingUndefined};
ghost use Rattle.hip_repair_laws.specs.Engines.{KeepsPromises};
ghost use Rattle.hip_repair_laws.specs.Local.{IsLocal, IsPlanned, IsReportedSite};
ghost use Rattle.hip_repair_laws.specs.ReadBack.{IsShort};
ghost use Rattle.hip_repair_laws.specs.Traces.{KeepsTraces};
ghost use Rattle.hip_report_lines.specs.Reports.{report_line};
ghost use Rattle.hip_sound.specs.Sound.{IsSound};
ghost use Rattle.std.specs.Prelude.{◌≡◌, Bool, List};

use hip_histories::{chains_of_repairs_add_up, repairs_take_the_same_steps};
use hip_repairs::repairs_do_no_harm;

/// A function of which the plan names no site is the same function in the repaired program, and its canonical text has the
/// same bytes. Each inserted instruction stands after a site that the plan names; in a clone also after a store.
pub fn repairs_are_local()
    ensures { (P : Program) → (plan : Plan) → (skip : Site → Bool) → IsLocal P plan skip }
{}

/// The plan for what a run found names only sites that a report of the run names: its store, a call on its path, or the
/// flush that lacks a fence.
pub fn plans_name_what_is_reported()
    ensures { (P : Program) → (found : Findings) → (s : Site) → IsPlanned (plan_for P found) s → IsReportedSite found s }
{}

/// A repair makes nothing undefined that was defined, whatever the plan is: what no step of the program is about to do, no
/// step of the repaired program is about to do, apart from the inserted flushes and fences. So whatever LLVM leaves
/// undefined happens in the repaired program's run only where it happens in the program's.
pub fn repairs_add_nothing_undefined()
    ensures { (P : Program) → (plan : Plan) → (skip : Site → Bool) → IsSound P → AddsNothingUndefined P plan skip }
{
    repairs_do_no_harm();
    repairs_take_the_same_steps();
}

/// What the author of a storage engine may rely on after any repairs, whatever their plans are: what holds of each crash
/// image still holds, what is written ahead still is, and no crash history has an outcome that none had before.
pub fn repairs_keep_engine_promises()
    ensures { (P : Program) → (repairs : List Repair) → IsSound P → KeepsPromises P (repaired_on P repairs) }
{
    chains_of_repairs_add_up();
}

/// The trace of a repaired program's run is that of the program's run, with entries of flushes and fences put in,
/// whatever the plan is. So stores and asserts, their order and their values are untouched.
pub fn repairs_keep_traces()
    ensures { (P : Program) → (plan : Plan) → (skip : Site → Bool) → IsSound P → KeepsTraces P plan skip }
{}

/// The line of a report reads back as that report: two well-formed reports of a sound program that have the same line
/// are the same report, if their numbers are below 2^64.
pub fn lines_tell_reports()
    ensures { (P : Program) → IsSound P → (r q : Report) → IsWellFormed P r → IsWellFormed P q → IsShort r →
        IsShort q → report_line P r ≡ report_line P q → r ≡ q }
{}
