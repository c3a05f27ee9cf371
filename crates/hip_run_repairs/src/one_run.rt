//! The repair for what a run found.

ghost use Rattle.std.specs.Prelude.{IfOk};
ghost use Rattle.hip_run_repairs.specs.RunRepairs.{IsRepairFor};

use hip_findings::SharedFindings;
use hip_fix::apply;
use hip_plan::plan;
use hip_repairs::{Plan, Repaired};
use hip_sound::Checked;
use hip_types::NoMemory;
use std::alloc::Global;

/// A plan, and the program that is repaired by it.
#[derive(Drop)]
pub struct Repair {
    pub plan: Plan,
    pub repaired: Repaired,
}

/// The plan for what a run found, and the program repaired by it.
pub fn repair_for(
    alloc: Global,
    checked: &Checked,
    findings: &SharedFindings,
) -> Result<Repair, NoMemory>
    ensures { IfOk result (λ repair. IsRepairFor checked.now findings.now repair) }
{
    let plan = plan(alloc, checked, findings)?;
    let repaired = apply(alloc, checked, &plan)?;
    Ok(Repair { plan, repaired })
}
