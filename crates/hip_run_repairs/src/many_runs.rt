//! The repair for the plans of many runs.

ghost use Rattle.std.specs.Prelude.{IfOk};
ghost use Rattle.hip_run_repairs.specs.RunRepairs.{IsRepairForAll};

use crate::one_run::Repair;
use hip_fix::apply;
use hip_many::{Reason, plan_many, reasons};
use hip_repairs::Plan;
use hip_sound::Checked;
use hip_types::{NoMemory, Row};
use std::alloc::Global;

/// The repair by the union of plans, and the reasons for the sites of the union.
#[derive(Drop)]
pub struct ManyRepair {
    pub repair: Repair,
    pub reasons: Row<Reason>,
}

/// The program repaired by the union of plans.
pub fn repair_for_all(
    alloc: Global,
    checked: &Checked,
    plans: &[Plan],
) -> Result<ManyRepair, NoMemory>
    ensures { IfOk result (λ made. IsRepairForAll checked.now plans.now made) }
{
    let plan = plan_many(alloc, plans)?;
    let reasons = reasons(alloc, plans, &plan)?;
    let repaired = apply(alloc, checked, &plan)?;
    Ok(ManyRepair {
        repair: Repair { plan, repaired },
        reasons,
    })
}
