//! The repair for what a run found, whose clones do not flush the low stores.

ghost use Rattle.std.specs.Prelude.{IfOk};
ghost use Rattle.hip_run_repairs.specs.RunRepairs.{IsThinnedFor};

use crate::one_run::Repair;
use crate::spared::spared_count;
use hip_findings::SharedFindings;
use hip_plan::plan;
use hip_sound::Checked;
use hip_types::NoMemory;
use hip_vol::{ThinRepair, thin_repair};
use std::alloc::Global;

/// A repair, and how many stores its clones do not flush though they are not direct.
#[derive(Drop)]
pub struct Thinned {
    pub repair: Repair,
    pub spared: usize,
}

/// The plan for what a run found, the program repaired by it whose clones do not flush the low stores, and the number
/// of stores that are spared.
pub fn thin_for(
    alloc: Global,
    checked: &Checked,
    findings: &SharedFindings,
) -> Result<Thinned, NoMemory>
    ensures { IfOk result (λ thinned. IsThinnedFor checked.now findings.now thinned) }
{
    let plan = plan(alloc, checked, findings)?;
    let ThinRepair { repaired, low } = thin_repair(alloc, checked, &plan)?;
    let spared = spared_count(
        alloc,
        checked,
        &plan,
        low.as_slice(),
        repaired.clones.as_slice(),
    )?;
    Ok(Thinned {
        repair: Repair { plan, repaired },
        spared,
    })
}
