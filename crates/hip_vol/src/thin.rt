ghost use Rattle.std.specs.Prelude.{◌≡◌, IfOk};
ghost use Rattle.std.specs.List.{filter};
ghost use Rattle.hip_tree.specs.Sites.{sites_of};
ghost use Rattle.hip_fix.specs.Applied.{IsApplied, IsThorough};
ghost use Rattle.hip_vol.specs.LowStores.{low_stores};

use crate::low_stores::quiet_stores;
use hip_fix::apply_skipping;
use hip_repairs::{Plan, Repaired};
use hip_sound::Checked;
use hip_tree::Site;
use hip_types::{NoMemory, Row};
use std::alloc::Global;

/// A repair whose clones do not flush the low stores, and the sites of these stores in the program's order.
#[derive(Drop)]
pub struct ThinRepair {
    pub repaired: Repaired,
    pub low: Row<Site>,
}

/// The program repaired by a plan, with the low stores: those whose address has another level than Free. They never lie
/// in the region, and the clones do not flush them. The repair does no harm, it is clean, and its hoisted calls are
/// covered.
///
/// Time and memory are those of `quiet_stores`, and linear in the program, the plan and the clones together.
pub fn thin_repair(alloc: Global, checked: &Checked, plan: &Plan) -> Result<ThinRepair, NoMemory>
    ensures repaired { IfOk result (λ r. IsApplied checked.now plan.now (low_stores checked.now) r.repaired) }
    ensures thorough { IfOk result (λ r. IsThorough checked.now plan.now r.repaired.checked) }
    ensures low { IfOk result (λ r. r.low ≡ filter (low_stores checked.now) (sites_of checked.now)) }
{
    let low = quiet_stores(alloc, checked)?;
    let repaired = apply_skipping(alloc, checked, plan, low.as_slice())?;
    Ok(ThinRepair { repaired, low })
}

/// The program of `thin_repair`.
pub fn apply_quiet(alloc: Global, checked: &Checked, plan: &Plan) -> Result<Repaired, NoMemory>
    ensures repaired { IfOk result (IsApplied checked.now plan.now (low_stores checked.now)) }
    ensures thorough { IfOk result (λ r. IsThorough checked.now plan.now r.checked) }
{
    Ok(thin_repair(alloc, checked, plan)?.repaired)
}
