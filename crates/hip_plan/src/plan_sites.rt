ghost use Rattle.std.specs.Prelude.{◌≡◌, [], IfOk};
ghost use Rattle.hip_plan.specs.Collected.{IsCollected};

use hip_repairs::Plan;
use hip_sites::SiteSet;
use hip_types::NoMemory;
use std::alloc::Global;

/// The sites of a plan, while they are collected.
pub struct PlanSites {
    pub flush_after: SiteSet,
    pub fence_after: SiteSet,
    pub hoist: SiteSet,
}

// Written by hand, so that the drop of the sets is proved here and not again in each crate that drops them.
impl Drop for PlanSites {
    fn drop(self) {
        let PlanSites {
            flush_after: _,
            fence_after: _,
            hoist: _,
        } = self;
    }
}

impl PlanSites {
    /// No sites. It takes no memory.
    pub fn new(alloc: Global) -> PlanSites
        ensures { result ≡ record { flush_after = []; fence_after = []; hoist = [] } }
    {
        PlanSites {
            flush_after: SiteSet::new(alloc),
            fence_after: SiteSet::new(alloc),
            hoist: SiteSet::new(alloc),
        }
    }

    /// The plan of these sites, each list in ascending order.
    pub fn to_plan(&self, alloc: Global) -> Result<Plan, NoMemory>
        ensures { IfOk result (IsCollected self.now) }
    {
        Ok(Plan {
            flush_after: self.flush_after.to_row(alloc)?,
            fence_after: self.fence_after.to_row(alloc)?,
            hoist: self.hoist.to_row(alloc)?,
        })
    }
}
