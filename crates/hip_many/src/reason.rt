ghost use Rattle.std.specs.Prelude.{◌≡◌, ◌++◌, IfOk, OnOk};
ghost use Rattle.hip_many.specs.Reasons as spec;
ghost use Rattle.hip_many.specs.Reasons.{reasons_in};

use crate::counts::{count_of, counts_of};
use hip_repairs::Plan;
use hip_tree::Site;
use hip_types::{NoMemory, Row};
use std::alloc::Global;

/// What a plan does at a site.
#[derive(Clone, Copy, PartialEq, Eq)]
pub enum Sort {
    /// A flush is put after it.
    Flush,
    /// A fence is put after it.
    Fence,
    /// The call goes to a clone.
    Hoist,
}

impl Sort {
    ghost use Rattle.hip_many.specs.Reasons.{sites_in};

    /// The sites at which a plan flushes, fences or hoists.
    pub fn sites(self, plan: &Plan) -> &[Site]
        ensures { result.now ≡ sites_in self plan.now }
    {
        match self {
            Sort::Flush => plan.flush_after.as_slice(),
            Sort::Fence => plan.fence_after.as_slice(),
            Sort::Hoist => plan.hoist.as_slice(),
        }
    }
}

/// Why the union of plans has a site.
#[derive(Clone, Copy, PartialEq, Eq)]
pub struct Reason {
    pub sort: Sort,
    pub site: Site,
    /// How many of the plans have the site in that list.
    pub traces: u64,
}

fn add_reasons(
    alloc: Global,
    rows: &mut Row<Reason>,
    sort: Sort,
    plans: &[Plan],
    plan: &Plan,
) -> Result<(), NoMemory>
    ensures { OnOk result (rows.new ≡ rows.old ++ reasons_in sort plans.now plan.now) }
{
    let counts = counts_of(alloc, sort, plans)?;
    'each: for site in sort.sites(plan) {
        rows.push(Reason {
            sort,
            site: *site,
            traces: count_of(&counts, *site).plans,
        })?;
    }
    Ok(())
}

/// A reason for each site of a plan that is the union of others: for those of `flush_after`, then of `fence_after`,
/// then of `hoist`. The plan may be any other one too.
///
/// Memory is linear in the plans, and so is the time, except that sites are sorted.
pub fn reasons(alloc: Global, plans: &[Plan], plan: &Plan) -> Result<Row<Reason>, NoMemory>
    ensures { IfOk result (λ rows. rows ≡ spec.reasons plans.now plan.now) }
{
    let mut rows = Row::new(alloc);
    add_reasons(alloc, &mut rows, Sort::Flush, plans, plan)?;
    add_reasons(alloc, &mut rows, Sort::Fence, plans, plan)?;
    add_reasons(alloc, &mut rows, Sort::Hoist, plans, plan)?;
    Ok(rows)
}
