ghost use Rattle.std.specs.Prelude.{Bool, IfOk, OnOk};
ghost use Rattle.hip_tree.specs.declared.program.Program.{Program};
ghost use Rattle.hip_tree.specs.declared.site.Site.{Site};
ghost use Rattle.hip_sound.specs.Sound.{IsSound};
ghost use Rattle.hip_runs.specs.Found.Marks.{IsFound};
ghost use Rattle.hip_runs.specs.StoredParts.Parts.{In};
ghost use Rattle.hip_runs.specs.Validity.{IsValid};
ghost use Rattle.hip_runs.specs.declared.input.Input.{Input};
ghost use Rattle.hip_runs.specs.declared.report.Findings.{Findings};
ghost use Rattle.hip_repairs.specs.Choice.{Contains, plan_for};
ghost use Rattle.hip_repairs.specs.Clean.{IsClean};
ghost use Rattle.hip_repairs.specs.StayOutside.{StayOutside};
ghost use Rattle.hip_repairs.specs.Repaired.{repaired};
ghost use Rattle.hip_repairs.specs.Suits.{IsSuiting};
ghost use Rattle.hip_repairs.specs.declared.plan.Plan.{Plan};
ghost use Rattle.hip_many.specs.Union.{HasPutPlan, IsUnion};

use hip_plan::PlanSites;
use hip_repairs::{Plan, repairs_are_clean};
use hip_types::NoMemory;
use std::alloc::Global;

/// Inserts the sites of a plan.
fn add_plan(sites: &mut PlanSites, plan: &Plan) -> Result<(), NoMemory>
    ensures { OnOk result (HasPutPlan plan.now sites.old sites.new) }
{
    sites.flush_after.insert_all(plan.flush_after.as_slice())?;
    sites.fence_after.insert_all(plan.fence_after.as_slice())?;
    sites.hoist.insert_all(plan.hoist.as_slice())?;
    Ok(())
}

/// The union of plans, list by list; that of no plans is the empty plan. It contains each of them, it suits each
/// program that all of them suit, and a program that is repaired by it is clean on the input of each run whose plan is
/// among them.
///
/// Time is linear in the plans, except that sites are sorted; memory is linear in the union.
pub fn plan_many(alloc: Global, plans: &[Plan]) -> Result<Plan, NoMemory>
    ensures union { IfOk result (IsUnion plans.now) }
    ensures contains { IfOk result (λ plan. (part : Plan) → In part plans.now → Contains plan part) }
    ensures suits { IfOk result (λ plan. (P : Program)
        → ((part : Plan) → In part plans.now → IsSuiting P part) →
        IsSuiting P plan) }
    ensures clean { IfOk result (λ plan. (P : Program) → (skip : Site → Bool) → (I : Input)
        → (found : Findings) →
        IsSound P → IsValid P I → StayOutside P skip → IsFound P I found → In (plan_for P found) plans.now →
        IsClean (repaired P plan skip) I) }
{
    repairs_are_clean();
    let mut sites = PlanSites::new(alloc);
    'each: for plan in plans {
        add_plan(&mut sites, plan)?;
    }
    sites.to_plan(alloc)
}
