//! The theorems about repairs, on definitions alone.

ghost use Rattle.hip_tree.specs.declared.program.Program.{Program};
ghost use Rattle.hip_tree.specs.declared.site.Site.{Site};
ghost use Rattle.hip_globals.specs.Addresses.{address, region_size};
ghost use Rattle.hip_sound.specs.Sound.{IsSound};
ghost use Rattle.hip_runs.specs.Found.Marks.{IsFound};
ghost use Rattle.hip_runs.specs.Validity.{IsValid};
ghost use Rattle.hip_runs.specs.declared.input.Input.{Input};
ghost use Rattle.hip_runs.specs.declared.report.Findings.{Findings};
ghost use Rattle.hip_repairs.specs.Choice.{Contains, plan_for};
ghost use Rattle.hip_repairs.specs.Clean.{IsClean};
ghost use Rattle.hip_repairs.specs.Covered.{AreHoistsFenced, IsCovered};
ghost use Rattle.hip_repairs.specs.Direct.{direct};
ghost use Rattle.hip_repairs.specs.Harmless.{IsHarmless};
ghost use Rattle.hip_repairs.specs.Mending.{MendsAll};
ghost use Rattle.hip_repairs.specs.StayOutside.{StayOutside};
ghost use Rattle.hip_repairs.specs.Repaired.{repaired};
ghost use Rattle.hip_repairs.specs.declared.plan.Plan.{Plan};
ghost use Rattle.std.specs.Prelude.{Bool, ℕ, ◌≡◌};

/// A repair does no harm, whatever the plan is, and whichever stores the clones do not flush.
pub fn repairs_do_no_harm()
    ensures { (P : Program) → (plan : Plan) → (skip : Site → Bool) → IsSound P → IsHarmless P plan skip }
{}

/// A repair by a plan that has what a run found leaves nothing to report on that run's input, if the stores that the
/// clones do not flush never write to the region.
pub fn repairs_are_clean()
    ensures { (P : Program) → (plan : Plan) → (skip : Site → Bool) → (I : Input) → (found : Findings) →
        IsSound P → IsValid P I → StayOutside P skip → IsFound P I found → Contains plan (plan_for P found) →
        IsClean (repaired P plan skip) I }
{}

/// A repair by a plan that mends each report of a run leaves nothing to report on that run's input. A plan may mend a
/// report at any level: by a fence after the flush that the report names, by a flush after its store, or by hoisting any
/// call of its path that had returned. A plan that has what the run found mends each of its reports.
pub fn mending_plans_are_clean()
    ensures clean { (P : Program) → (plan : Plan) → (skip : Site → Bool) → (I : Input) → (found : Findings) →
        IsSound P → IsValid P I → StayOutside P skip → IsFound P I found → MendsAll plan found →
        IsClean (repaired P plan skip) I }
    ensures contained { (P : Program) → (I : Input) → (plan : Plan) → (found : Findings) → IsFound P I found →
        Contains plan (plan_for P found) → MendsAll plan found }
{}

/// The repaired program is sound again, whatever the plan is. The region's size and all addresses stay the same.
pub fn repaired_is_sound()
    ensures sound { (P : Program) → (plan : Plan) → (skip : Site → Bool) → IsSound P
        → IsSound (repaired P plan skip) }
    ensures same_region { (P : Program) → (plan : Plan) → (skip : Site → Bool) →
        region_size (repaired P plan skip) ≡ region_size P }
    ensures same_addresses { (P : Program) → (plan : Plan) → (skip : Site → Bool) → (base : ℕ)
        → (number : ℕ) →
        address (repaired P plan skip) base number ≡ address P base number }
{}

/// A call of a clone goes to a clone of the function that the program calls there. After the fence that follows the
/// call, everything that was stored under the call is durable, if the stores that the clones do not flush never write
/// to the region.
pub fn hoisted_calls_are_covered()
    ensures { (P : Program) → (plan : Plan) → (skip : Site → Bool) → IsSound P → StayOutside P skip →
        IsCovered P (repaired P plan skip) }
{}

/// A hoisted call has become a call of a clone of its callee with a fence directly after it.
pub fn hoisted_calls_are_fenced()
    ensures { (P : Program) → (plan : Plan) → (skip : Site → Bool) → IsSound P → AreHoistsFenced P plan skip }
{}

/// The stores whose address is a register assigned by `alloca`, or the name of a volatile global, never write to the
/// region.
pub fn direct_stores_stay_outside()
    ensures { (P : Program) → IsSound P → StayOutside P (direct P) }
{}
