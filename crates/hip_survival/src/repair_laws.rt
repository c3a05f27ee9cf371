//! Laws of what survives a crash in the runs of repaired programs, on definitions alone.

ghost use Rattle.hip_tree.specs.declared.program.Program.{Program};
ghost use Rattle.hip_tree.specs.declared.site.Site.{Site};
ghost use Rattle.hip_repairs.specs.Choice.{Contains, plan_for};
ghost use Rattle.hip_repairs.specs.Clean.{IsClean};
ghost use Rattle.hip_repairs.specs.StayOutside.{StayOutside};
ghost use Rattle.hip_repairs.specs.Repaired.{repaired};
ghost use Rattle.hip_repairs.specs.declared.plan.Plan.{Plan};
ghost use Rattle.hip_repairs.specs.examples.OneStore.{one_store};
ghost use Rattle.hip_repairs.specs.examples.Words.{zeroed};
ghost use Rattle.hip_survival.specs.Kept.{ChecksSurvive, CoveredSurvive, LoosensNothing, WorsensNoCheck};
ghost use Rattle.hip_runs.specs.Crash.{IsCrashImage};
ghost use Rattle.hip_runs.specs.Found.Marks.{IsFound};
ghost use Rattle.hip_runs.specs.Step.{run};
ghost use Rattle.hip_runs.specs.Validity.{IsValid};
ghost use Rattle.hip_runs.specs.declared.input.Input.{Input};
ghost use Rattle.hip_runs.specs.declared.report.Findings.{Findings};
ghost use Rattle.hip_survival.specs.Survival.{working_byte};
ghost use Rattle.hip_sound.specs.Sound.{IsSound};
ghost use Rattle.std.specs.Prelude.{◌≢◌, ℕ, Bool, List, slice_index};

/// A repair makes no byte loose, whatever the plan is: at each step at least as much is flushed and durable in the
/// repaired program, and each byte that survives a crash in the program's run survives a crash in the repaired
/// program's run.
pub fn repairs_loosen_nothing()
    ensures { (P : Program) → (plan : Plan) → (skip : Site → Bool) → IsSound P → LoosensNothing P plan skip }
{}

/// A repair makes no check worse, whatever the plan is and on every input: each check of the repaired program is a
/// check of the program, and for each of its reports the program's check has a report of the same store. So a run that
/// has nothing to report still has nothing to report after the repair.
pub fn repairs_worsen_no_check()
    ensures checks { (P : Program) → (plan : Plan) → (skip : Site → Bool) → IsSound P
        → WorsensNoCheck P plan skip }
    ensures clean { (P : Program) → (plan : Plan) → (skip : Site → Bool) → IsSound P → (I : Input) →
        IsValid P I → IsClean P I → IsClean (repaired P plan skip) I }
{}

/// If a run has nothing to report, each byte that it checks survives a crash at the check, and after it has stopped
/// every crash image is equal to working memory.
pub fn clean_checks_survive()
    ensures { (P : Program) → IsSound P → (I : Input) → IsValid P I → IsClean P I → ChecksSurvive P I }
{}

/// In the program repaired by a plan that has what a run found, each byte that is checked on that run's input survives
/// a crash at its check, if the stores that the clones do not flush never write to the region.
pub fn checks_of_repaired_programs_survive()
    ensures { (P : Program) → (plan : Plan) → (skip : Site → Bool) → (I : Input) → (found : Findings) →
        IsSound P → IsValid P I → StayOutside P skip → IsFound P I found → Contains plan (plan_for P found) →
        ChecksSurvive (repaired P plan skip) I }
{}

/// On every input, each byte whose last store was made under a hoisted call survives a crash after the fence that
/// follows the call, if the stores that the clones do not flush never write to the region.
pub fn stores_under_hoisted_calls_survive()
    ensures { (P : Program) → (plan : Plan) → (skip : Site → Bool) → IsSound P → StayOutside P skip →
        CoveredSurvive P (repaired P plan skip) }
{}

/// A crash may lose a loose byte: after the store of the example `one_store`, which is neither flushed nor fenced, some
/// crash image does not have the byte that was stored.
pub fn a_loose_byte_may_be_lost()
    ensures { (content : List ℕ) × IsCrashImage (zeroed 1) (run one_store (zeroed 1) 1) content
        × (slice_index content 0 ≢ working_byte one_store (zeroed 1) (run one_store (zeroed 1) 1) 0) }
{}
