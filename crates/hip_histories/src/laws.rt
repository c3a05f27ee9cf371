//! Laws of repaired programs over several runs with crashes between them and over several repairs, on definitions
//! alone.

ghost use Rattle.hip_histories.specs.Chains.{AreMadeInTurn, IsMendedFor, KeepsProgram, LastsOn, Repair, StaysCovered, TraceRepair, repaired_on};
ghost use Rattle.hip_histories.specs.CrashSafe.{IsCrashSafe};
ghost use Rattle.hip_histories.specs.Histories.{AddsNoHistory, IsRound, KeepsLosslessHistories, Round, input_of, state_of};
ghost use Rattle.hip_histories.specs.NoHarm.{DoesNoHarm};
ghost use Rattle.hip_histories.specs.SameSteps.{TakesSameSteps};
ghost use Rattle.hip_histories.specs.WholeRuns.{EndAlike, EndsInOneWay};
ghost use Rattle.hip_tree.specs.declared.program.Program.{Program};
ghost use Rattle.hip_tree.specs.declared.site.Site.{Site};
ghost use Rattle.hip_repairs.specs.Choice.{Contains, plan_for};
ghost use Rattle.hip_repairs.specs.Clean.{IsClean};
ghost use Rattle.hip_repairs.specs.StayOutside.{StayOutside};
ghost use Rattle.hip_survival.specs.Kept.{ChecksSurvive};
ghost use Rattle.hip_repairs.specs.Repaired.{repaired};
ghost use Rattle.hip_repairs.specs.declared.plan.Plan.{Plan};
ghost use Rattle.hip_runs.specs.Found.Marks.{IsFound};
ghost use Rattle.hip_runs.specs.Validity.{IsValid};
ghost use Rattle.hip_runs.specs.declared.input.Input.{Input};
ghost use Rattle.hip_runs.specs.declared.report.Findings.{Findings};
ghost use Rattle.hip_survival.specs.Survival.{working_region};
ghost use Rattle.hip_sound.specs.Sound.{IsSound};
ghost use Rattle.std.specs.Prelude.{ℕ, Bool, List, ◌∷◌, ◌++◌};

/// Crash histories go on. After any number of steps on a valid input a crash may leave working memory. On the bytes
/// that the crash of a round leaves, its base, numbers and limit are a valid input for a next round.
pub fn histories_go_on()
    ensures round { (P : Program) → IsSound P → (bytes : List ℕ) → (r : Round) → IsValid P (input_of bytes r) →
        IsRound P bytes (record r { image = working_region P (input_of bytes r) (state_of P bytes r) }) }
    ensures next { (P : Program) → (bytes : List ℕ) → (r : Round) → IsRound P bytes r →
        IsValid P (input_of r.image r) }
{}

/// A repair adds no crash history, whatever the plan is: each crash history of the repaired program is also a crash
/// history of the program, with the same inputs, images, outputs and endings.
pub fn repairs_add_no_history()
    ensures { (P : Program) → (plan : Plan) → (skip : Site → Bool) → IsSound P →
        AddsNoHistory P (repaired P plan skip) }
{}

/// A repair keeps each crash history in which no crash loses anything, whatever the plan is: if each crash leaves the
/// bytes of working memory, the history is also a crash history of the repaired program, with the same inputs, images,
/// outputs and endings.
pub fn repairs_keep_lossless_histories()
    ensures { (P : Program) → (plan : Plan) → (skip : Site → Bool) → IsSound P →
        KeepsLosslessHistories P (repaired P plan skip) }
{}

/// Repairs add up, whatever the plans are. A program that is repaired twice has nothing to report on the input of each
/// run that either repair was made for, and on each input on which it had nothing to report after the first repair. It
/// does no harm in the place of the program, adds no crash history, and keeps the calls covered that the first repair
/// hoisted.
pub fn repairs_add_up()
    ensures clean { (P : Program) → (first second : Plan) → (skip also : Site → Bool) → IsSound P → (I : Input) →
        IsValid P I → IsClean (repaired P first skip) I → IsClean (repaired (repaired P first skip) second also) I }
    ensures earlier { (P : Program) → (first second : Plan) → (skip also : Site → Bool) → IsSound P → (I : Input) →
        (found : Findings) → IsValid P I → StayOutside P skip → IsFound P I found → Contains first (plan_for P found) →
        IsClean (repaired (repaired P first skip) second also) I }
    ensures later { (P : Program) → (first second : Plan) → (skip also : Site → Bool) → IsSound P → (I : Input) →
        (found : Findings) → IsValid P I → StayOutside (repaired P first skip) also →
        IsFound (repaired P first skip) I found → Contains second (plan_for (repaired P first skip) found) →
        IsClean (repaired (repaired P first skip) second also) I }
    ensures harm { (P : Program) → (first second : Plan) → (skip also : Site → Bool) → IsSound P →
        DoesNoHarm P (repaired (repaired P first skip) second also) }
    ensures covered { (P : Program) → (first second : Plan) → (skip also : Site → Bool) → IsSound P → StayOutside P skip →
        StaysCovered P (repaired P first skip) (repaired (repaired P first skip) second also) }
    ensures histories { (P : Program) → (first second : Plan) → (skip also : Site → Bool) → IsSound P →
        AddsNoHistory P (repaired (repaired P first skip) second also) }
{}

/// The same holds for any number of repairs one after another, whatever the plans are: what a single repair keeps, all
/// of them keep. If each repair is made for a run of the program after the repairs before it, the program after all
/// repairs is clean on the input of every trace so far, and the calls that any of the repairs hoisted are covered. A
/// repair by a plan for what was found after some repairs mends what was found, and all later repairs keep it mended.
pub fn chains_of_repairs_add_up()
    ensures keep { (P : Program) → (repairs : List Repair) → IsSound P → KeepsProgram P (repaired_on P repairs) }
    ensures traces { (P : Program) → (repairs : List TraceRepair) → IsSound P → AreMadeInTurn P repairs →
        IsMendedFor P repairs }
    ensures mended { (P : Program) → (before : List Repair) → (repair : Repair) → (after : List Repair) → IsSound P →
        (I : Input) → (found : Findings) → IsValid P I → StayOutside (repaired_on P before) repair.skip →
        IsFound (repaired_on P before) I found →
        Contains repair.plan (plan_for (repaired_on P before) found) →
        IsClean (repaired_on P (before ++ repair ∷ after)) I }
{}

/// What a clean run checks survives a crash at the check, also after any number of repairs, whatever their plans are.
pub fn repairs_keep_checks()
    ensures { (P : Program) → IsSound P → (repairs : List Repair) → (I : Input) → IsValid P I → IsClean P I →
        ChecksSurvive (repaired_on P repairs) I }
{}

/// What a repair guarantees over crashes and over later repairs, if its plan has what a run found and the stores that
/// the clones do not flush never write to the region.
pub fn repairs_are_crash_safe()
    ensures lasts { (P : Program) → (I : Input) → (plan : Plan) → (skip : Site → Bool) → (found : Findings) →
        IsSound P → IsValid P I → StayOutside P skip → IsFound P I found → Contains plan (plan_for P found) →
        LastsOn P (repaired P plan skip) I }
    ensures safe { (P : Program) → (I : Input) → (plan : Plan) → (skip : Site → Bool) → (found : Findings) →
        IsSound P → IsValid P I → StayOutside P skip → IsFound P I found → Contains plan (plan_for P found) →
        IsCrashSafe P I plan skip }
{}

/// Every run ends, with one ending, one output and one working memory.
pub fn runs_end_in_one_way()
    ensures { (P : Program) → (I : Input) → EndsInOneWay P I }
{}

/// A repair keeps whole runs, whatever the plan is: on each valid input the run of the repaired program ends exactly
/// where the run of the program ends, with the same ending, output and working memory.
pub fn repairs_keep_whole_runs()
    ensures { (P : Program) → (plan : Plan) → (skip : Site → Bool) → IsSound P → (I : Input) → IsValid P I →
        EndAlike P (repaired P plan skip) I }
{}

/// A repaired program takes the steps of the program, whatever the plan is. A step that corresponds to a step of the
/// program takes the same instruction, but for the name of a callee, or the same end of a block. Any other step is a
/// flush of the operand of the store that came directly before it, or a fence.
pub fn repairs_take_the_same_steps()
    ensures { (P : Program) → (plan : Plan) → (skip : Site → Bool) → IsSound P → TakesSameSteps P plan skip }
{}
