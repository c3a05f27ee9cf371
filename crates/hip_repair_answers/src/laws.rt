//! Laws of the answers.

ghost use Rattle.std.specs.Prelude.{Bool};
ghost use Rattle.hip_tree.specs.declared.program.Program.{Program};
ghost use Rattle.hip_tree.specs.declared.site.Site.{Site};
ghost use Rattle.hip_repair_answers.specs.Answers.{HasChecked, HasRepaired, HasRerun};
ghost use Rattle.hip_repair_answers.specs.Cured.{IsCured, IsCuredBy};
ghost use Rattle.hip_repair_answers.specs.Laws.{NothingToRepair, RerunsAreTraces, SecondRepair};
ghost use Rattle.hip_answers.specs.RunLaws.{AnswersRuns, FaultsHideNone, GivesOne};
ghost use Rattle.hip_repairs.specs.Choice.{Contains, plan_for};
ghost use Rattle.hip_repairs.specs.StayOutside.{StayOutside};
ghost use Rattle.hip_repairs.specs.declared.plan.Plan.{Plan};
ghost use Rattle.hip_runs.specs.Found.Marks.{IsFound};
ghost use Rattle.hip_runs.specs.Validity.{IsValid};
ghost use Rattle.hip_runs.specs.declared.input.Input.{Input};
ghost use Rattle.hip_runs.specs.declared.report.Findings.{Findings};
ghost use Rattle.hip_sound.specs.Sound.{IsSound};

/// The program that is repaired for what a run found does no harm, is clean on the run's input, has its hoisted calls
/// covered, is sound, and its canonical text reads as that program.
pub fn repairs_cure()
    ensures { (P : Program) → (I : Input) → (found : Findings) → IsSound P → IsValid P I
        → IsFound P I found →
        IsCured P I found }
{}

/// The same for a repair by any plan that has what the run found, if the stores that the clones do not flush never lie
/// in the region.
pub fn plans_cure()
    ensures { (P : Program) → (I : Input) → (plan : Plan) → (skip : Site → Bool) → (found : Findings)
        → IsSound P →
        IsValid P I → StayOutside P skip → IsFound P I found → Contains plan (plan_for P found) →
        IsCuredBy P I plan skip }
{}

/// If the files are known, two answers on them are the same, unless one of them is a read fault.
pub fn answers_are_one()
    ensures check { GivesOne HasChecked }
    ensures repair { GivesOne HasRepaired }
    ensures rerun { GivesOne HasRerun }
{}

/// If the trace's file is current after a read fault, and is not the program's, the bytes that were taken from it show
/// no misfit.
pub fn faults_hide_no_misfit()
    ensures check { FaultsHideNone HasChecked }
    ensures repair { FaultsHideNone HasRepaired }
    ensures rerun { FaultsHideNone HasRerun }
{}

/// If one file has a program and the other is the trace of a run of it, each command has an answer by which it is
/// carried out.
pub fn runs_are_answered()
    ensures check { AnswersRuns HasChecked }
    ensures repair { AnswersRuns HasRepaired }
    ensures rerun { AnswersRuns HasRerun }
{}

/// If the run reports nothing, `repair` gives the program's canonical text and five zeros.
pub fn nothing_to_repair()
    ensures { NothingToRepair }
{}

/// The text of the repaired program's trace is the trace of its run on the same input: it has no misfit.
pub fn reruns_are_traces()
    ensures { RerunsAreTraces }
{}

/// A second repair, of the repaired text for the trace of the repaired program's run, gives the same text and five
/// zeros.
pub fn second_repair()
    ensures { SecondRepair }
{}
