//! Laws of the answers.

ghost use Rattle.hip_tree.specs.declared.program.Program.{Program};
ghost use Rattle.hip_answers.specs.RunLaws.{AnswersRuns, FaultsHideNone, GivesOne};
ghost use Rattle.hip_runs.specs.Found.Marks.{IsFound};
ghost use Rattle.hip_runs.specs.Validity.{IsValid};
ghost use Rattle.hip_runs.specs.declared.input.Input.{Input};
ghost use Rattle.hip_runs.specs.declared.report.Findings.{Findings};
ghost use Rattle.hip_repair_commands.specs.Thin.{HasThinned, IsThinned};
ghost use Rattle.hip_sound.specs.Sound.{IsSound};

use hip_repair_answers::plans_cure;
use hip_vol::low_stores_stay_outside;

/// The program that is repaired for what a run found, and whose clones do not flush the low stores, does no harm, is
/// clean on the run's input, has its hoisted calls covered, is sound, and its canonical text reads as that program.
pub fn thins_cure()
    ensures { (P : Program) → (I : Input) → (found : Findings) → IsSound P → IsValid P I
        → IsFound P I found →
        IsThinned P I found }
{
    // Lemmas: what a plan cures, and that the low stores stay outside.
    plans_cure();
    low_stores_stay_outside();
}

/// If the files are known, two answers of `thin` on them are the same, unless one of them is a read fault. If the
/// trace's file is current after a read fault, and is not the program's, the bytes that were taken from it show no
/// misfit. If one file has a program and the other is the trace of a run of it, there is an answer by which `thin` is
/// carried out.
pub fn thins_are_one()
    ensures one { GivesOne HasThinned }
    ensures faults { FaultsHideNone HasThinned }
    ensures runs { AnswersRuns HasThinned }
{
    // Lemma: what the repair of `thin` cures.
    thins_cure();
}
