//! Laws of the answers.

ghost use Rattle.hip_repair_commands.specs.ManyLaws.{ManyAreAnswered, ManyAreOne, ManyFaultsHideNone};

use hip_many::unions_are_one;
use hip_repair_answers::plans_cure;
use hip_repairs::direct_stores_stay_outside;

/// If the files are known, `many` has one answer on them, apart from read faults.
pub fn many_are_one()
    ensures { ManyAreOne }
{
    // Lemma: plans have one union.
    unions_are_one();
}

/// If a file is current after a read fault, and is not the program's, the bytes that were taken from it show no misfit.
pub fn many_faults_hide_no_misfit()
    ensures { ManyFaultsHideNone }
{}

/// If one file has a program, the others are traces of its runs, and nothing fails, then `many` has an answer with the
/// status `Done`.
pub fn many_are_answered()
    ensures { ManyAreAnswered }
{
    // Lemmas: what a plan cures, and that the direct stores stay outside.
    plans_cure();
    direct_stores_stay_outside();
}
