//! Laws of the answers.

ghost use Rattle.hip_run_commands.specs.CrashLaws.{CrashFaultsHideNone, CrashRunsEveryImage, CrashesAreAnswered, CrashesAreOne, PicksGiveEveryImage};

use hip_crash::fitting_picks_give_images;
use hip_survival::crashes_come_at_entries;

/// If the files are known, `crash` has one answer on them, apart from read faults.
pub fn crashes_are_one()
    ensures { CrashesAreOne }
{}

/// If the trace's file is current after a read fault, and is not the program's, the bytes that were taken from it show
/// no misfit.
pub fn crash_faults_hide_no_misfit()
    ensures { CrashFaultsHideNone }
{}

/// If one file has a program and the other is the trace of a run of it, `crash` has an answer.
pub fn crashes_are_answered()
    ensures { CrashesAreAnswered }
{
    // Lemma: picks that fit give an image.
    fitting_picks_give_images();
}

/// `crash` misses nothing: what a crash may leave in any state of a run, some picks give at an entry of its trace, and
/// then `crash` runs the program from it.
pub fn crash_misses_nothing()
    ensures picks { PicksGiveEveryImage }
    ensures runs { CrashRunsEveryImage }
{
    // Lemma: what a crash may leave in a state, it may leave at an entry.
    crashes_come_at_entries();
}
