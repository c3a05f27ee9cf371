//! Laws of the answers.

ghost use Rattle.hip_run_commands.specs.RunLaws.{RecordsAreOne, RunsAreOne};

use hip_program_files::files_give_one_answer;

/// If the files are known, `run` has one answer on them, apart from read faults.
pub fn runs_are_one()
    ensures { RunsAreOne }
{
    // Lemma: a file gives one program, or one refusal.
    files_give_one_answer();
}

/// If the files are known, `record` has one answer on them, apart from read faults.
pub fn records_are_one()
    ensures { RecordsAreOne }
{
    // Lemma: a file gives one program, or one refusal.
    files_give_one_answer();
}
