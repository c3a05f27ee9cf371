//! Laws of the answers.

ghost use Rattle.hip_tool.specs.Agreement.{CommandsAgree};
ghost use Rattle.hip_tool.specs.Laws.{AnswersAreOne};

use hip_demo::demos_are_one;
use hip_many::unions_are_one;
use hip_repair_answers::answers_are_one as repairs_are_one;
use hip_repair_commands::{many_are_one, thins_are_one};
use hip_run_commands::{crashes_are_one, records_are_one, runs_are_one};
use hip_run_traces::each_run_has_one_trace;

/// If the files are known, two answers to the same words are the same, unless one of them is a read fault.
pub fn answers_are_one()
    ensures { AnswersAreOne }
{
    // Lemmas: the answers of each command are one.
    runs_are_one();
    records_are_one();
    repairs_are_one();
    thins_are_one();
    crashes_are_one();
    many_are_one();
    demos_are_one();
}

/// Commands agree about the same runs. `many` with one trace writes the program that `repair` writes for it, and the
/// order and the repetition of its traces do not matter. `rerun` writes the trace that `record` writes of the repaired
/// program's run on the same input.
pub fn commands_agree()
    ensures { CommandsAgree }
{
    // Lemmas: plans have one union, and a run has one trace.
    unions_are_one();
    each_run_has_one_trace();
}
