//! A law of the answers.

ghost use Rattle.hip_demo.specs.Laws.{DemosAreOne};

use hip_run_traces::each_run_has_one_trace;
use hip_runs::findings_are_one;

/// A seed and a size have one answer of `demo`.
pub fn demos_are_one()
    ensures { DemosAreOne }
{
    // Lemmas: a run finds one thing, and has one trace.
    findings_are_one();
    each_run_has_one_trace();
}
