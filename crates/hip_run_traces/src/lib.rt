//! The trace of a run, the header that gives a run's input, and where a file differs from the trace of a run.
#![tactic(auto)]

mod laws;
mod misfit;

pub use laws::{
    each_run_has_one_trace, first_bytes_decide_misfits, first_steps_decide_misfits,
    fronts_of_traces_show_no_misfit, fronts_that_agree_show_no_misfit, headers_give_valid_inputs,
    headers_read_back, misfits_are_decided, misfits_are_one, trace_entries_are_spelled,
    traces_follow_the_run, written_traces_are_read_back,
};
pub use misfit::MisfitKind;
