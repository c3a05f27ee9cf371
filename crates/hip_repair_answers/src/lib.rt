//! What `check`, `repair` and `rerun` answer, and what their answers guarantee.
#![tactic(auto)]

mod laws;

pub use laws::{
    answers_are_one, faults_hide_no_misfit, nothing_to_repair, plans_cure, repairs_cure,
    reruns_are_traces, runs_are_answered, second_repair,
};
