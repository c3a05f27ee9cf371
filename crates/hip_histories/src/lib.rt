//! Crash histories, several repairs one after another, and whole runs of repaired programs.
#![tactic(auto)]

mod laws;
mod refused;

pub use laws::{
    chains_of_repairs_add_up, histories_go_on, repairs_add_no_history, repairs_add_up,
    repairs_are_crash_safe, repairs_keep_checks, repairs_keep_lossless_histories,
    repairs_keep_whole_runs, repairs_take_the_same_steps, runs_end_in_one_way,
};
pub use refused::{
    a_clone_that_fences_early_does_not_cover, a_clone_that_leaves_out_a_store_does_not_cover,
    a_dropped_flush_adds_a_history, early_flushes_and_fences_are_not_clean,
};
