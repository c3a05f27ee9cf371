//! What survives a crash, in runs of a program and of a repaired program, as definitions with their laws.
#![tactic(auto)]

mod laws;
mod repair_laws;

pub use laws::{
    a_clean_stop_leaves_one_image, checked_bytes_survive_or_are_reported, checks_tell_loose_bytes,
    crashes_come_at_entries, durable_bytes_survive, durable_stores_are_in_each_image,
    lines_tell_loose_bytes, reports_are_of_bytes_that_may_be_lost, what_is_checked_survives,
    what_is_not_durable_may_be_lost, working_memory_is_a_crash_image,
};
pub use repair_laws::{
    a_loose_byte_may_be_lost, checks_of_repaired_programs_survive, clean_checks_survive,
    repairs_loosen_nothing, repairs_worsen_no_check, stores_under_hoisted_calls_survive,
};
