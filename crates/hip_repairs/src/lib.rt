//! The repaired program that a plan makes, and the theorems about it.
#![tactic(auto)]

mod examples;
mod laws;
mod plan;
mod plans;
mod repaired;

pub use examples::{
    assert_inside_callee_is_repaired, copy_is_hoisted, fence_without_flush_is_repaired,
    flush_without_fence_is_repaired, mutual_recursion_is_hoisted, one_store_is_repaired,
    overwritten_store_is_repaired, store_in_two_lines_is_repaired,
};
pub use laws::{
    direct_stores_stay_outside, hoisted_calls_are_covered, hoisted_calls_are_fenced,
    mending_plans_are_clean, repaired_is_sound, repairs_are_clean, repairs_do_no_harm,
};
pub use plan::{CloneOf, Plan};
pub use plans::{
    clones_are_numbered, inputs_stay_valid, nothing_is_changed_without_reports,
    plans_have_what_is_asked, plans_suit, plans_unite, sites_are_ordered,
};
pub use repaired::Repaired;
