//! Laws of repairs for those who use them: where a repaired program differs from the program, that it does nothing
//! undefined that the program does not do, what the author of a storage engine may rely on, that the lines of reports
//! tell the reports, what a repair costs, and what it keeps where some flushes are ordered.
#![tactic(auto)]

mod costs;
mod laws;
mod ordered_flushes;

pub use costs::{repairs_add_few_steps, repairs_stay_small, small_programs_are_repaired_twice};
pub use laws::{
    lines_tell_reports, plans_name_what_is_reported, repairs_add_nothing_undefined,
    repairs_are_local, repairs_keep_engine_promises, repairs_keep_traces,
};
pub use ordered_flushes::{repairs_add_nothing_ordered, weak_images_are_all};
