//! The repairs that the commands write: for what one run found, for what one run found with clones that do not flush
//! the low stores, and for the plans of many runs.
#![tactic(auto)]

mod many_runs;
mod one_run;
mod spared;
mod thin_run;

pub use many_runs::{ManyRepair, repair_for_all};
pub use one_run::{Repair, repair_for};
pub use spared::spared_count;
pub use thin_run::{Thinned, thin_for};
