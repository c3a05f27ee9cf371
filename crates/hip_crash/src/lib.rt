//! Crash images: the contents that a crash may leave in the persistent region, picked line by line, and found again.
#![tactic(auto)]

mod changes;
mod effects;
mod entry_counts;
mod kept_line;
mod kept_lines;
mod laws;
mod log;
mod pending_change;
mod region_log;
mod values;
mod views;

pub use hip_types::{Bounds, Pick, PickRefusal};
pub use laws::fitting_picks_give_images;
pub use log::CrashLog;
