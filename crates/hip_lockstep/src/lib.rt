//! The trace of a run, step by step with the run: entries that are written as the steps are taken, and entries that are
//! read one by one and compared with those of the steps.
#![tactic(auto)]

mod ended;
mod entries;
mod given;
mod header;
mod header_input;
mod next;
mod refusal;
mod steps;

pub use ended::Ended;
pub use entries::{ending_of, put_entry};
pub use header::put_header;
pub use header_input::{Begun, read_header};
pub use refusal::ReplayRefusal;
pub use steps::Lockstep;
