//! What runs find: a tracker that notes each step of a machine, and gives the reports and marks of the run.
#![tactic(auto)]

mod calls;
mod plain_steps;
mod sight;
mod single_steps;
mod step;
mod tracker;

pub use hip_findings::{SharedFindings, SharedReport, SharedReports};
pub use hip_ledger::Sought;
pub use hip_runs::{Kind, Mark, Marks};
pub use tracker::Tracker;
