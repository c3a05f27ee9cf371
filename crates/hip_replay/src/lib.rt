//! Runs and their traces: what a run prints, its trace as it is written, and a trace compared with its run entry by
//! entry.
#![tactic(auto)]

mod compared;
mod delivery;
mod print;
mod record;
mod refusal;
mod trace;

pub use compared::{Replayed, replay};
pub use hip_lockstep::ReplayRefusal;
pub use hip_report::Sought;
pub use hip_run_traces::MisfitKind;
pub use print::print_run;
pub use record::{Recorded, record_run};
pub use refusal::RecordRefusal;
pub use trace::write_trace;
