//! `Machine`: a runner and the cache lines of its region. A runner and a machine begin with a sound program and a valid
//! input; the program is resolved first. What only prints or records a run uses the runner alone.
#![tactic(auto)]

mod begin;
mod line_effects;
mod machine;
mod validity;

pub use begin::Begin;
pub use hip_runner::Runner;
pub use hip_runs::{Ending, Event, Input, InputFault, Object, TrapKind};
pub use machine::Machine;
pub use validity::why_not;
