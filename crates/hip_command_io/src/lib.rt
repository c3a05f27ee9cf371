//! What commands read and answer: programs in files, traces in files, the trace of a run as an answer, and the end of a
//! call, which writes what a command says of what it did.
#![tactic(auto)]

mod counts;
mod many_lines;
mod program;
mod run;
mod trace;
mod written;

pub use counts::{Counts, ManyCounts, conclude};
pub use hip_replay::{Replayed, Sought};
pub use program::{load_program, read_program};
pub use run::{LoadedRun, load_run};
pub use trace::load_trace;
pub use written::{put_trace, status_of_recording};
