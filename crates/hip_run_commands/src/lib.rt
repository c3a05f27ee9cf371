//! The commands that run a program: `run`, `record`, and `crash`, which runs it from a crash image.
#![tactic(auto)]

mod crash;
mod crash_laws;
mod image_refusal;
mod picked_image;
mod record;
mod run;
mod run_laws;
mod steps_to_entry;

pub use crash::{CrashPoint, crash_file};
pub use crash_laws::{
    crash_faults_hide_no_misfit, crash_misses_nothing, crashes_are_answered, crashes_are_one,
};
pub use image_refusal::ImageRefusal;
pub use record::{RunStart, record_file};
pub use run::run_file;
pub use run_laws::{records_are_one, runs_are_one};
