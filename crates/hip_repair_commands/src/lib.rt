//! The commands that read traces and repair: `check`, `repair`, `rerun`, `thin` and `many`.
#![tactic(auto)]

mod check;
mod many;
mod many_laws;
mod many_runs;
mod numbered_refusal;
mod repair;
mod rerun;
mod thin;
mod thin_laws;

pub use check::check_file;
pub use many::many_file;
pub use many_laws::{many_are_answered, many_are_one, many_faults_hide_no_misfit};
pub use numbered_refusal::NumberedRefusal;
pub use repair::repair_file;
pub use rerun::rerun_file;
pub use thin::thin_file;
pub use thin_laws::{thins_are_one, thins_cure};
