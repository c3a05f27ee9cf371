//! One plan for many runs of a program, and whether a plan mends what a further run found.
#![tactic(auto)]

mod counts;
mod laws;
mod mending;
mod reason;
mod union;

pub use laws::unions_are_one;
pub use mending::mends_all;
pub use reason::{Reason, Sort, reasons};
pub use union::plan_many;
