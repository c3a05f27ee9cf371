//! Sites of a program: sets of them, and those of the instructions that pass a test.
#![tactic(auto)]

mod site_set;
mod site_walk;

pub use site_set::SiteSet;
pub use site_walk::{InstrTest, add_passing};
