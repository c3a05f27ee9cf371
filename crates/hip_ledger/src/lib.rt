//! What is kept of a run for its reports and marks, step by step, and the laws that show that it gives what the run
//! finds.
#![tactic(auto)]

mod calls;
mod checks;
mod forget;
mod ledger;
mod marks;
mod pending;
mod region;
mod sought;

pub use calls::Calls;
pub use ledger::{Ledger, Moment};
pub use marks::{globals_of, is_recent, marks_of, meet_global};
pub use region::Region;
pub use sought::Sought;
