//! What a command answers: its status, the line of each refusal, and what it writes in which case.
#![tactic(auto)]

mod delivery;
mod endings;
mod lines;
mod refusal;
mod status;
mod texts;

pub use delivery::{finish, refuse};
pub use endings::{put_ending, status_of_ending};
pub use refusal::TraceFileRefusal;
pub use status::{FileRole, Status};
pub use texts::put_number;
