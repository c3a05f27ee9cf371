//! The commands of hippo.
#![tactic(auto)]

mod answered;
mod call;
mod call_end;
mod laws;

pub use answered::{crashes_are_exhaustive, headline, orders_are_answered};
pub use call::hippo;
pub use hip_answers::{FileRole, Status};
pub use hip_program_files::ProgramRefusal;
pub use hip_run_traces::MisfitKind;
pub use hip_runs::TrapKind;
pub use hip_words::{Order, WordsRefusal, read_words};
pub use laws::{answers_are_one, commands_agree};
