//! Programs in files, as definitions: which program a file has, why it has none, and what the files did meanwhile.
#![tactic(auto)]

mod failure;
mod laws;
mod limits;
mod refusal;

pub use failure::Failure;
pub use laws::files_give_one_answer;
pub use limits::TEXT_LIMIT;
pub use refusal::{LoadRefusal, ProgramRefusal};
