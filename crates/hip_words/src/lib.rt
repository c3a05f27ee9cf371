//! The words of a command, read with clap.
#![tactic(auto)]

mod commands;
mod laws;
mod limits;
mod matches;
mod order;
mod pick;
mod readers;
mod refusal;
mod words;

pub use hip_types::Pick;
pub use laws::{
    crashes_are_plain, demos_are_plain, demos_are_valid, files_are_plain, many_are_plain,
    records_are_plain, records_are_valid, runs_are_plain, runs_are_valid,
};
pub use limits::MOST_TRACES;
pub use order::Order;
pub use refusal::WordsRefusal;
pub use words::read_words;
