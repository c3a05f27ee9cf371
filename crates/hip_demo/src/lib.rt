//! `demo`: a generated program that is recorded, replayed, repaired and run again.
#![tactic(auto)]

mod command;
mod generated;
mod kept;
mod laws;
mod lines;
mod replayed;
mod shown;

pub use command::demo;
pub use laws::demos_are_one;
