//! The canonical text of programs.
#![tactic(auto)]

mod blocks;
mod constants;
mod instructions;
mod lists;
mod program;
mod text;
mod types;
mod words;

pub use program::write;
