//! The reader of programs: the one program that a text reads as, or the first token that leaves the grammar.
#![tactic(auto)]

mod blocks;
mod constants;
mod error;
mod instructions;
mod items;
mod numbers;
mod parser;
mod productions;
mod tokens;
mod types;
mod unsupported;
mod whole_text;
mod words;

pub use hip_grammar::ParseRefusal;
pub use whole_text::parse;
