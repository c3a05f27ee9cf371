//! The code of a sound program: names, labels, callees, sizes and offsets become numbers.
#![tactic(auto)]

mod extents;
mod name_sets;
mod phi_numbers;
mod program;
mod resolver;
mod scopes;

pub use resolver::resolve;
