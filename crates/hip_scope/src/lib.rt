//! What the instructions of a function name while it is resolved: slots, places and numbers, and the tables that grow.
#![tactic(auto)]

mod scope;
mod tables;

pub use scope::{EdgeNumbers, Known, Scope, operand, slot};
pub use tables::{Growing, number_at, place};
