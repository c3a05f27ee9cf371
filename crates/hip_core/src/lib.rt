//! The state of a machine on resolved code, and its step: it performs the action of the op at its place.
#![tactic(auto)]

mod act;
mod branches;
mod calls;
mod core_parts;
mod memory_steps;
mod moves;
mod persistence;
mod pointers;
mod values;

pub use act::step_core;
pub use branches::edge_at;
pub use calls::lengthen;
pub use core_parts::{Activation, Core};
pub use pointers::{pointer_here, pointers_here};
