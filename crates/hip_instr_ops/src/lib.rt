//! The ops of instructions.
#![tactic(auto)]

mod calls;
mod externs;
mod gep;
mod instrs;
mod memory;
mod path;
mod values;

pub use instrs::instr_op;
