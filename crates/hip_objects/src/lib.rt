//! The objects of a run by their addresses: the globals of a program, and the blocks on the stack.
#![tactic(auto)]

mod blocks;
mod globals;

pub use blocks::{StackBlock, StackBlocks};
pub use globals::GlobalTable;
