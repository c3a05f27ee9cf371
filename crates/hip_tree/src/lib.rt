//! The tree of a program, and the sites in it.
#![tactic(auto)]

mod block;
mod constant;
mod instr;
mod program;
mod site;

pub use block::{Block, Case, Edge, End, Phi};
pub use constant::{Const, ConstGep, TypedConst};
pub use instr::{Arg, Flag, Flags, Instr, Operand};
pub use program::{Extern, Function, GlobalVar, Param, Program};
pub use site::{Site, instr_at};
