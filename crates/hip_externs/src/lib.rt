//! The external functions that programs may declare: the one table of them.
#![tactic(auto)]

mod call;

pub use call::{CALLS, ExternCall, ExternRow, LineEffect, is_extern_name};
