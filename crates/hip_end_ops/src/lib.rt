//! The ops of the ends of blocks: the edges between blocks, and the moves of phis along them.
#![tactic(auto)]

mod edges;
mod ends;
mod phis;

pub use edges::EdgeSource;
pub use ends::end_op;
