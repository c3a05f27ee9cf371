//! Texts that tests of several crates use: programs, each in its canonical form, their traces, and messages of tests.
#![tactic(auto)]

mod programs;
mod repaired;
mod stores;

pub use programs::{
    ASSERT_INSIDE_CALLEE, COPY, DURABLE_STORES, ENDLESS_LOOP, EVEN_AND_ODD, KEY_VALUE_LOG, NOTES,
    ONE_STORE, REACH, SUM_OF_NUMBERS,
};
pub use repaired::{
    COPY_REPAIRED, EVEN_AND_ODD_REPAIRED, NOTES_THIN, ONE_STORE_REPAIRED, REACH_REPAIRED,
    TWO_LINES_REPAIRED,
};
pub use stores::{
    BOTH_LINES_FLUSHED, DIVIDE_BY_ZERO, FENCE_WITHOUT_FLUSH, FLUSH_OF_A_RANGE, FLUSH_WITHOUT_FENCE,
    ONE_OF_TWO_LINES, OVERWRITTEN, PERSIST, SEVEN, SHARED_LINE, TWO_LINES,
};

/// The message for a call that was given ample memory and ran out of it.
pub const AMPLE: &str = "there is memory";

/// The trace of the run of `ONE_STORE`.
pub const ONE_STORE_TRACE: &str =
    "START;1000000000|REGISTER;0x100000000;0x40|STORE;0x100000000;0x5;0x8|STOP;0";
