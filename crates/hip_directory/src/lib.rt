//! Numbers by key, in a table of two levels whose groups of entries are made as they are needed.
#![tactic(auto)]

mod directory;

pub use directory::Directory;

/// How many consecutive keys have their entries in one group.
pub const GROUP_SIZE: u64 = 64;
