//! The volatile and persistent bytes of the machine.
#![tactic(auto)]

mod keys;
mod pages;
mod ram;
mod recent;
mod refusal;

pub use ram::Ram;
pub use refusal::{MemTrap, PushRefusal, StoreRefusal};

/// The number of bytes of a page, at a multiple of it.
pub const PAGE_SIZE: u64 = 4096;
