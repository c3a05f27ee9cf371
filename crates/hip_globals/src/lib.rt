//! Where the globals of a program lie, and what they hold before it runs.
#![tactic(auto)]

mod addresses;
mod global_addresses;
mod indices;
mod initial;
mod initial_bytes;
mod table;

pub use addresses::{address, alignment, are_within_limits, is_base, region_size};
pub use global_addresses::GlobalAddresses;
pub use indices::index;
pub use initial_bytes::{region_bytes, volatile_bytes};
