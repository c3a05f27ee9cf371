//! The integers of the machine: arithmetic, comparisons and changes of width, and the texts of numbers. No call takes
//! memory.
#![tactic(auto)]

mod arithmetic;
mod cast;
mod comparison;
mod read;
mod sign;
mod write;

pub use arithmetic::{NumTrap, binary};
pub use cast::{narrow, widen};
pub use comparison::compare;
pub use read::{read_decimal, read_hex, read_signed};
pub use write::{decimal_into, hex_into, natural_into};
