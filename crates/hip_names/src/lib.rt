//! Names by their bytes: sets that number them, and tables of values by names.
#![tactic(auto)]

mod hashed;
mod names;
mod table;

#[doc(hidden)]
pub use hashed::HashedNames;
pub use names::NameSet;
pub use table::NameTable;
