//! The functions that calls can reach, and names that are not in use.
#![tactic(auto)]

mod fresh;
mod function_table;
mod laws;
mod reach;

pub use fresh::{fresh_names, name_of};
pub use function_table::FunctionTable;
pub use laws::{callees_are_reached, fresh_names_are_fresh};
pub use reach::callees;
