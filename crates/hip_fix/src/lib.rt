//! The calls that repair a program by a plan: functions with inserted flushes and fences, clones and declarations; and
//! whether a plan suits a program.
#![tactic(auto)]

mod applied;
mod body;
mod clone_table;
mod direct;
mod externs;
mod insertions;
mod plan_check;
mod program;
mod repair;

pub use applied::{apply, apply_skipping};
pub use body::{NeededExterns, RepairedBody};
pub use clone_table::CloneTable;
pub use direct::direct_stores;
pub use externs::declarations;
pub use hip_repairs::{CloneOf, Plan, Repaired};
pub use plan_check::suits;
pub use repair::{RepairSites, RepairedFunctions};
