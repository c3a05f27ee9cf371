//! What a run found, with reports that share their call paths.
#![tactic(auto)]

mod call_path;
mod findings;
mod path;
mod reports;
mod store_report;

pub use call_path::{CallPath, CallSites};
pub use findings::SharedFindings;
pub use path::{PathSites, SharedPath};
pub use reports::{EachReport, SharedReports};
pub use store_report::{SharedReport, StoreReport};
