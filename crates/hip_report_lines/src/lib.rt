//! What commands write: the lines of reports, and the lines of counts that go to the notes.
#![tactic(auto)]

mod counts;
mod reports;
mod sites;

pub use counts::{
    put_check_counts, put_count, put_repair_counts, put_repair_totals, put_rerun_counts, put_total,
};
pub use reports::{put_reports, write_report};
pub use sites::put_site;
