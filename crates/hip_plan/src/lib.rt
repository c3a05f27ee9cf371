//! Scores of sites, the level at which a report is repaired, and the plan for what a run found.
#![tactic(auto)]

mod choice;
mod findings_plan;
mod plan_sites;
mod scores;
mod worth_table;
mod worths;

pub use choice::choose;
pub use findings_plan::plan;
pub use plan_sites::PlanSites;
pub use scores::score;
