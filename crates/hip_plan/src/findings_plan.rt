ghost use Rattle.std.specs.Prelude.{◌≡◌, ◌&&◌, ◌||◌, IfOk, OnOk};
ghost use Rattle.hip_tree.specs.Sites.{has_site};
ghost use Rattle.hip_tree.specs.declared.site.Site.{Site};
ghost use Rattle.hip_runs.specs.Found.Marks.{IsFound};
ghost use Rattle.hip_runs.specs.declared.input.Input.{Input};
ghost use Rattle.hip_repairs.specs.Choice.{is_site, plan_for};
ghost use Rattle.hip_repairs.specs.Suits.{IsSuiting};
ghost use Rattle.hip_plan.specs.Asked as spec;
ghost use Rattle.hip_plan.specs.Asked.{HasPutAsked, is_there};

use crate::choice::choose_by;
use crate::plan_sites::PlanSites;
use crate::worth_table::WorthTable;
use hip_findings::{SharedFindings, SharedReport};
use hip_repairs::Plan;
use hip_runs::Kind;
use hip_sites::SiteSet;
use hip_sound::Checked;
use hip_tree::{Program, Site, instr_at};
use hip_types::NoMemory;
use std::alloc::Global;

/// The store after which a report needs a flush.
fn flush_asked(report: &SharedReport<'_>, level: usize) -> Option<Site>
    ensures { result ≡ spec.flush_asked report.now.kind level report.now.path }
{
    match report.kind() {
        Kind::MissingFlush | Kind::MissingBoth if level == 0 => report.site_at(0),
        _ => None,
    }
}

/// The instruction after which a report needs a fence: a flush of the program, or the store whose flush is inserted.
fn fence_asked(report: &SharedReport<'_>, level: usize) -> Option<Site>
    ensures { result ≡ spec.fence_asked report.now.kind level report.now.flush_site report.now.path }
{
    match report.kind() {
        Kind::MissingFence => report.flush_site(),
        Kind::MissingBoth if level == 0 => report.site_at(0),
        _ => None,
    }
}

/// The call that a report needs hoisted.
fn hoist_asked(report: &SharedReport<'_>, level: usize) -> Option<Site>
    ensures { result ≡ spec.hoist_asked report.now.kind level report.now.path }
{
    match report.kind() {
        Kind::MissingFlush | Kind::MissingBoth if level != 0 => report.site_at(level),
        _ => None,
    }
}

fn is_there(program: &Program, site: Site) -> bool
    ensures { result ≡ is_there program.now site }
{
    instr_at(program, site).is_some()
}

/// Inserts a site, if there is one and the program has it.
fn add(sites: &mut SiteSet, program: &Program, site: Option<Site>) -> Result<(), NoMemory>
    ensures { OnOk result ((s : Site) →
        has_site sites.new s ≡ ((is_site site s && is_there program.now s) || has_site sites.old s)) }
{
    match site {
        Some(site) if is_there(program, site) => sites.insert(site),
        _ => Ok(()),
    }
}

/// Inserts the sites that a report needs.
fn add_asked(
    sites: &mut PlanSites,
    program: &Program,
    report: &SharedReport<'_>,
    level: usize,
) -> Result<(), NoMemory>
    ensures { OnOk result (HasPutAsked program.now report.now level sites.old sites.new) }
{
    add(&mut sites.flush_after, program, flush_asked(report, level))?;
    add(&mut sites.fence_after, program, fence_asked(report, level))?;
    add(&mut sites.hoist, program, hoist_asked(report, level))?;
    Ok(())
}

/// The plan for what was found: in each list the sites of the program that some report needs, in ascending order. It
/// suits the program if a run of the program found this.
///
/// Memory is linear in the marks and the reports. So is the time, except that sites are sorted, and that a path is read
/// from its store outward up to the first site whose score no other can exceed.
pub fn plan(alloc: Global, checked: &Checked, findings: &SharedFindings) -> Result<Plan, NoMemory>
    ensures is { IfOk result (λ plan. plan ≡ plan_for checked.now findings.now) }
    ensures suits { IfOk result (λ plan. (I : Input) → IsFound checked.now I findings.now →
        IsSuiting checked.now plan) }
{
    let program = checked.program();
    let worths = WorthTable::new(alloc, findings)?;
    let mut sites = PlanSites::new(alloc);
    'each: for report in findings.reports().iter() {
        let level = choose_by(checked, &worths, &report);
        add_asked(&mut sites, program, &report, level)?;
    }
    sites.to_plan(alloc)
}
