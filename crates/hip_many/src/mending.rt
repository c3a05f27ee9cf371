ghost use Rattle.std.specs.Prelude.{◌≡◌, ◌↔◌, Bool, IfOk, IsTrue};
ghost use Rattle.std.specs.List.{list_all};
ghost use Rattle.hip_tree.specs.Sites.{has_site};
ghost use Rattle.hip_tree.specs.declared.program.Program.{Program};
ghost use Rattle.hip_tree.specs.declared.site.Site.{Site};
ghost use Rattle.hip_sound.specs.Sound.{IsSound};
ghost use Rattle.hip_runs.specs.Found.Marks.{IsFound};
ghost use Rattle.hip_runs.specs.Validity.{IsValid};
ghost use Rattle.hip_runs.specs.declared.input.Input.{Input};
ghost use Rattle.hip_repairs.specs.Clean.{IsClean};
ghost use Rattle.hip_repairs.specs.Mending.{MendsAll};
ghost use Rattle.hip_repairs.specs.Repaired.{repaired};
ghost use Rattle.hip_repairs.specs.StayOutside.{StayOutside};
ghost use Rattle.hip_many.specs.MendingTests as spec;
ghost use Rattle.hip_many.specs.MendingTests.{IsPlanned, any_among, mends_by, passes_at};

use hip_findings::{PathSites, SharedFindings, SharedReport, SharedReports};
use hip_repairs::{Plan, mending_plans_are_clean};
use hip_runs::Kind;
use hip_sites::SiteSet;
use hip_tree::Site;
use hip_types::NoMemory;
use std::alloc::Global;

/// The sites of a plan.
#[derive(Drop)]
pub(crate) struct Planned {
    pub flush_after: SiteSet,
    pub fence_after: SiteSet,
    pub hoist: SiteSet,
}

fn collect(alloc: Global, plan: &Plan) -> Result<Planned, NoMemory>
    ensures { IfOk result (IsPlanned plan.now) }
{
    Ok(Planned {
        flush_after: SiteSet::of(alloc, plan.flush_after.as_slice())?,
        fence_after: SiteSet::of(alloc, plan.fence_after.as_slice())?,
        hoist: SiteSet::of(alloc, plan.hoist.as_slice())?,
    })
}

/// Whether there is a site, and it is one of these.
fn has(sites: &SiteSet, site: Option<Site>) -> bool
    ensures { result ≡ passes_at (has_site sites.now) site }
{
    match site {
        Some(site) => sites.contains(site),
        None => false,
    }
}

fn only_flush(kind: Kind) -> bool
    ensures { result ≡ spec.only_flush kind }
{
    match kind {
        Kind::MissingFlush => true,
        Kind::MissingFence => false,
        Kind::MissingBoth => false,
    }
}

/// Whether one of the first calls is hoisted.
fn hoists_call(hoist: &SiteSet, calls: PathSites<'_>, closed: usize) -> bool
    ensures { result ≡ any_among (has_site hoist.now) closed calls.entry }
{
    let mut rest = calls;
    let mut left = closed;
    'calls: while left > 0 {
        match rest.next() {
            Some(call) => {
                if hoist.contains(call) {
                    return true;
                }
            }
            None => return false,
        }
        left -= 1;
    }
    false
}

/// Whether a store has a flush, and a fence too unless only a flush is missing.
fn flushes_store(planned: &Planned, kind: Kind, store: Site) -> bool
    ensures { result ≡ spec.flushes_store (has_site planned.now.flush_after) (has_site planned.now.fence_after) kind
        store }
{
    planned.flush_after.contains(store) && (only_flush(kind) || planned.fence_after.contains(store))
}

/// Whether a report is mended at a level of its path.
fn on_path(planned: &Planned, kind: Kind, closed: usize, path: PathSites<'_>) -> bool
    ensures { result ≡ spec.on_path (has_site planned.now.flush_after) (has_site planned.now.fence_after)
        (has_site planned.now.hoist) kind closed path.entry }
{
    let mut calls = path;
    match calls.next() {
        Some(store) => {
            flushes_store(planned, kind, store) || hoists_call(&planned.hoist, calls, closed)
        }
        None => hoists_call(&planned.hoist, calls, closed),
    }
}

/// Whether a report is mended by a fence after the flush that it names, or on its path.
fn mends(planned: &Planned, report: &SharedReport<'_>) -> bool
    ensures { result ≡ mends_by planned.now report.now }
{
    has(&planned.fence_after, report.flush_site())
        || on_path(planned, report.kind(), report.closed(), report.path())
}

fn mends_each(planned: &Planned, reports: &SharedReports) -> bool
    ensures { result ≡ list_all (mends_by planned.now) reports.now }
{
    'each: for report in reports.iter() {
        if !mends(planned, &report) {
            return false;
        }
    }
    true
}

/// Whether a plan mends each report of a run, at whatever level: by a fence after the flush that the report names, by a
/// flush after its store, or by hoisting a call of its path that had returned. Then the program that is repaired by the
/// plan is clean on the run's input, also if the plan was made for other runs.
///
/// Memory is linear in the plan. Time is linear in the plan and in the paths of the reports.
pub fn mends_all(alloc: Global, plan: &Plan, findings: &SharedFindings) -> Result<bool, NoMemory>
    ensures exact { IfOk result (λ mends. IsTrue mends ↔ MendsAll plan.now findings.now) }
    ensures clean { IfOk result (λ mends. IsTrue mends → (P : Program) → (skip : Site → Bool) → (I : Input) →
        IsSound P → IsValid P I → StayOutside P skip → IsFound P I findings.now →
        IsClean (repaired P plan.now skip) I) }
{
    mending_plans_are_clean();
    let planned = collect(alloc, plan)?;
    Ok(mends_each(&planned, findings.reports()))
}
