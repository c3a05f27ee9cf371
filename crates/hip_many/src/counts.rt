ghost use Rattle.std.specs.Prelude.{◌≡◌, ◌+◌, cond, IfOk, OnOk};
ghost use Rattle.hip_tree.specs.Sites.{has_site, same_site};
ghost use Rattle.hip_tree.specs.declared.site.Site.{Site};
ghost use Rattle.hip_many.specs.Counts as spec;
ghost use Rattle.hip_many.specs.Counts.{count_at};
ghost use Rattle.hip_many.specs.Reasons.{plans_with};

use crate::reason::Sort;
use hip_repairs::Plan;
use hip_tree::Site;
use hip_types::NoMemory;
use std::alloc::Global;
use std::collections::BTreeMap;

/// In how many plans a site was met, and the number of the last of them, from 1; 0 if there was none.
#[derive(Clone, Copy)]
pub struct Count {
    pub plans: u64,
    pub last: u64,
}

/// The count after the site was met in the plan of that number.
fn counted(count: Count, number: u64) -> Count
    ensures { result ≡ spec.counted count number }
{
    if count.last == number {
        count
    } else {
        Count {
            plans: count.plans.saturating_add(1),
            last: number,
        }
    }
}

/// The count of a site.
pub fn count_of(counts: &BTreeMap<Site, Count>, site: Site) -> Count
    ensures { result ≡ count_at counts.now.entries site }
{
    match counts.get(&site) {
        Some(count) => *count,
        None => Count { plans: 0, last: 0 },
    }
}

fn note(counts: &mut BTreeMap<Site, Count>, site: Site, number: u64) -> Result<(), NoMemory>
    ensures { OnOk result ((s : Site) → count_at counts.new.entries s ≡ cond (same_site s site)
        (spec.counted (count_at counts.old.entries site) number) (count_at counts.old.entries s)) }
{
    let count = counted(count_of(counts, site), number);
    counts.insert(site, count)?;
    Ok(())
}

fn note_all(counts: &mut BTreeMap<Site, Count>, sites: &[Site], number: u64) -> Result<(), NoMemory>
    ensures { OnOk result ((s : Site) → count_at counts.new.entries s ≡ cond (has_site sites.now s)
        (spec.counted (count_at counts.old.entries s) number) (count_at counts.old.entries s)) }
{
    'each: for site in sites {
        note(counts, *site, number)?;
    }
    Ok(())
}

/// In how many plans each site is.
pub fn counts_of(
    alloc: Global,
    sort: Sort,
    plans: &[Plan],
) -> Result<BTreeMap<Site, Count>, NoMemory>
    ensures { IfOk result (λ counts. (s : Site) →
        (count_at counts.entries s).plans ≡ plans_with sort plans.now s) }
{
    let mut counts = BTreeMap::new(alloc);
    'each: for index in 0..plans.len() {
        note_all(&mut counts, sort.sites(&plans[index]), index as u64 + 1)?;
    }
    Ok(counts)
}
