//! How many stores of cloned functions the clones do not flush, though those of `repair` would.

ghost use Rattle.std.specs.Prelude.{◌≡◌, ℕ, nat_eq, length, IfOk};
ghost use Rattle.std.specs.List.{filter, list_any};
ghost use Rattle.hip_tree.specs.Sites.{has_site, sites_of};
ghost use Rattle.hip_repairs.specs.CloneNumbers.{clone_numbers};
ghost use Rattle.hip_run_repairs.specs.Spared.{has_original, is_spared_by, spared_count};
ghost use Rattle.hip_vol.specs.LowStores.{low_stores};

use hip_fix::direct_stores;
use hip_repairs::{CloneOf, Plan};
use hip_sites::SiteSet;
use hip_sound::Checked;
use hip_tree::Site;
use hip_types::NoMemory;
use indexmap::IndexSet;
use std::alloc::Global;

/// The numbers of the functions that have a clone.
fn cloned_functions(alloc: Global, clones: &[CloneOf]) -> Result<IndexSet<usize>, NoMemory>
    ensures { IfOk result (λ functions. (f : ℕ)
        → list_any (nat_eq f) functions.keys ≡ has_original clones.now f) }
{
    let mut functions = IndexSet::new(alloc);
    'each: for clone in clones {
        let _is_new = functions.insert(clone.original)?;
    }
    Ok(functions)
}

fn is_spared(cloned: &IndexSet<usize>, direct: &SiteSet, flushed: &SiteSet, site: Site) -> bool
    ensures { result ≡ is_spared_by cloned.now.keys (has_site direct.now) (has_site flushed.now) site }
{
    cloned.contains(&site.function) && !direct.contains(site) && !flushed.contains(site)
}

fn count_spared(
    cloned: &IndexSet<usize>,
    direct: &SiteSet,
    flushed: &SiteSet,
    low: &[Site],
) -> usize
    ensures { result ≡ length (filter (is_spared_by cloned.now.keys (has_site direct.now) (has_site flushed.now)) low.now) }
{
    let mut count = 0;
    'each: for index in 0..low.len() {
        if is_spared(cloned, direct, flushed, low[index]) {
            count += 1;
        }
    }
    count
}

/// How many low stores of the functions with clones are neither direct nor flushed by the plan, given the low stores
/// and the clones. Memory is linear in the program and the lists, and so is the time, except for the logarithm of the
/// number of direct stores.
pub fn spared_count(
    alloc: Global,
    checked: &Checked,
    plan: &Plan,
    low: &[Site],
    clones: &[CloneOf],
) -> Result<usize, NoMemory>
    requires low { low.now ≡ filter (low_stores checked.now) (sites_of checked.now) }
    requires clones { clones.now ≡ clone_numbers checked.now plan.now }
    ensures { IfOk result (λ count. count ≡ spared_count checked.now plan.now) }
{
    let cloned = cloned_functions(alloc, clones)?;
    let stores = direct_stores(alloc, checked.program())?;
    let direct = SiteSet::of(alloc, stores.as_slice())?;
    let flushed = SiteSet::of(alloc, plan.flush_after.as_slice())?;
    Ok(count_spared(&cloned, &direct, &flushed, low))
}
