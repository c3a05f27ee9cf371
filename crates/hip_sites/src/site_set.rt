ghost use Rattle.std.specs.Prelude.{◌≡◌, ◌||◌, [], true, IfOk, OnOk, OnErr};
ghost use Rattle.hip_tree.specs.Sites.{has_site, same_site};
ghost use Rattle.hip_tree.specs.declared.site.Site.{Site};
ghost use Rattle.hip_repairs.specs.Suits.{is_ascending};

use hip_tree::Site;
use hip_types::{NoMemory, Row};
use std::alloc::Global;
use std::collections::BTreeSet;
use std::marker::Model;

/// A set of sites. Contracts see the ascending list of them.
pub struct SiteSet {
    sites: BTreeSet<Site>,
}

impl Model for SiteSet {
    ghost use Rattle.std.specs.Prelude.{List};
    ghost use Rattle.hip_tree.specs.declared.site.Site.{Site};

    ghost Value = { List Site };

    ghost view = { λ s. s.sites.keys };
}

// Written by hand, so that the drop of a set is proved here and not again in each crate that drops one.
impl Drop for SiteSet {
    fn drop(self) {
        let SiteSet { sites: _ } = self;
    }
}

impl SiteSet {
    /// A set of no sites. It takes no memory.
    pub fn new(alloc: Global) -> SiteSet
        ensures { result ≡ [] }
    {
        SiteSet {
            sites: BTreeSet::new(alloc),
        }
    }

    /// The set of the sites of a list, which may have a site more than once.
    pub fn of(alloc: Global, sites: &[Site]) -> Result<SiteSet, NoMemory>
        ensures { IfOk result (λ set. has_site set ≡ has_site sites.now) }
    {
        let mut set = SiteSet::new(alloc);
        set.insert_all(sites)?;
        Ok(set)
    }

    /// Inserts a site. It takes time logarithmic in the number of sites, and memory if the site is new.
    pub fn insert(&mut self, site: Site) -> Result<(), NoMemory>
        ensures ok { OnOk result ((s : Site) → has_site self.new s ≡ (same_site s site || has_site self.old s)) }
        ensures err { OnErr result (self.new ≡ self.old) }
    {
        self.sites.insert(site)?;
        Ok(())
    }

    /// Inserts the sites of a list.
    pub fn insert_all(&mut self, sites: &[Site]) -> Result<(), NoMemory>
        ensures { OnOk result ((s : Site) → has_site self.new s ≡ (has_site sites.now s || has_site self.old s)) }
    {
        'each: for site in sites {
            self.insert(*site)?;
        }
        Ok(())
    }

    /// Whether the set has a site, in time logarithmic in the number of its sites.
    pub fn contains(&self, site: Site) -> bool
        ensures { result ≡ has_site self.now site }
    {
        self.sites.contains(&site)
    }

    /// The sites, in ascending order.
    pub fn to_row(&self, alloc: Global) -> Result<Row<Site>, NoMemory>
        ensures sites { IfOk result (λ row. row ≡ self.now) }
        ensures ascending { is_ascending self.now ≡ true }
    {
        let sites: Vec<Site> = self.sites.iter().copied().collect(alloc)?;
        Ok(Row::from_vec(sites))
    }
}
