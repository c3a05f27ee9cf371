//! The path of a report: the site of a store and those of its calls.

ghost use Rattle.std.specs.Prelude.{◌≡◌, ◌∷◌, slice_get, true, IfOk};
ghost use Rattle.std.specs.Iterator.{YieldsFirst, item_count};
ghost use Rattle.hip_tree.specs.Sites.{same_site};
ghost use Rattle.hip_findings.specs.CallPaths.{call_sites};

use crate::call_path::{CallPath, CallSites};
use hip_tree::Site;
use hip_types::NoMemory;
use std::marker::Model;
use std::rc::Rc;

/// The site of a store, and those of the calls that it was made in, outward. Contracts see the list of these sites, and
/// paths share the nodes of the calls that they have in common.
#[derive(Drop)]
pub struct SharedPath {
    store: Site,
    calls: Rc<CallPath>,
}

impl Model for SharedPath {
    ghost use Rattle.std.specs.Prelude.{List, ◌∷◌};
    ghost use Rattle.hip_tree.specs.declared.site.Site.{Site};

    ghost Value = { List Site };

    ghost use Rattle.hip_findings.specs.CallPaths.{call_sites};

    ghost view = { λ p. p.store ∷ call_sites p.calls.value };
}

impl SharedPath {
    /// The path of a store that was made in these calls.
    pub fn new(store: Site, calls: &Rc<CallPath>) -> Result<SharedPath, NoMemory>
        ensures { IfOk result (λ path. path ≡ store ∷ call_sites calls.now.value) }
    {
        let calls = CallPath::shared(calls)?;
        Ok(SharedPath { store, calls })
    }

    /// Its sites, the store's first.
    pub fn sites(&self) -> PathSites<'_>
        ensures { result ≡ self.now }
    {
        PathSites {
            store: Some(self.store),
            calls: self.calls.sites(),
        }
    }

    /// The site at a place counted from 0. The time is linear in the place.
    pub fn get(&self, place: usize) -> Option<Site>
        ensures { result ≡ slice_get self.now place }
    {
        let mut sites = self.sites();
        let mut before = place;
        'each: while before > 0 {
            let _site = sites.next()?;
            before -= 1;
        }
        sites.next()
    }

    // Whether it has the sites of another path.
    pub(crate) fn is_same(&self, other: &SharedPath) -> bool
        ensures { result ≡ true → self.now ≡ other.now }
    {
        let mut left = other.sites();
        'each: for site in self.sites() {
            match left.next() {
                Some(other) if is_same_site(site, other) => {}
                _ => return false,
            }
        }
        left.next().is_none()
    }
}

/// Whether two sites are the same.
pub(crate) fn is_same_site(a: Site, b: Site) -> bool
    ensures { result ≡ same_site a b }
{
    a == b
}

/// The sites of a path, the store's first. Contracts see the list of those that are left.
#[derive(Drop)]
pub struct PathSites<'a> {
    // The store's site, until it was given.
    store: Option<Site>,
    calls: CallSites<'a>,
}

impl<'a> Model for PathSites<'a> {
    ghost use Rattle.std.specs.Prelude.{List};
    ghost use Rattle.hip_tree.specs.declared.site.Site.{Site};

    ghost Value = { List Site };

    ghost use Rattle.hip_findings.specs.Shared.{sites_left};

    ghost view = { λ s. sites_left s.store s.calls };
}

impl<'a> Iterator for PathSites<'a> {
    type Item = Site;

    ghost next_gives = { YieldsFirst (λ s. s) };

    ghost remaining = { item_count (λ s. s) };

    fn next(&mut self) -> Option<Site> {
        match self.store {
            Some(site) => {
                self.store = None;
                Some(site)
            }
            None => self.calls.next(),
        }
    }
}
