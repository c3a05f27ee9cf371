//! What a check found of one store, and a report of it.

ghost use Rattle.std.specs.Prelude.{◌≡◌, slice_get, true};
ghost use Rattle.hip_findings.specs.Shared.{report_at};

use crate::path::{PathSites, SharedPath, is_same_site};
use hip_runs::Kind;
use hip_tree::Site;
use std::marker::Model;

/// What a check found of a store that is not durable.
#[derive(Drop)]
pub struct StoreReport {
    /// The number of the store's entry in the trace, from 1.
    pub entry: u128,
    pub kind: Kind,
    /// The site of the flush that lacks a fence; there exactly for `MissingFence`.
    pub flush_site: Option<Site>,
    /// The store's site, then the site of the call that made its frame, and so on outward.
    pub path: SharedPath,
    /// How many of the path's calls had returned before the check; they are the innermost ones.
    pub closed: usize,
}

impl StoreReport {
    // Whether another store report is the same.
    pub(crate) fn is_same(&self, other: &StoreReport) -> bool
        ensures { result ≡ true → self.now ≡ other.now }
    {
        self.entry == other.entry
            && self.closed == other.closed
            && is_same_kind(self.kind, other.kind)
            && is_same_flush(self.flush_site, other.flush_site)
            && self.path.is_same(&other.path)
    }
}

fn is_same_kind(a: Kind, b: Kind) -> bool
    ensures { result ≡ true → a ≡ b }
{
    match (a, b) {
        (Kind::MissingFlush, Kind::MissingFlush) => true,
        (Kind::MissingFence, Kind::MissingFence) => true,
        (Kind::MissingBoth, Kind::MissingBoth) => true,
        _ => false,
    }
}

#[tactic(auto, using(hip_tree::specs::Laws::SiteLaws::same_site_equal))]
fn is_same_flush(a: Option<Site>, b: Option<Site>) -> bool
    ensures { result ≡ true → a ≡ b }
{
    match (a, b) {
        (None, None) => true,
        (Some(a), Some(b)) => is_same_site(a, b),
        _ => false,
    }
}

/// A report: what a check found of a store, and the number of the check's entry. Contracts see the `Report`.
#[derive(Drop)]
pub struct SharedReport<'a> {
    check_entry: u128,
    store: &'a StoreReport,
}

impl<'a> Model for SharedReport<'a> {
    ghost use Rattle.hip_runs.specs.declared.report.Report.{Report};

    ghost Value = { Report };

    ghost use Rattle.hip_findings.specs.Shared.{report_at};

    ghost view = { λ r. report_at r.check_entry r.store.now };
}

impl<'a> SharedReport<'a> {
    /// The report of a store at the check whose entry has that number.
    pub fn new(check_entry: u128, store: &'a StoreReport) -> SharedReport<'a>
        ensures { result ≡ report_at check_entry store.now }
    {
        SharedReport { check_entry, store }
    }

    /// The number of the store's entry in the trace, from 1.
    pub fn entry(&self) -> u128
        ensures { result ≡ self.now.entry }
    {
        self.store.entry
    }

    /// The number of the check's entry in the trace, from 1.
    pub fn check_entry(&self) -> u128
        ensures { result ≡ self.now.check_entry }
    {
        self.check_entry
    }

    /// What the store lacks to be durable.
    pub fn kind(&self) -> Kind
        ensures { result ≡ self.now.kind }
    {
        self.store.kind
    }

    /// The site of the flush that lacks a fence; there exactly for `MissingFence`.
    pub fn flush_site(&self) -> Option<Site>
        ensures { result ≡ self.now.flush_site }
    {
        self.store.flush_site
    }

    /// The store's site, then the site of the call that made its frame, and so on outward.
    pub fn path(&self) -> PathSites<'a>
        ensures { result ≡ self.now.path }
    {
        self.store.path.sites()
    }

    /// The site at a place of the path, counted from 0.
    pub fn site_at(&self, place: usize) -> Option<Site>
        ensures { result ≡ slice_get self.now.path place }
    {
        self.store.path.get(place)
    }

    /// How many of the path's calls had returned before the check; they are the innermost ones.
    pub fn closed(&self) -> usize
        ensures { result ≡ self.now.closed }
    {
        self.store.closed
    }
}
