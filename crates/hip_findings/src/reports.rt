//! The reports of a run, check by check.

ghost use Rattle.std.specs.Prelude.{◌≡◌, [], ◌++◌, length, map, true, IfOk, OnOk};
ghost use Rattle.std.specs.Iterator.{YieldsFirst, item_count};
ghost use Rattle.hip_findings.specs.Shared.{report_at};

use crate::store_report::{SharedReport, StoreReport};
use hip_types::{NoMemory, Row};
use std::alloc::Global;
use std::marker::Model;
use std::rc::Rc;

// What a check found: the number of its entry, and each store that is not durable. It shares the row of stores with the
// check before it if that one found the same.
#[derive(Drop)]
pub struct CheckReports {
    check_entry: u128,
    stores: Rc<Row<StoreReport>>,
}

/// The reports of a run; contracts see the list of them. Consecutive checks that found the same share it.
#[derive(Drop)]
pub struct SharedReports {
    checks: Row<CheckReports>,
    // The number of reports.
    count: usize,
}

impl Model for SharedReports {
    ghost use Rattle.std.specs.Prelude.{◌≡◌, length, List};
    ghost use Rattle.hip_runs.specs.declared.report.Report.{Report};

    ghost Value = { List Report };

    ghost use Rattle.hip_findings.specs.Shared.{reports_of};

    ghost view = { λ r. reports_of r.checks };

    ghost invariant = { λ r. r.count ≡ length (reports_of r.checks) };
}

impl SharedReports {
    /// No reports. It takes no memory.
    pub fn new(alloc: Global) -> SharedReports
        ensures { result ≡ [] }
    {
        SharedReports {
            checks: Row::new(alloc),
            count: 0,
        }
    }

    /// Appends what a check found, given the number of its entry.
    pub fn push(
        &mut self,
        alloc: Global,
        check_entry: u128,
        stores: Row<StoreReport>,
    ) -> Result<(), NoMemory>
        ensures { OnOk result (self.new ≡ self.old ++ map (report_at check_entry) stores) }
    {
        if stores.is_empty() {
            return Ok(());
        }
        let Some(count) = self.count.checked_add(stores.len()) else {
            return Err(NoMemory);
        };
        let stores = kept_once(alloc, self.checks.as_slice().last(), stores)?;
        self.checks.push(CheckReports {
            check_entry,
            stores,
        })?;
        self.count = count;
        Ok(())
    }

    /// The number of reports.
    pub fn len(&self) -> usize
        ensures { result ≡ length self.now }
    {
        self.count
    }

    /// All reports, the first one first.
    pub fn iter(&self) -> EachReport<'_>
        ensures { result ≡ self.now }
    {
        EachReport {
            check_entry: 0,
            stores: &[],
            checks: self.checks.as_slice(),
        }
    }
}

// What a check found. It shares the row of the check before it if that check found the same.
fn kept_once(
    alloc: Global,
    before: Option<&CheckReports>,
    stores: Row<StoreReport>,
) -> Result<Rc<Row<StoreReport>>, NoMemory>
    ensures { IfOk result (λ kept. kept.value ≡ stores) }
{
    match before {
        Some(check) => kept_with(alloc, &check.stores, stores),
        None => kept(alloc, stores),
    }
}

fn kept_with(
    alloc: Global,
    before: &Rc<Row<StoreReport>>,
    stores: Row<StoreReport>,
) -> Result<Rc<Row<StoreReport>>, NoMemory>
    ensures { IfOk result (λ kept. kept.value ≡ stores) }
{
    if are_same(before.as_slice(), stores.as_slice()) {
        return match before.clone() {
            Ok(shared) => Ok(shared),
            Err(_) => Err(NoMemory),
        };
    }
    kept(alloc, stores)
}

fn kept(alloc: Global, stores: Row<StoreReport>) -> Result<Rc<Row<StoreReport>>, NoMemory>
    ensures { IfOk result (λ kept. kept.value ≡ stores) }
{
    match Rc::new(alloc, stores) {
        Ok(kept) => Ok(kept),
        Err(_) => Err(NoMemory),
    }
}

// Whether two checks found the same.
fn are_same(stores: &[StoreReport], others: &[StoreReport]) -> bool
    ensures { result ≡ true → stores.now ≡ others.now }
{
    if stores.len() != others.len() {
        return false;
    }
    'each: for index in 0..stores.len() {
        if !stores[index].is_same(&others[index]) {
            return false;
        }
    }
    true
}

/// Reports, the first one first. Contracts see the list of those that are left.
#[derive(Drop)]
pub struct EachReport<'a> {
    // The current check, with the stores that are left of it.
    check_entry: u128,
    stores: &'a [StoreReport],
    // The checks after it.
    checks: &'a [CheckReports],
}

impl<'a> Model for EachReport<'a> {
    ghost use Rattle.std.specs.Prelude.{List};
    ghost use Rattle.hip_runs.specs.declared.report.Report.{Report};

    ghost Value = { List Report };

    ghost use Rattle.hip_findings.specs.Shared.{reports_left};

    ghost view = { λ e. reports_left e.check_entry e.stores.now e.checks.now };
}

impl<'a> Iterator for EachReport<'a> {
    type Item = SharedReport<'a>;

    ghost next_gives = { YieldsFirst (λ e. e) };

    ghost remaining = { item_count (λ e. e) };

    fn next(&mut self) -> Option<SharedReport<'a>> {
        'checks: loop {
            match self.stores.split_first() {
                Some((store, stores)) => {
                    self.stores = stores;
                    return Some(SharedReport::new(self.check_entry, store));
                }
                None => {}
            }
            let (check, checks) = self.checks.split_first()?;
            self.check_entry = check.check_entry;
            self.stores = check.stores.as_slice();
            self.checks = checks;
        }
    }
}
