ghost use Rattle.std.specs.Prelude.{◌≡◌, ℕ, nat_eq, IfOk};
ghost use Rattle.std.specs.List.{list_any};
ghost use Rattle.hip_runs.specs.Found.Scores.{is_marked};
ghost use Rattle.hip_plan.specs.Worths.{HasWorths, IsGreatest, greater_one, worth_among};

use crate::worths::{Worths, worth_of};
use hip_findings::SharedFindings;
use hip_runs::{Mark, Object};
use hip_tree::Site;
use hip_types::NoMemory;
use std::alloc::Global;
use std::collections::{BTreeMap, BTreeSet};
use std::marker::Model;

/// A site, and the number of one of its pointer operands.
type OperandKey = (Site, usize);

/// What a run found, with the worth of each operand in a table. Contracts see the findings.
pub struct WorthTable<'a> {
    found: &'a SharedFindings,
    worths: BTreeMap<OperandKey, i128>,
    // The greatest worth; at least 0, which is the worth of an operand without marks.
    greatest: i128,
}

// Written by hand, so that a function with a table drops it at each exit by one call.
impl Drop for WorthTable<'_> {
    fn drop(self) {
        let WorthTable {
            found: _,
            worths: _,
            greatest: _,
        } = self;
    }
}

impl<'a> Model for WorthTable<'a> {
    ghost use Rattle.hip_runs.specs.declared.report.Findings.{Findings};
    ghost use Rattle.hip_plan.specs.Worths.{IsWorthTable};

    ghost Value = { Findings };

    ghost view = { λ t. t.found.now };

    ghost invariant = { λ t. IsWorthTable t.worths.entries t.greatest t.found.now.marks };
}

fn set_of(alloc: Global, numbers: &[usize]) -> Result<BTreeSet<usize>, NoMemory>
    ensures { IfOk result (λ set. (n : ℕ) → list_any (nat_eq n) set.keys ≡ list_any (nat_eq n) numbers.now) }
{
    let mut set = BTreeSet::new(alloc);
    'each: for number in numbers {
        let _is_new = set.insert(*number)?;
    }
    Ok(set)
}

fn is_hit(hit: &BTreeSet<usize>, global: usize) -> bool
    ensures { result ≡ list_any (nat_eq global) hit.now.keys }
{
    hit.contains(&global)
}

fn is_marked(hit: &BTreeSet<usize>, object: Object) -> bool
    ensures { result ≡ is_marked hit.now.keys object }
{
    match object {
        Object::Global(global) => is_hit(hit, global),
        Object::Slot(_) => false,
    }
}

/// The worth that the table gives an operand; 0 if it gives none.
fn worth_among(worths: &BTreeMap<OperandKey, i128>, key: OperandKey) -> i128
    ensures { result ≡ worth_among worths.now.entries key }
{
    worths.get(&key).copied().unwrap_or(0)
}

/// The worths of all operands that the marks name.
fn worths_of(
    alloc: Global,
    hit: &[usize],
    pointed: &[Mark],
) -> Result<BTreeMap<OperandKey, i128>, NoMemory>
    ensures { IfOk result (λ worths. HasWorths worths.entries hit.now pointed.now) }
{
    let hit = set_of(alloc, hit)?;
    let mut worths = BTreeMap::new(alloc);
    'each: for mark in pointed {
        let key = (mark.site, mark.operand);
        let worth = worth_among(&worths, key) + worth_of(is_marked(&hit, mark.object));
        worths.insert(key, worth)?;
    }
    Ok(worths)
}

fn greater_one(a: i128, b: i128) -> i128
    ensures { result ≡ greater_one a b }
{
    if a < b { b } else { a }
}

/// The greatest worth in the table, or 0 if no worth is above 0.
fn greatest_among(worths: &BTreeMap<OperandKey, i128>) -> i128
    ensures { IsGreatest worths.now.entries result }
{
    let mut greatest = 0i128;
    'each: for (_, worth) in worths.iter() {
        greatest = greater_one(greatest, *worth);
    }
    greatest
}

impl<'a> WorthTable<'a> {
    /// The table of a run's marks. Memory is linear in the marks, and so is the time, except that operands are sorted.
    pub fn new(alloc: Global, found: &'a SharedFindings) -> Result<WorthTable<'a>, NoMemory>
        ensures { IfOk result (λ table. table ≡ found.now) }
    {
        let marks = found.marks();
        let worths = worths_of(alloc, marks.hit.as_slice(), marks.pointed.as_slice())?;
        let greatest = greatest_among(&worths);
        Ok(WorthTable {
            found,
            worths,
            greatest,
        })
    }
}

impl<'a> Worths for WorthTable<'a> {
    ghost found = { λ f. f };

    fn worth(&self, site: Site, operand: usize) -> i128 {
        worth_among(&self.worths, (site, operand))
    }

    fn limit(&self) -> i128 {
        self.greatest
    }
}
