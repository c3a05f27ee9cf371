ghost use Rattle.std.specs.Prelude.{◌≡◌, ◌⊎◌, ℕ, ◌∷◌, [], nat_eq, slice_get, Some, true, IfOk, OnOk};
ghost use Rattle.hip_types.specs.Distinct.{met};
ghost use Rattle.hip_runs.specs.Found.Marks.{same_mark};
ghost use Rattle.hip_ledger.specs.MetMarks.{AreMet, WereHit};
ghost use Rattle.hip_runs.specs.declared.report.Mark.{Mark as Met};

use hip_runs::{Mark, Object};
use hip_types::{NoMemory, Row};
use indexmap::IndexSet;
use std::alloc::Global;

/// How many recent marks are kept.
const RECENT: usize = 1024;

/// No recent marks.
pub fn none_recent(alloc: Global) -> Result<Vec<Option<Mark>>, NoMemory>
    ensures { IfOk result (λ recent. AreMet [] recent.items) }
{
    let mut recent = Vec::new(alloc);
    match recent.resize(RECENT, None) {
        Ok(()) => Ok(recent),
        Err(_) => Err(NoMemory),
    }
}

// The place of a mark among the recent ones. Marks of nearby operands have different places, and so have the marks of
// one operand in nearby objects.
#[inline(always)]
fn place_of(mark: Mark) -> usize {
    let object = match mark.object {
        Object::Global(number) => number,
        Object::Slot(site) => site.block.wrapping_mul(8).wrapping_add(site.index),
    };
    let block = mark
        .site
        .block
        .wrapping_mul(8)
        .wrapping_add(mark.site.index);
    let function = mark
        .site
        .function
        .wrapping_mul(64)
        .wrapping_add(mark.operand);
    block
        .wrapping_add(function)
        .wrapping_add(object.wrapping_mul(16))
        % RECENT
}

/// Whether a mark is among the recent ones.
#[inline(always)]
pub fn is_recent(recent: &[Option<Mark>], mark: Mark) -> bool
    ensures { result ≡ true → (i : ℕ) × (slice_get recent.now i ≡ Some (Some mark)) }
{
    match recent.get(place_of(mark)) {
        Some(known) => is_mark(*known, mark),
        None => false,
    }
}

fn is_mark(known: Option<Mark>, mark: Mark) -> bool
    ensures { result ≡ true → known ≡ Some mark }
{
    match known {
        Some(known) => known == mark,
        None => false,
    }
}

// Keeps a recent mark, in the place of another.
fn keep_recent(recent: &mut Vec<Option<Mark>>, mark: Mark)
    ensures { (i : ℕ) → (m : Met) → slice_get recent.new.items i ≡ Some (Some m)
        → (m ≡ mark) ⊎ (slice_get recent.old.items i ≡ Some (Some m)) }
{
    match recent.get_mut(place_of(mark)) {
        Some(known) => *known = Some(mark),
        None => {}
    }
}

/// Appends a mark to those that were met, unless it is one of them.
pub fn meet_mark(
    marks: &mut IndexSet<Mark>,
    recent: &mut Vec<Option<Mark>>,
    mark: Mark,
) -> Result<(), NoMemory>
    requires { AreMet marks.old.keys recent.old.items }
    ensures marks { OnOk result (marks.new.keys ≡ met same_mark marks.old.keys (mark ∷ [])) }
    ensures known { OnOk result (AreMet marks.new.keys recent.new.items) }
{
    insert(marks, mark)?;
    keep_recent(recent, mark);
    Ok(())
}

fn insert(marks: &mut IndexSet<Mark>, mark: Mark) -> Result<(), NoMemory>
    ensures { OnOk result (marks.new.keys ≡ met same_mark marks.old.keys (mark ∷ [])) }
{
    let _is_new = marks.insert(mark)?;
    Ok(())
}

/// Notes the marks of a step that was taken.
pub fn note_marks(
    marks: &mut IndexSet<Mark>,
    recent: &mut Vec<Option<Mark>>,
    ahead: &[Mark],
) -> Result<(), NoMemory>
    requires { AreMet marks.old.keys recent.old.items }
    ensures marks { OnOk result (marks.new.keys ≡ met same_mark marks.old.keys ahead.now) }
    ensures known { OnOk result (AreMet marks.new.keys recent.new.items) }
{
    'each: for mark in ahead {
        meet_mark(marks, recent, *mark)?;
    }
    Ok(())
}

/// Appends the number of a global to those that were met, unless it is one of them.
#[inline(always)]
pub fn meet_global(
    hit: &mut IndexSet<usize>,
    flags: &mut Vec<bool>,
    number: usize,
) -> Result<(), NoMemory>
    requires { WereHit hit.old.keys flags.old.items }
    ensures hit { OnOk result (hit.new.keys ≡ met nat_eq hit.old.keys (number ∷ [])) }
    ensures known { OnOk result (WereHit hit.new.keys flags.new.items) }
{
    if was_hit(flags.as_slice(), number) {
        return Ok(());
    }
    add_global(hit, flags, number)
}

// The same, by a look-up.
#[inline(never)]
fn add_global(
    hit: &mut IndexSet<usize>,
    flags: &mut Vec<bool>,
    number: usize,
) -> Result<(), NoMemory>
    requires { WereHit hit.old.keys flags.old.items }
    ensures hit { OnOk result (hit.new.keys ≡ met nat_eq hit.old.keys (number ∷ [])) }
    ensures known { OnOk result (WereHit hit.new.keys flags.new.items) }
{
    let _is_new = hit.insert(number)?;
    flag(flags, number)
}

#[inline(always)]
fn was_hit(flags: &[bool], number: usize) -> bool
    ensures { result ≡ true → slice_get flags.now number ≡ Some true }
{
    match flags.get(number) {
        Some(flag) => *flag,
        None => false,
    }
}

// Flags a number.
fn flag(flags: &mut Vec<bool>, number: usize) -> Result<(), NoMemory>
    ensures { OnOk result ((g : ℕ) → slice_get flags.new.items g ≡ Some true
        → (g ≡ number) ⊎ (slice_get flags.old.items g ≡ Some true)) }
{
    lengthen(flags, number.saturating_add(1))?;
    set_flag(flags, number);
    Ok(())
}

fn lengthen(flags: &mut Vec<bool>, len: usize) -> Result<(), NoMemory>
    ensures { OnOk result ((g : ℕ) → slice_get flags.new.items g ≡ Some true
        → slice_get flags.old.items g ≡ Some true) }
{
    if len <= flags.len() {
        return Ok(());
    }
    match flags.resize(len, false) {
        Ok(()) => Ok(()),
        Err(_) => Err(NoMemory),
    }
}

fn set_flag(flags: &mut Vec<bool>, number: usize)
    ensures { (g : ℕ) → slice_get flags.new.items g ≡ Some true
        → (g ≡ number) ⊎ (slice_get flags.old.items g ≡ Some true) }
{
    match flags.get_mut(number) {
        Some(flag) => *flag = true,
        None => {}
    }
}

/// The marks, in the order in which they were met.
pub fn marks_of(alloc: Global, marks: &IndexSet<Mark>) -> Result<Row<Mark>, NoMemory>
    ensures { IfOk result (λ row. row ≡ marks.now.keys) }
{
    let met: Vec<Mark> = marks.iter().copied().collect(alloc)?;
    Ok(Row::from_vec(met))
}

/// The numbers, in the order in which they were met.
pub fn globals_of(alloc: Global, hit: &IndexSet<usize>) -> Result<Row<usize>, NoMemory>
    ensures { IfOk result (λ row. row ≡ hit.now.keys) }
{
    let numbers: Vec<usize> = hit.iter().copied().collect(alloc)?;
    Ok(Row::from_vec(numbers))
}
