ghost use Rattle.std.specs.Prelude.{◌≡◌, ℕ, ◌+◌, ◌*◌, ◌≤◌, ◌^◌, ◌++◌, Some, None, true, length, IfOk, OnOk};
ghost use Rattle.std.specs.Ordering.{nat_cmp};
ghost use Rattle.std.specs.BTreeMap as tree;
ghost use Rattle.std.specs.BTreeMap.{BTreeMap as Map};
ghost use Rattle.hip_lines.specs.Parts.{loose_from};
ghost use Rattle.hip_runs.specs.StoredParts.Order.{is_before};
ghost use Rattle.hip_runs.specs.Found.Reports.{kind_of};
ghost use Rattle.hip_ledger.specs.declared.checks.Group.{Group as Stated};
ghost use Rattle.hip_ledger.specs.declared.pending.LineNote.{LineNote as Line};
ghost use Rattle.hip_ledger.specs.CheckGroups.{AddsByte, RepeatsLast, StaysWith, StaysWithLast, flush_stated, group_from, joined, later_note, reports_stated, site_stated, store_in, store_stated, stores_stated};
ghost use Rattle.hip_ledger.specs.Pending.{FlushesAscend, StoresAscend, lines_of, note_of};

use crate::pending::{FlushNote, LineNote, Pending, StoreNote, first_after};
use hip_findings::{SharedPath, SharedReports, StoreReport};
use hip_lines::{Lines, LooseByte};
use hip_runs::Kind;
use hip_tree::Site;
use hip_types::{LINE_SIZE, NoMemory, Row};
use std::alloc::Global;
use std::collections::BTreeMap;

/// A summary of the loose bytes of a store: whether all are flushed, and the latest of their lines' first flushes.
#[derive(Clone, Copy)]
pub struct Group {
    pub flushed: bool,
    pub latest: Option<FlushNote>,
}

/// What a check needs: the births of the standing calls, the outermost one first, the number of its entry, and the step
/// of the last fence.
#[derive(Drop)]
pub struct Check<'a> {
    pub births: &'a [u128],
    pub entry: u128,
    pub fence: Option<u128>,
}

/// A range of the region, by its offset and its size.
#[derive(Clone, Copy)]
pub struct ByteRange {
    pub offset: u64,
    pub size: u64,
}

/// Appends the reports of a check of a range, in the order of the stores' steps.
pub fn check_range(
    alloc: Global,
    pending: &Pending,
    check: &Check<'_>,
    lines: &Lines,
    range: ByteRange,
    reports: &mut SharedReports,
) -> Result<(), NoMemory>
    requires within { range.offset + range.size ≤ LINE_SIZE * length lines.now.lines }
    requires stores { StoresAscend 0 (2 ^ 128) pending.now.stores.items }
    requires flushes { (j : ℕ) → (l : Line) → lines_of pending.now.lines j ≡ Some l
        → FlushesAscend 0 (2 ^ 128) l.flushes }
    ensures { OnOk result ((groups : Map ℕ Stated) × tree.IsOrdered nat_cmp groups
        × ((tag : ℕ)
        → tree.get nat_cmp groups tag ≡ group_from (lines_of pending.now.lines) tag None
        (loose_from lines.now.lines range.offset range.size))
        × (reports.new
        ≡ reports.old ++ reports_stated check.now.births.now check.now.entry check.now.fence pending.now.stores.items
        groups.entries)) }
{
    let groups = groups_of(alloc, &pending.lines, lines, range)?;
    let stores = stores_of(alloc, pending, check, &groups)?;
    reports.push(alloc, check.entry, stores)
}

// A summary of the loose bytes of a range, for each store.
fn groups_of(
    alloc: Global,
    notes: &BTreeMap<u64, LineNote>,
    lines: &Lines,
    range: ByteRange,
) -> Result<BTreeMap<u128, Group>, NoMemory>
    requires within { range.offset + range.size ≤ LINE_SIZE * length lines.now.lines }
    requires flushes { (j : ℕ) → (l : Line) → lines_of notes.now j ≡ Some l
        → FlushesAscend 0 (2 ^ 128) l.flushes }
    ensures stated { IfOk result (λ groups. (tag : ℕ)
        → tree.get nat_cmp groups tag ≡ group_from (lines_of notes.now) tag None
        (loose_from lines.now.lines range.offset range.size)) }
{
    let mut groups = BTreeMap::new(alloc);
    let mut last = None;
    'bytes: for byte in lines.not_durable(range.offset, range.size) {
        add_byte(notes, &mut groups, last, byte)?;
        last = Some(byte);
    }
    Ok(groups)
}

// Adds one more loose byte to the groups. It looks nothing up for a byte that is like the one before it, which most
// bytes of a store are.
#[inline(always)]
fn add_byte(
    notes: &BTreeMap<u64, LineNote>,
    groups: &mut BTreeMap<u128, Group>,
    last: Option<LooseByte>,
    byte: LooseByte,
) -> Result<(), NoMemory>
    requires flushes { (j : ℕ) → (l : Line) → lines_of notes.now j ≡ Some l
        → FlushesAscend 0 (2 ^ 128) l.flushes }
    requires last { StaysWithLast (lines_of notes.now) groups.old last }
    ensures adds { OnOk result (AddsByte (lines_of notes.now) groups.old groups.new byte) }
    ensures stays { OnOk result (StaysWith (lines_of notes.now) groups.new byte) }
{
    if repeats_last(last, byte) {
        return Ok(());
    }
    let flush = flush_of(notes, byte);
    join(groups, byte.tag, byte.flushed, flush)
}

// Whether a loose byte is of the same store and in the same line as the last one, and flushed if that one is.
#[inline(always)]
fn repeats_last(last: Option<LooseByte>, byte: LooseByte) -> bool
    ensures { result ≡ true → RepeatsLast last byte }
{
    match last {
        Some(last) => {
            last.tag == byte.tag
                && last.offset / LINE_SIZE == byte.offset / LINE_SIZE
                && last.flushed == byte.flushed
        }
        None => false,
    }
}

fn flush_of(notes: &BTreeMap<u64, LineNote>, byte: LooseByte) -> Option<FlushNote>
    requires { (j : ℕ) → (l : Line) → lines_of notes.now j ≡ Some l → FlushesAscend 0 (2 ^ 128) l.flushes }
    ensures { result ≡ flush_stated (lines_of notes.now) byte }
{
    match notes.get(&(byte.offset / LINE_SIZE)) {
        Some(note) => first_after(note.flushes.as_slice(), byte.tag),
        None => None,
    }
}

// Adds one more loose byte of a store to its summary.
fn join(
    groups: &mut BTreeMap<u128, Group>,
    tag: u128,
    flushed: bool,
    flush: Option<FlushNote>,
) -> Result<(), NoMemory>
    ensures here { OnOk result (tree.get nat_cmp groups.new tag ≡ Some (joined flushed flush
        (tree.get nat_cmp groups.old tag))) }
    ensures others { OnOk result ((t : ℕ) → (t ≡ tag → ⊥)
        → tree.get nat_cmp groups.new t ≡ tree.get nat_cmp groups.old t) }
{
    let before = groups.get(&tag).copied();
    match groups.insert(tag, joined(flushed, flush, before)) {
        Ok(_) => Ok(()),
        Err(_) => Err(NoMemory),
    }
}

fn joined(flushed: bool, flush: Option<FlushNote>, before: Option<Group>) -> Group
    ensures { result ≡ joined flushed flush before }
{
    match before {
        None => Group {
            flushed,
            latest: flush,
        },
        Some(group) => Group {
            flushed: group.flushed && flushed,
            latest: later(group.latest, flush),
        },
    }
}

fn later(a: Option<FlushNote>, b: Option<FlushNote>) -> Option<FlushNote>
    ensures { result ≡ later_note a b }
{
    match (a, b) {
        (None, b) => b,
        (Some(a), None) => Some(a),
        (Some(a), Some(b)) => { if a.step < b.step { Some(b) } else { Some(a) } }
    }
}

// What a check reports of the stores of groups.
fn stores_of(
    alloc: Global,
    pending: &Pending,
    check: &Check<'_>,
    groups: &BTreeMap<u128, Group>,
) -> Result<Row<StoreReport>, NoMemory>
    requires { StoresAscend 0 (2 ^ 128) pending.now.stores.items }
    ensures stated { IfOk result (λ stores. stores
        ≡ stores_stated check.now.births.now check.now.fence pending.now.stores.items groups.now.entries) }
    ensures ordered { tree.IsOrdered nat_cmp groups.now }
{
    let mut stores = Row::new(alloc);
    'each: for (tag, group) in groups.iter() {
        add_store(pending, check, *tag, *group, &mut stores)?;
    }
    Ok(stores)
}

fn add_store(
    pending: &Pending,
    check: &Check<'_>,
    tag: u128,
    group: Group,
    stores: &mut Row<StoreReport>,
) -> Result<(), NoMemory>
    requires { StoresAscend 0 (2 ^ 128) pending.now.stores.items }
    ensures { OnOk result (stores.new ≡ stores.old ++ store_in check.now.births.now check.now.fence
        (note_of pending.now.stores.items tag) group) }
{
    match pending.find(tag) {
        Some(note) => stores.push(store_of(note, check, group)?),
        None => Ok(()),
    }
}

// What a check reports of a store.
fn store_of(note: &StoreNote, check: &Check<'_>, group: Group) -> Result<StoreReport, NoMemory>
    ensures { IfOk result (λ store. store
        ≡ store_stated check.now.births.now check.now.fence note.now group) }
{
    Ok(StoreReport {
        entry: note.entry,
        kind: kind_of(group.flushed, is_before(note.tag, check.fence)),
        flush_site: site_stated(group.flushed, group.latest),
        path: SharedPath::new(note.site, &note.calls)?,
        closed: note.calls.closed(check.births),
    })
}

fn is_before(tag: u128, fence: Option<u128>) -> bool
    ensures { result ≡ is_before tag fence }
{
    match fence {
        Some(fence) => tag < fence,
        None => false,
    }
}

fn kind_of(flushed: bool, fenced: bool) -> Kind
    ensures { result ≡ kind_of flushed fenced }
{
    if flushed {
        return Kind::MissingFence;
    }
    if fenced {
        Kind::MissingFlush
    } else {
        Kind::MissingBoth
    }
}

fn site_stated(flushed: bool, latest: Option<FlushNote>) -> Option<Site>
    ensures { result ≡ site_stated flushed latest }
{
    if !flushed {
        return None;
    }
    match latest {
        Some(flush) => Some(flush.site),
        None => None,
    }
}
