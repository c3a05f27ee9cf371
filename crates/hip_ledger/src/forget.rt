ghost use Rattle.std.specs.Prelude.{◌≡◌, ℕ, ◌+◌, ◌*◌, ◌/◌, ◌≤◌, ◌<◌, ◌^◌, ◌++◌, Some, true, filter, length, IfOk, OnOk, IsSome};
ghost use Rattle.std.specs.List.{flat_map};
ghost use Rattle.std.specs.Ordering.{nat_cmp};
ghost use Rattle.std.specs.BTreeSet as bag;
ghost use Rattle.hip_lines.specs.Parts.{loose_from};
ghost use Rattle.hip_lines.specs.declared.part.LooseByte.{LooseByte as Byte};
ghost use Rattle.hip_runs.specs.StoredParts.Parts.{In};
ghost use Rattle.hip_ledger.specs.declared.pending.FlushNote.{FlushNote as Flush};
ghost use Rattle.hip_ledger.specs.declared.pending.LineNote.{LineNote as Line};
ghost use Rattle.hip_ledger.specs.Noted.{HasLine, IsForgotten, IsThinned, KeepsNote, MayThin, flush_among};
ghost use Rattle.hip_ledger.specs.Pending.{FlushesAscend, first_after, lines_of};

use crate::pending::{FlushNote, LineNote, Pending, first_after};
use hip_lines::{Lines, LooseByte};
use hip_types::{LINE_SIZE, NoMemory, Row};
use std::alloc::Global;
use std::collections::{BTreeMap, BTreeSet};

/// What reports of loose bytes need: the steps of the stores by which they are loose, and the notes of their lines.
#[derive(Drop)]
pub struct NeededNotes {
    pub tags: BTreeSet<u128>,
    pub lines: BTreeMap<u64, LineNote>,
}

/// Drops the ledger that no loose byte of a region needs. Out of memory, all of them stay.
pub fn forget_in(alloc: Global, pending: &mut Pending, lines: &Lines, region: u64)
    requires region { region ≡ LINE_SIZE * length lines.now.lines }
    requires flushes { (j : ℕ) → (l : Line) → lines_of pending.old.lines j ≡ Some l
        → FlushesAscend 0 (2 ^ 128) l.flushes }
    ensures { IsForgotten lines.now.lines region pending.old pending.new }
{
    match needed_in(alloc, &pending.lines, lines, region) {
        Ok(needed) => keep(pending, needed),
        Err(_) => {}
    }
}

// Keeps the stores of these steps and these notes of lines.
fn keep(pending: &mut Pending, needed: NeededNotes)
    ensures stores { pending.new.stores.items
        ≡ filter (λ note. bag.contains nat_cmp needed.tags note.tag) pending.old.stores.items }
    ensures lines { pending.new.lines ≡ needed.lines }
{
    let NeededNotes { tags, lines } = needed;
    pending.stores.retain(|note| tags.contains(&note.tag));
    pending.lines = lines;
}

// What the loose bytes of a region need.
fn needed_in(
    alloc: Global,
    notes: &BTreeMap<u64, LineNote>,
    lines: &Lines,
    region: u64,
) -> Result<NeededNotes, NoMemory>
    requires region { region ≡ LINE_SIZE * length lines.now.lines }
    requires flushes { (j : ℕ) → (l : Line) → lines_of notes.now j ≡ Some l
        → FlushesAscend 0 (2 ^ 128) l.flushes }
    ensures tags { IfOk result (λ needed. (x : Byte) → In x (loose_from lines.now.lines 0 region)
        → bag.contains nat_cmp needed.tags x.tag ≡ true) }
    ensures there { IfOk result (λ needed. (x : Byte) → In x (loose_from lines.now.lines 0 region)
        → IsSome (lines_of notes.now (x.offset / LINE_SIZE))
        → IsSome (lines_of needed.lines (x.offset / LINE_SIZE))) }
    ensures lines { IfOk result (λ needed. (j : ℕ)
        → MayThin lines.now.lines j (lines_of notes.now j) (lines_of needed.lines j)) }
{
    let mut needed = NeededNotes {
        tags: BTreeSet::new(alloc),
        lines: no_lines(alloc),
    };
    let mut last_tag = None;
    let mut last_line = None;
    'bytes: for byte in lines.not_durable(0, region) {
        let line = byte.offset / LINE_SIZE;
        meet_tag(&mut needed.tags, last_tag, byte.tag)?;
        meet_line(alloc, notes, lines, last_line, line, &mut needed.lines)?;
        last_tag = Some(byte.tag);
        last_line = Some(line);
    }
    Ok(needed)
}

fn no_lines(alloc: Global) -> BTreeMap<u64, LineNote>
    ensures { (j : ℕ) → lines_of result j ≡ None }
{
    BTreeMap::new(alloc)
}

// Adds a tag, unless it is the one that was added last.
fn meet_tag(tags: &mut BTreeSet<u128>, last: Option<u128>, tag: u128) -> Result<(), NoMemory>
    requires { (t : ℕ) → last ≡ Some t → bag.contains nat_cmp tags.old t ≡ true }
    ensures here { OnOk result (bag.contains nat_cmp tags.new tag ≡ true) }
    ensures others { OnOk result ((t : ℕ) → bag.contains nat_cmp tags.old t ≡ true
        → bag.contains nat_cmp tags.new t ≡ true) }
{
    if last == Some(tag) {
        return Ok(());
    }
    put_step(tags, tag)
}

fn put_step(steps: &mut BTreeSet<u128>, step: u128) -> Result<(), NoMemory>
    ensures here { OnOk result (bag.contains nat_cmp steps.new step ≡ true) }
    ensures others { OnOk result ((t : ℕ) → bag.contains nat_cmp steps.old t ≡ true
        → bag.contains nat_cmp steps.new t ≡ true) }
{
    match steps.insert(step) {
        Ok(_) => Ok(()),
        Err(_) => Err(NoMemory),
    }
}

// Keeps the note of a line, if it has one, unless the line is the one that was met last.
fn meet_line(
    alloc: Global,
    notes: &BTreeMap<u64, LineNote>,
    lines: &Lines,
    last: Option<u64>,
    line: u64,
    kept: &mut BTreeMap<u64, LineNote>,
) -> Result<(), NoMemory>
    requires line { HasLine lines.now.lines line }
    requires flushes { (j : ℕ) → (l : Line) → lines_of notes.now j ≡ Some l
        → FlushesAscend 0 (2 ^ 128) l.flushes }
    requires last { (j : ℕ) → last ≡ Some j → IsSome (lines_of notes.now j) → IsSome (lines_of kept.old j) }
    requires old { (j : ℕ) → MayThin lines.now.lines j (lines_of notes.now j) (lines_of kept.old j) }
    ensures kept { OnOk result (KeepsNote notes.now line kept.old kept.new) }
    ensures new { OnOk result ((j : ℕ) → MayThin lines.now.lines j (lines_of notes.now j) (lines_of kept.new j)) }
{
    if last == Some(line) || kept.contains_key(&line) {
        return Ok(());
    }
    match notes.get(&line) {
        Some(note) => put_line(
            kept,
            line,
            LineNote {
                stored: note.stored,
                flushes: thinned(alloc, &note.flushes, lines, line)?,
            },
        ),
        None => Ok(()),
    }
}

fn put_line(kept: &mut BTreeMap<u64, LineNote>, line: u64, note: LineNote) -> Result<(), NoMemory>
    ensures here { OnOk result (lines_of kept.new line ≡ Some note) }
    ensures others { OnOk result ((j : ℕ) → (j ≡ line → ⊥) → lines_of kept.new j ≡ lines_of kept.old j) }
{
    match kept.insert(line, note) {
        Ok(_) => Ok(()),
        Err(_) => Err(NoMemory),
    }
}

// The flushes of a line that its loose bytes need.
fn thinned(
    alloc: Global,
    flushes: &Row<FlushNote>,
    lines: &Lines,
    line: u64,
) -> Result<Row<FlushNote>, NoMemory>
    requires line { HasLine lines.now.lines line }
    requires flushes { FlushesAscend 0 (2 ^ 128) flushes.now }
    ensures { IfOk result (λ new. IsThinned lines.now.lines line flushes.now new) }
{
    let steps = steps_in(alloc, flushes, lines, LINE_SIZE * line, LINE_SIZE)?;
    flushes_among(alloc, &steps, flushes.as_slice())
}

// The steps of the flushes that are the first after the store of a loose byte of a range.
fn steps_in(
    alloc: Global,
    flushes: &Row<FlushNote>,
    lines: &Lines,
    offset: u64,
    size: u64,
) -> Result<BTreeSet<u128>, NoMemory>
    requires within { offset + size ≤ LINE_SIZE * length lines.now.lines }
    requires flushes { FlushesAscend 0 (2 ^ 128) flushes.now }
    ensures { IfOk result (λ steps. (x : Byte) → In x (loose_from lines.now.lines offset size)
        → (f : Flush) → first_after x.tag flushes.now ≡ Some f → bag.contains nat_cmp steps f.step ≡ true) }
{
    let mut steps = BTreeSet::new(alloc);
    'bytes: for byte in lines.not_durable(offset, size) {
        meet_flush(&mut steps, flushes, byte)?;
    }
    Ok(steps)
}

fn meet_flush(
    steps: &mut BTreeSet<u128>,
    flushes: &Row<FlushNote>,
    byte: LooseByte,
) -> Result<(), NoMemory>
    requires { FlushesAscend 0 (2 ^ 128) flushes.now }
    ensures here { OnOk result ((f : Flush) → first_after byte.tag flushes.now ≡ Some f
        → bag.contains nat_cmp steps.new f.step ≡ true) }
    ensures others { OnOk result ((t : ℕ) → bag.contains nat_cmp steps.old t ≡ true
        → bag.contains nat_cmp steps.new t ≡ true) }
{
    match first_after(flushes.as_slice(), byte.tag) {
        Some(flush) => put_step(steps, flush.step),
        None => Ok(()),
    }
}

// The flushes of these steps.
fn flushes_among(
    alloc: Global,
    steps: &BTreeSet<u128>,
    flushes: &[FlushNote],
) -> Result<Row<FlushNote>, NoMemory>
    ensures { IfOk result (λ kept. kept ≡ flat_map (flush_among (bag.contains nat_cmp steps.now)) flushes.now) }
{
    let mut kept = Row::new(alloc);
    'each: for flush in flushes {
        push_among(&mut kept, steps, *flush)?;
    }
    Ok(kept)
}

fn push_among(
    kept: &mut Row<FlushNote>,
    steps: &BTreeSet<u128>,
    flush: FlushNote,
) -> Result<(), NoMemory>
    ensures { OnOk result (kept.new ≡ kept.old ++ flush_among (bag.contains nat_cmp steps.now) flush) }
{
    if steps.contains(&flush.step) {
        kept.push(flush)
    } else {
        Ok(())
    }
}
