ghost use Rattle.std.specs.Prelude.{◌≡◌, ℕ, ◌+◌, ◌-◌, ◌/◌, ◌<◌, ◌≤◌, ◌^◌, ◌++◌, ◌∷◌, [], Some, None, cond, true, option_map, OnOk, IfSome, IsSome};
ghost use Rattle.hip_lines.specs.Line.{has_bytes};
ghost use Rattle.hip_ledger.specs.Pending.{first_after, FlushesAscend, is_between, lines_of, note_of, StoresAscend, with_flush, with_store};

use hip_findings::CallPath;
use hip_tree::Site;
use hip_types::{LINE_SIZE, NoMemory, Row};
use std::alloc::Global;
use std::collections::BTreeMap;
use std::rc::Rc;

/// A store of the region that may still be reported.
#[derive(Drop)]
pub struct StoreNote {
    // How many steps were taken before it.
    pub tag: u128,
    pub entry: u128,
    pub site: Site,
    pub calls: Rc<CallPath>,
}

/// A flush, and how many steps were taken before it.
#[derive(Clone, Copy)]
pub struct FlushNote {
    pub step: u128,
    pub site: Site,
}

/// A cache line with a store that may still be reported.
#[derive(Drop)]
pub struct LineNote {
    // A store came since the last flush.
    pub stored: bool,
    // The noted flushes, the earliest one first. A flush is left out if no store came since the flush before it.
    pub flushes: Row<FlushNote>,
}

/// The stores that may still be reported, in the order of their steps, and their lines by number.
#[derive(Drop)]
pub struct Pending {
    pub stores: Vec<StoreNote>,
    pub lines: BTreeMap<u64, LineNote>,
}

impl Pending {
    /// No stores and no lines.
    pub fn new(alloc: Global) -> Pending
        ensures stores { result.stores.items ≡ [] }
        ensures lines { (j : ℕ) → lines_of result.lines j ≡ None }
    {
        Pending {
            stores: Vec::new(alloc),
            lines: BTreeMap::new(alloc),
        }
    }

    /// Notes a store of `size` bytes at an offset of the region.
    pub fn note_store(
        &mut self,
        alloc: Global,
        note: StoreNote,
        offset: u64,
        size: u64,
    ) -> Result<(), NoMemory>
        requires { offset + size < 2 ^ 64 }
        ensures stores { OnOk result (self.new.stores.items ≡ self.old.stores.items ++ note ∷ []) }
        ensures lines { OnOk result ((j : ℕ) → lines_of self.new.lines j ≡ cond (has_bytes j offset size)
            (Some (with_store (lines_of self.old.lines j))) (lines_of self.old.lines j)) }
    {
        match self.stores.push(note) {
            Ok(()) => {}
            Err(_) => return Err(NoMemory),
        }
        let range = lines_between(offset, size);
        'each: for line in range.first..range.end {
            match self.lines.get_mut(&line) {
                Some(note) => note.stored = true,
                None => {
                    let note = LineNote {
                        stored: true,
                        flushes: Row::new(alloc),
                    };
                    self.lines.insert(line, note)?;
                }
            }
        }
        Ok(())
    }

    /// Notes a flush of the lines that contain one of `size` bytes at an offset of the region, in time linear in those
    /// that have a note.
    pub fn note_flush(&mut self, flush: FlushNote, offset: u64, size: u64) -> Result<(), NoMemory>
        requires { offset + size < 2 ^ 64 }
        ensures stores { OnOk result (self.new.stores.items ≡ self.old.stores.items) }
        ensures lines { OnOk result ((j : ℕ) → lines_of self.new.lines j ≡ cond (has_bytes j offset size)
            (option_map (with_flush flush) (lines_of self.old.lines j)) (lines_of self.old.lines j)) }
    {
        let range = lines_between(offset, size);
        flush_lines(&mut self.lines, flush, range.first, range.end)
    }

    /// The note of the store that a step made.
    pub fn find(&self, tag: u128) -> Option<&StoreNote>
        requires { StoresAscend 0 (2 ^ 128) self.now.stores.items }
        ensures found { IfSome result (λ note. note_of self.now.stores.items tag ≡ Some note.now) }
        ensures there { IsSome (note_of self.now.stores.items tag) → IsSome result }
    {
        find_in(self.stores.as_slice(), tag)
    }
}

// A range of lines, from the first one up to the end.
#[derive(Clone, Copy)]
pub struct LineRange {
    pub first: u64,
    pub end: u64,
}

// The lines that contain one of `size` bytes at an offset.
fn lines_between(offset: u64, size: u64) -> LineRange
    requires { offset + size < 2 ^ 64 }
    ensures is { (j : ℕ) → is_between result.first result.end j ≡ has_bytes j offset size }
    ensures ordered { result.first ≤ result.end }
{
    if size == 0 {
        return LineRange { first: 0, end: 0 };
    }
    LineRange {
        first: offset / LINE_SIZE,
        end: (offset + size - 1) / LINE_SIZE + 1,
    }
}

// The note with a tag, in notes with ascending tags.
fn find_in(notes: &[StoreNote], tag: u128) -> Option<&StoreNote>
    requires { StoresAscend 0 (2 ^ 128) notes.now }
    ensures found { IfSome result (λ note. note_of notes.now tag ≡ Some note.now) }
    ensures there { IsSome (note_of notes.now tag) → IsSome result }
{
    let at = notes.partition_point(|note| note.tag < tag);
    match notes.get(at) {
        Some(note) => this_one(note, tag),
        None => None,
    }
}

// The note, if it has the tag.
fn this_one(note: &StoreNote, tag: u128) -> Option<&StoreNote>
    ensures found { IfSome result (λ found. (found.now ≡ note.now) × (note.now.tag ≡ tag)) }
    ensures there { note.now.tag ≡ tag → IsSome result }
{
    if note.tag == tag { Some(note) } else { None }
}

// Notes a flush of the lines from the first one up to the end, in time linear in those that have a note.
fn flush_lines(
    lines: &mut BTreeMap<u64, LineNote>,
    flush: FlushNote,
    first: u64,
    end: u64,
) -> Result<(), NoMemory>
    ensures { OnOk result ((j : ℕ) → lines_of lines.new j ≡ cond (is_between first end j)
        (option_map (with_flush flush) (lines_of lines.old j)) (lines_of lines.old j)) }
{
    if end.saturating_sub(first) == 1 {
        return flush_line(lines, flush, first);
    }
    flush_range(lines, flush, first, end)
}

fn flush_range(
    lines: &mut BTreeMap<u64, LineNote>,
    flush: FlushNote,
    first: u64,
    end: u64,
) -> Result<(), NoMemory>
    ensures { OnOk result ((j : ℕ) → lines_of lines.new j ≡ cond (is_between first end j)
        (option_map (with_flush flush) (lines_of lines.old j)) (lines_of lines.old j)) }
{
    let mut next = first;
    'each: while let Some(line) = first_line(lines, next, end) {
        flush_line(lines, flush, line)?;
        next = line + 1;
    }
    Ok(())
}

// The first line before the end, from a line on, that has a note.
fn first_line(lines: &BTreeMap<u64, LineNote>, from: u64, end: u64) -> Option<u64>
    ensures some { IfSome result (λ line. (from ≤ line) × (line < end) × IsSome (lines_of lines.now line)
        × ((j : ℕ)
        → from ≤ j → j < line → lines_of lines.now j ≡ None)) }
    ensures none { result ≡ None → (j : ℕ) → from ≤ j → j < end → lines_of lines.now j ≡ None }
{
    if end <= from {
        return None;
    }
    match lines.range(from..end).next() {
        Some((line, _)) => Some(*line),
        None => None,
    }
}

fn flush_line(
    lines: &mut BTreeMap<u64, LineNote>,
    flush: FlushNote,
    line: u64,
) -> Result<(), NoMemory>
    ensures here { OnOk result (lines_of lines.new line ≡ option_map (with_flush flush) (lines_of lines.old line)) }
    ensures others { OnOk result ((j : ℕ) → (j ≡ line → ⊥)
        → lines_of lines.new j ≡ lines_of lines.old j) }
{
    match lines.get_mut(&line) {
        Some(note) => note.flush(flush),
        None => Ok(()),
    }
}

impl LineNote {
    // Notes a flush, if a store came since the one before.
    fn flush(&mut self, flush: FlushNote) -> Result<(), NoMemory>
        ensures { OnOk result (self.new ≡ with_flush flush self.old) }
    {
        if self.stored {
            self.stored = false;
            self.flushes.push(flush)?;
        }
        Ok(())
    }
}

/// The first of the flushes after a step.
pub fn first_after(flushes: &[FlushNote], step: u128) -> Option<FlushNote>
    requires { FlushesAscend 0 (2 ^ 128) flushes.now }
    ensures { result ≡ first_after step flushes.now }
{
    let at = flushes.partition_point(|flush| flush.step <= step);
    match flushes.get(at) {
        Some(flush) => Some(*flush),
        None => None,
    }
}
