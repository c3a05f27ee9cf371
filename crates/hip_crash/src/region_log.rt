//! What a log keeps of the region.

ghost use Rattle.std.specs.Prelude.{◌≡◌, ℕ, ◌+◌, ◌-◌, ◌*◌, ◌^◌, ◌<◌, ◌≤◌, List, cond, length, is_ok, IfOk, OnOk};
ghost use Rattle.hip_lines.specs.Line.{has_bytes};
ghost use Rattle.hip_types.specs.declared.areas.TheConstants.{LINE_SIZE};
ghost use Rattle.hip_crash.specs.Kept.{with_fence, with_flush, with_store};
ghost use Rattle.hip_crash.specs.KeptLines.{AreListed};
ghost use Rattle.hip_crash.specs.Now.{fresh};
ghost use Rattle.hip_crash.specs.Views.{later_in};
ghost use Rattle.hip_crash.specs.PendingChange.{WaitsWithin, waiting_in};
ghost use Rattle.hip_crash.specs.declared.pending_change.Waiting.TheVariants as waits;

use crate::changes::{end_line, fence_in, flush_in, persist_in, push_in};
use crate::kept_lines::KeptLines;
use crate::pending_change::Waiting;
use crate::values::StoredValue;
use crate::views::LineView;
use hip_image::Image;
use hip_types::{LINE_SIZE, NoMemory};
use std::alloc::Global;

/// What is kept of the region.
#[derive(Drop)]
pub struct RegionLog {
    lines: KeptLines,
    // All lines that hold flushed stores.
    flushed: Vec<u64>,
    waiting: Waiting,
    ghost listed: { AreListed flushed.items lines },
}

#[tactic(auto, unfolding(crate::specs::Region::seen_at))]
impl RegionLog {
    ghost use Rattle.hip_crash.specs.Region.{LogHasRoom, seen_at};

    /// Nothing was stored into the region.
    pub fn new(alloc: Global) -> Result<RegionLog, NoMemory>
        ensures seen { IfOk result (λ log. (image : List ℕ) → (j : ℕ)
            → seen_at log image j ≡ fresh image j) }
        ensures idle { IfOk result (λ log. log.waiting ≡ waits.Nothing) }
    {
        let lines = KeptLines::new(alloc)?;
        Ok(RegionLog {
            lines,
            flushed: Vec::new(alloc),
            waiting: Waiting::Nothing,
        })
    }

    /// Takes up what waits. What is seen of the lines does not change, even if memory runs out.
    #[inline(always)]
    pub fn take_up(&mut self, image: &Image) -> Result<(), NoMemory>
        requires room { LogHasRoom self.old image.now }
        requires within { WaitsWithin self.old.waiting image.now }
        ensures same { (j : ℕ) → seen_at self.new image.now j ≡ seen_at self.old image.now j }
        ensures within { WaitsWithin self.new.waiting image.now }
        ensures ok { OnOk result (self.new.waiting ≡ waits.Nothing) }
    {
        match self.waiting {
            Waiting::Nothing => Ok(()),
            _ => self.take_up_last(image),
        }
    }

    #[inline(never)]
    fn take_up_last(&mut self, image: &Image) -> Result<(), NoMemory>
        requires room { LogHasRoom self.old image.now }
        requires within { WaitsWithin self.old.waiting image.now }
        ensures same { (j : ℕ) → seen_at self.new image.now j ≡ seen_at self.old image.now j }
        ensures within { WaitsWithin self.new.waiting image.now }
        ensures ok { OnOk result (self.new.waiting ≡ waits.Nothing) }
    {
        match self.waiting {
            Waiting::Nothing => Ok(()),
            Waiting::Store { stored, from } => self.take_up_store(image, stored, from),
            Waiting::Flush { offset, len } => self.take_up_flush(offset, len),
        }
    }

    fn take_up_store(
        &mut self,
        image: &Image,
        stored: StoredValue,
        from: u64,
    ) -> Result<(), NoMemory>
        requires room { LogHasRoom self.old image.now }
        requires within { stored.offset + stored.size ≤ length image.now }
        requires waiting { self.old.waiting ≡ waits.Store stored from }
        ensures same { (j : ℕ) → seen_at self.new image.now j ≡ seen_at self.old image.now j }
        ensures within { WaitsWithin self.new.waiting image.now }
        ensures ok { OnOk result (self.new.waiting ≡ waits.Nothing) }
    {
        let end = end_line(stored.offset, stored.size as u64);
        let first = from.max(stored.offset / LINE_SIZE);
        'parts: for line in first..end {
            push_in(&mut self.lines, image, line, stored)?;
            self.waiting = Waiting::Store {
                stored,
                from: line + 1,
            };
        }
        self.waiting = Waiting::Nothing;
        Ok(())
    }

    fn take_up_flush(&mut self, offset: u64, len: u64) -> Result<(), NoMemory>
        requires fits { offset + len < 2 ^ 40 }
        requires waiting { self.old.waiting ≡ waits.Flush offset len }
        ensures same { (image : List ℕ) → (j : ℕ) → seen_at self.new image j ≡ seen_at self.old image j }
        ensures waiting { self.new.waiting ≡ cond (is_ok result) waits.Nothing self.old.waiting }
    {
        flush_in(&mut self.lines, &mut self.flushed, offset, len)?;
        self.waiting = Waiting::Nothing;
        Ok(())
    }

    /// Notes a store.
    #[inline]
    pub fn note_store(&mut self, stored: StoredValue)
        requires { self.old.waiting ≡ waits.Nothing }
        ensures waiting { self.new.waiting ≡ waits.Store stored 0 }
        ensures seen { (image : List ℕ) → (j : ℕ) → seen_at self.new image j
            ≡ cond (has_bytes j stored.offset stored.size) (with_store stored (seen_at self.old image j))
            (seen_at self.old image j) }
    {
        self.waiting = Waiting::Store { stored, from: 0 };
    }

    /// Notes a flush of the lines that have a byte of a range.
    #[inline]
    pub fn note_flush(&mut self, offset: u64, len: u64)
        requires { self.old.waiting ≡ waits.Nothing }
        ensures waiting { self.new.waiting ≡ waits.Flush offset len }
        ensures seen { (image : List ℕ) → (j : ℕ) → seen_at self.new image j
            ≡ cond (has_bytes j offset len) (with_flush (seen_at self.old image j)) (seen_at self.old image j) }
    {
        self.waiting = Waiting::Flush { offset, len };
    }

    /// Notes a fence.
    #[inline]
    pub fn note_fence(&mut self)
        requires { self.old.waiting ≡ waits.Nothing }
        ensures waiting { self.new.waiting ≡ waits.Nothing }
        ensures seen { (image : List ℕ) → (j : ℕ)
            → seen_at self.new image j ≡ with_fence j (seen_at self.old image j) }
    {
        fence_in(&mut self.lines, self.flushed.as_slice());
        self.flushed.clear();
    }

    /// Notes a flush of the lines that have a byte of a range, followed by a fence.
    #[inline]
    pub fn note_persist(&mut self, offset: u64, len: u64)
        requires waiting { self.old.waiting ≡ waits.Nothing }
        requires fits { offset + len < 2 ^ 40 }
        ensures waiting { self.new.waiting ≡ waits.Nothing }
        ensures seen { (image : List ℕ) → (j : ℕ) → seen_at self.new image j
            ≡ with_fence j (cond (has_bytes j offset len) (with_flush (seen_at self.old image j))
            (seen_at self.old image j)) }
    {
        persist_in(&mut self.lines, offset, len);
        self.note_fence();
    }

    /// What is seen of a line.
    pub fn view(&self, image: &Image, line: u64) -> LineView<'_>
        requires { LINE_SIZE * line + LINE_SIZE ≤ length image.now }
        ensures bytes { result.bytes ≡ (seen_at self.now image.now line).bytes }
        ensures least { result.least ≡ (seen_at self.now image.now line).least }
        ensures later { later_in result ≡ (seen_at self.now image.now line).later }
    {
        let _len = image.len();
        let last = waiting_part(self.waiting, line);
        match self.lines.get(line) {
            Some(kept) => LineView {
                bytes: kept.bytes,
                least: kept.least,
                later: kept.later.as_slice(),
                last,
            },
            None => LineView {
                bytes: image.line(line),
                least: 0,
                later: &[],
                last,
            },
        }
    }
}

// The store whose part in a line waits to be taken up, if one does.
fn waiting_part(waiting: Waiting, line: u64) -> Option<StoredValue>
    requires { LINE_SIZE * line + LINE_SIZE < 2 ^ 64 - 1 }
    ensures { result ≡ waiting_in waiting line }
{
    match waiting {
        Waiting::Store { stored, from } => {
            if from <= line && has_part(stored, line) {
                Some(stored)
            } else {
                None
            }
        }
        _ => None,
    }
}

// Whether a store has a byte in a line.
fn has_part(stored: StoredValue, line: u64) -> bool
    requires { LINE_SIZE * line + LINE_SIZE < 2 ^ 64 - 1 }
    ensures { result ≡ has_bytes line stored.offset stored.size }
{
    let start = stored.offset.max(line * LINE_SIZE);
    let end = stored
        .offset
        .saturating_add(stored.size as u64)
        .min(line * LINE_SIZE + LINE_SIZE);
    start < end
}
