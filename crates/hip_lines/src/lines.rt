ghost use Rattle.std.specs.Prelude.{◌≡◌, ◌+◌, ◌*◌, ◌/◌, ◌%◌, ◌<◌, ◌≤◌, length, IfOk, IsOk, OnOk, OnErr, Some, None};
ghost use Rattle.hip_lines.specs.Parts.{pending_stored, pending_flushed_all, pending_fenced_all, none_pending_all, loose_from, KeepsRoom, LiesIn};

use crate::kept::{ensure_room, fence_in, flush_at, flush_in, make_room_in, push_in};
use crate::loose::NotDurable;
use crate::queues::Queues;
use hip_types::{LARGEST_REGION, LINE_SIZE, NoMemory};
use std::alloc::Global;
use std::marker::Model;

/// The lines of a region; contracts see the pending parts of each line and the room that was made.
#[derive(Drop)]
pub struct Lines {
    count: u64,
    // The queues of the lines that hold something, by line number.
    queues: Queues,
    // The lines that hold flushed parts, each once, with room for every line that has a queue.
    flushed: Vec<u64>,
    room: Option<(u64, u32)>,
}

impl Model for Lines {
    ghost use Rattle.hip_lines.specs.Parts.{Held};

    ghost Value = { Held };

    ghost use Rattle.hip_lines.specs.Views.{held_of, QueuesAreKept};

    ghost view = { held_of };

    ghost invariant = { QueuesAreKept };
}

impl Lines {
    /// The lines of a region of `size` bytes, into which nothing was stored.
    pub fn new(alloc: Global, size: u64) -> Result<Lines, NoMemory>
        requires whole { size % LINE_SIZE ≡ 0 }
        requires small { size ≤ LARGEST_REGION }
        ensures lines { IfOk result (λ lines. lines.lines ≡ none_pending_all (size / LINE_SIZE)) }
        ensures length { IfOk result (λ lines. length lines.lines ≡ size / LINE_SIZE) }
        ensures room { IfOk result (λ lines. lines.room ≡ None) }
    {
        Ok(Lines {
            count: size / LINE_SIZE,
            queues: Queues::new(alloc)?,
            flushed: Vec::new(alloc),
            room: None,
        })
    }

    /// Makes room for the parts of a store, so that `note_store` of this store allocates no memory.
    pub fn make_room(&mut self, offset: u64, size: u32) -> Result<(), NoMemory>
        requires { LiesIn self.old.lines offset size }
        ensures lines { self.new.lines ≡ self.old.lines }
        ensures ok { OnOk result (self.new.room ≡ Some (offset, size)) }
        ensures err { OnErr result (self.new.room ≡ None) }
    {
        self.room = None;
        make_room_in(&mut self.queues, &mut self.flushed, offset, size)?;
        self.room = Some((offset, size));
        Ok(())
    }

    /// Notes the one or two parts of a store, each at the end of its line. If this fails, it notes no part.
    pub fn note_store(&mut self, offset: u64, size: u32, tag: u128) -> Result<(), NoMemory>
        requires { LiesIn self.old.lines offset size }
        ensures ok { OnOk result (self.new.lines ≡ pending_stored offset size tag self.old.lines) }
        ensures no_room { OnOk result (self.new.room ≡ None) }
        ensures err { OnErr result (self.new ≡ self.old) }
        ensures length { length self.new.lines ≡ length self.old.lines }
        ensures ready { self.old.room ≡ Some (offset, size) → IsOk result }
    {
        ensure_room(&mut self.queues, &mut self.flushed, self.room, offset, size)?;
        self.room = None;
        push_in(&mut self.queues, offset, size, tag);
        Ok(())
    }

    /// Flushes the line that contains the offset.
    pub fn flush(&mut self, offset: u64)
        requires { offset < LINE_SIZE * length self.old.lines }
        ensures lines { self.new.lines ≡ pending_flushed_all offset 1 self.old.lines }
        ensures length { length self.new.lines ≡ length self.old.lines }
        ensures room { KeepsRoom self.old self.new }
    {
        if flush_at(&mut self.queues, &mut self.flushed, offset / LINE_SIZE) {
            self.room = None;
        }
    }

    /// Flushes each line that has a byte of the range, in time linear in the lines that hold something.
    pub fn flush_range(&mut self, offset: u64, len: u64)
        requires some { 0 < len }
        requires within { offset + len ≤ LINE_SIZE * length self.old.lines }
        ensures lines { self.new.lines ≡ pending_flushed_all offset len self.old.lines }
        ensures length { length self.new.lines ≡ length self.old.lines }
        ensures room { KeepsRoom self.old self.new }
    {
        if flush_in(&mut self.queues, &mut self.flushed, offset, len) {
            self.room = None;
        }
    }

    /// Makes all flushed parts durable.
    pub fn fence(&mut self)
        ensures lines { self.new.lines ≡ pending_fenced_all self.old.lines }
        ensures length { length self.new.lines ≡ length self.old.lines }
        ensures room { KeepsRoom self.old self.new }
    {
        if !self.flushed.is_empty() {
            fence_in(&mut self.queues, self.flushed.as_slice());
            self.flushed.clear();
            self.room = None;
        }
    }

    /// The bytes of a range that are not durable, ascending, each by the last part over it.
    pub fn not_durable(&self, from: u64, len: u64) -> NotDurable<'_>
        requires { from + len ≤ LINE_SIZE * length self.now.lines }
        ensures { result ≡ loose_from self.now.lines from len }
    {
        NotDurable::new(&self.queues, from, len)
    }
}
