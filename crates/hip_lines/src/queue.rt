ghost use Rattle.std.specs.Prelude.{◌^◌, ◌≡◌, ◌≢◌, ◌+◌, ◌-◌, ◌*◌, ◌/◌, ◌%◌, ◌<◌, ◌≤◌, true, false, length, vec_len, vec_capacity, OnOk, None};
ghost use Rattle.hip_lines.specs.Shown.{Shows, AreNumbers};
ghost use Rattle.hip_types.specs.declared.areas.TheConstants.{LINE_SIZE};

use crate::history::{Change, History};
use crate::numbers::{keep_used, let_go, note_uses, number_bytes, renumber_bytes};
use crate::part::{LooseByte, Part};
use hip_types::{LINE_SIZE, NoMemory};
use std::alloc::Global;

/// The pending parts of one line. Of each part that a byte of the line still shows, the queue keeps the tag. It removes
/// the other parts from time to time, so a line needs memory for only a few parts, however many stores there are.
#[derive(Drop)]
pub struct Queue {
    pub line: u64,
    // The tags of the kept parts, in the order of their stores, which are numbered from 1. The first ones are flushed.
    tags: Vec<u128>,
    flushed: usize,
    // For each byte of the line the number of the last part over it, or 0 if no pending part covers it.
    numbers: [u8; LINE_SIZE as usize],
    pub history: History,
    ghost within: { flushed ≤ length tags.items },
    ghost few: { length tags.items < 2 ^ 8 },
    ghost numbered: { AreNumbers (length tags.items) numbers },
    ghost shows: { Shows tags.items flushed numbers line history.pending },
}

impl Queue {
    // The most tags that a queue keeps before it checks which of them a byte shows.
    const FEW: usize = 32;

    ghost use Rattle.hip_lines.specs.Pending.{none_pending, pending_with, pending_flushed, pending_fenced};
    ghost use Rattle.hip_lines.specs.Parts.{loose_in};
    ghost use Rattle.hip_lines.specs.Next.{IsFirstLoose};
    ghost use Rattle.hip_lines.specs.Queues.{pending_in, QueueHasRoom};

    pub fn new(alloc: Global, line: u64) -> Queue
        ensures line { result.line ≡ line }
        ensures pending { pending_in result ≡ none_pending }
    {
        Queue {
            line,
            tags: Vec::new(alloc),
            flushed: 0,
            numbers: [0; 64],
            history: History::new(),
        }
    }

    /// Makes this the empty queue of another line. The room stays.
    pub fn restart(&mut self, line: u64)
        ensures line { self.new.line ≡ line }
        ensures pending { pending_in self.new ≡ none_pending }
    {
        self.line = line;
        self.tags.clear();
        self.flushed = 0;
        self.numbers = [0; 64];
        let history = History::new();
        self.history = history;
    }

    /// Whether all pending parts are flushed.
    #[inline(always)]
    pub fn is_flushed(&self) -> bool
        ensures yes { result ≡ true → (pending_in self.now).flushed ≡ length (pending_in self.now).parts }
        ensures no { result ≡ false → (pending_in self.now).flushed ≢ length (pending_in self.now).parts }
    {
        self.flushed == self.tags.len()
    }

    /// Whether no pending part is flushed.
    #[inline(always)]
    pub fn none_flushed(&self) -> bool
        ensures yes { result ≡ true → (pending_in self.now).flushed ≡ 0 }
        ensures no { result ≡ false → 0 < (pending_in self.now).flushed }
    {
        self.flushed == 0
    }

    /// Whether no part is pending.
    #[inline(always)]
    pub fn is_empty(&self) -> bool
        ensures { result ≡ true → pending_in self.now ≡ none_pending }
    {
        self.tags.is_empty()
    }

    /// Makes room for one more part. The parts stay, whether or not this succeeds.
    #[inline(always)]
    pub fn make_room(&mut self) -> Result<(), NoMemory>
        ensures line { self.new.line ≡ self.old.line }
        ensures pending { pending_in self.new ≡ pending_in self.old }
        ensures kept { QueueHasRoom self.old → QueueHasRoom self.new }
        ensures ok { OnOk result (QueueHasRoom self.new) }
    {
        if self.tags.len() < self.tags.capacity() && self.tags.len() < 255 {
            return Ok(());
        }
        self.grow()
    }

    // Makes room for one more tag, and for as many as there are if memory allows it.
    #[inline(never)]
    fn grow(&mut self) -> Result<(), NoMemory>
        ensures line { self.new.line ≡ self.old.line }
        ensures pending { pending_in self.new ≡ pending_in self.old }
        ensures ok { OnOk result (QueueHasRoom self.new) }
    {
        self.keep_few();
        if double_room(&mut self.tags) {
            Ok(())
        } else {
            Err(NoMemory)
        }
    }

    // Removes the tags that no byte shows, if there are many tags.
    fn keep_few(&mut self)
        ensures line { self.new.line ≡ self.old.line }
        ensures history { self.new.history ≡ self.old.history }
        ensures few { length self.new.tags.items ≤ 128 }
    {
        if self.tags.len() >= Self::FEW {
            self.keep_shown();
        }
    }

    // Removes the tags that no byte shows, except the last one and the last flushed one.
    fn keep_shown(&mut self)
        ensures line { self.new.line ≡ self.old.line }
        ensures history { self.new.history ≡ self.old.history }
        ensures few { length self.new.tags.items ≤ 128 }
    {
        let mut news = [0u8; 256];
        note_uses(&mut news, &self.numbers, self.flushed, self.tags.len());
        keep_used(&mut news, &mut self.tags);
        let flushed = news[self.flushed] as usize;
        self.flushed = flushed;
        renumber_bytes(&mut self.numbers, &news);
    }

    /// Adds a part of the line, in the room that was made for it.
    #[inline(always)]
    pub fn push(&mut self, part: Part)
        requires room { QueueHasRoom self.old }
        requires first { part.offset / LINE_SIZE ≡ self.old.line }
        requires last { part.offset + part.size ≤ LINE_SIZE * self.old.line + LINE_SIZE }
        ensures line { self.new.line ≡ self.old.line }
        ensures pending { pending_in self.new ≡ pending_with part (pending_in self.old) }
    {
        let from = (part.offset % LINE_SIZE) as usize;
        let number = (self.tags.len() + 1) as u8;
        number_bytes(&mut self.numbers, from, part.size as usize, number);
        self.tags.push_reserved(part.tag);
        let history = self.history.then(&Change::Store(part));
        self.history = history;
    }

    #[inline(always)]
    pub fn flush(&mut self)
        ensures line { self.new.line ≡ self.old.line }
        ensures pending { pending_in self.new ≡ pending_flushed (pending_in self.old) }
    {
        let count = self.tags.len();
        self.flushed = count;
        let history = self.history.then(&Change::Flush);
        self.history = history;
    }

    /// Removes the flushed parts, which are now durable.
    #[inline(always)]
    pub fn fence(&mut self)
        ensures line { self.new.line ≡ self.old.line }
        ensures pending { pending_in self.new ≡ pending_fenced (pending_in self.old) }
    {
        let_go(&mut self.tags, &mut self.numbers, self.flushed);
        self.flushed = 0;
        let history = self.history.then(&Change::Fence);
        self.history = history;
    }

    /// The first loose byte from one offset up to another. Both offsets are in the line.
    pub fn first_loose(&self, from: u64, to: u64) -> Option<LooseByte>
        requires line { LINE_SIZE * self.now.line ≤ from }
        requires end { to ≤ LINE_SIZE * self.now.line + LINE_SIZE }
        ensures { IsFirstLoose (pending_in self.now) from to result }
    {
        for offset in from..to {
            if let Some(found) = self.loose_byte(offset) {
                return Some(found);
            }
        }
        None
    }

    /// The byte at this offset of the line, if it is loose.
    pub fn loose_byte(&self, offset: u64) -> Option<LooseByte>
        requires { offset / LINE_SIZE ≡ self.now.line }
        ensures { result ≡ loose_in (pending_in self.now) offset }
    {
        let number = self.numbers[(offset % LINE_SIZE) as usize] as usize;
        if number == 0 {
            return None;
        }
        let tag = self.tags[number - 1];
        Some(LooseByte {
            offset,
            tag,
            flushed: number - 1 < self.flushed,
        })
    }
}

// Makes room for one more tag, and for as many as there are if memory allows it. Returns false if there is no room.
fn double_room(tags: &mut Vec<u128>) -> bool
    ensures same { tags.new.items ≡ tags.old.items }
    ensures room { result ≡ true → vec_len tags.new < vec_capacity tags.new }
{
    let len = tags.len();
    let has_more = tags.reserve_exact(len.max(1)).is_ok();
    has_more || len < tags.capacity()
}
