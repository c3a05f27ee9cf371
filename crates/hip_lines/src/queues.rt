//! The queues of the lines that hold something. A queue that a line gave back is used by the next line that needs one,
//! with the room that it has.

ghost use Rattle.std.specs.Prelude.{◌≡◌, ◌≢◌, ℕ, ◌+◌, ◌-◌, ◌*◌, ◌/◌, ◌<◌, ◌≤◌, ◌^◌, length, Option, Some, None, IsSome, true, slice_get, IfOk, OnOk, OnErr};
ghost use Rattle.std.specs.Option.{option_copied};
ghost use Rattle.hip_directory.specs.Directories.{number_at};
ghost use Rattle.hip_lines.specs.declared.queue.Queue.{Queue};
ghost use Rattle.hip_types.specs.declared.areas.TheConstants.{LINE_SIZE};
ghost use Rattle.hip_lines.specs.Pending.{none_pending, pending_with, pending_flushed, pending_fenced};
ghost use Rattle.hip_lines.specs.Queues.{pending_in, QueueHasRoom};
ghost use Rattle.hip_lines.specs.Places.{queue_in, QueuesArePlaced, KeepsOthers, ChangesPlace, IsFreshAt, IsFresh};

use crate::part::Part;
use crate::queue::Queue;
use hip_directory::Directory;
use hip_types::{LINE_SIZE, NoMemory};
use std::alloc::Global;

/// The queues of lines, by line number.
#[derive(Drop)]
pub struct Queues {
    alloc: Global,
    // For each line that has a queue, the place of that queue, counted from 1.
    directory: Directory,
    queues: Vec<Queue>,
    // The places of queues that lines gave back.
    free: Vec<u32>,
    ghost placed: { QueuesArePlaced directory queues.items },
}

#[tactic(auto, unfolding(crate::specs::Kept::queue_at, crate::specs::Kept::count_of))]
impl Queues {
    ghost use Rattle.hip_lines.specs.Kept.{queue_at, count_of, HasRoomAt, ChangesLine, GivesQueue};
    ghost use Rattle.hip_lines.specs.Next.{IsQueueFrom};

    /// No line has a queue.
    pub fn new(alloc: Global) -> Result<Queues, NoMemory>
        ensures none { IfOk result (λ queues. (j : ℕ) → queue_at queues j ≡ None) }
        ensures count { IfOk result (λ queues. count_of queues ≡ 0) }
    {
        let directory = Directory::new(alloc)?;
        Ok(Queues {
            alloc,
            directory,
            queues: Vec::new(alloc),
            free: Vec::new(alloc),
        })
    }

    /// How many queues were made.
    pub fn count(&self) -> usize
        ensures value { result ≡ count_of self.now }
        ensures small { result < 2 ^ 63 }
    {
        self.queues.len()
    }

    /// The queue of a line, if it has one.
    #[inline]
    pub fn get(&self, line: u64) -> Option<&Queue>
        ensures { option_copied result ≡ queue_at self.now line }
    {
        let place = self.directory.get(line) as usize;
        if place == 0 {
            return None;
        }
        self.queues.get(place - 1)
    }

    /// The first queue of a line from one up to another.
    pub fn first_from(&self, from: u64, to: u64) -> Option<&Queue>
        requires { to < 2 ^ 63 }
        ensures { IsQueueFrom self.now from to (option_copied result) }
    {
        match self.directory.first_set(from, to) {
            Some(line) => self.get(line),
            None => None,
        }
    }

    /// Gives a line an empty queue with room for one part.
    #[inline(never)]
    pub fn add(&mut self, line: u64) -> Result<(), NoMemory>
        requires { queue_at self.old line ≡ None }
        ensures ok { OnOk result (GivesQueue line self.old self.new) }
        ensures err { OnErr result ((j : ℕ) → queue_at self.new j ≡ queue_at self.old j) }
        ensures least { count_of self.old ≤ count_of self.new }
        ensures most { count_of self.new ≤ count_of self.old + 1 }
    {
        self.directory.make_room(line)?;
        let place = fresh_place(
            self.alloc,
            &self.directory,
            &mut self.queues,
            &mut self.free,
            line,
        )?;
        self.directory.set(line, place);
        Ok(())
    }

    /// Makes room for one more part of a line that has a queue. The parts stay, whether or not this succeeds.
    #[inline]
    pub fn make_room(&mut self, line: u64) -> Result<(), NoMemory>
        requires { IsSome (queue_at self.old line) }
        ensures changes { ChangesLine (λ w. w) line self.old self.new }
        ensures kept { HasRoomAt self.old line → HasRoomAt self.new line }
        ensures ok { OnOk result (HasRoomAt self.new line) }
    {
        let place = self.directory.get(line) as usize - 1;
        make_room_at(&mut self.queues, place)
    }

    /// Adds a part in the room that was made for it.
    #[inline]
    pub fn push(&mut self, line: u64, part: Part)
        requires room { HasRoomAt self.old line }
        requires first { part.offset / LINE_SIZE ≡ line }
        requires last { part.offset + part.size ≤ LINE_SIZE * line + LINE_SIZE }
        ensures { ChangesLine (pending_with part) line self.old self.new }
    {
        let place = self.directory.get(line) as usize - 1;
        push_at(&mut self.queues, place, part);
    }

    /// Flushes the parts of a line that has a queue.
    #[inline]
    pub fn flush(&mut self, line: u64)
        requires { IsSome (queue_at self.old line) }
        ensures { ChangesLine pending_flushed line self.old self.new }
    {
        let place = self.directory.get(line) as usize - 1;
        flush_at(&mut self.queues, place);
    }

    /// Removes the flushed parts of a line, and gives its queue back if nothing is left.
    #[inline]
    pub fn fence(&mut self, line: u64)
        ensures { ChangesLine pending_fenced line self.old self.new }
    {
        let place = self.directory.get(line);
        if place == 0 {
            return;
        }
        if fence_at(&mut self.queues, place as usize - 1) {
            self.directory.set(line, 0);
            give_back(&mut self.free, place - 1);
        }
    }
}

fn make_room_at(queues: &mut Vec<Queue>, place: usize) -> Result<(), NoMemory>
    requires { place < length queues.old.items }
    ensures changes { ChangesPlace (λ w. w) place queues.old.items queues.new.items }
    ensures kept { (q r : Queue) → slice_get queues.old.items place ≡ Some q
        → slice_get queues.new.items place ≡ Some r
        → QueueHasRoom q → QueueHasRoom r }
    ensures ok { OnOk result ((r : Queue) → slice_get queues.new.items place ≡ Some r → QueueHasRoom r) }
{
    let queue = &mut queues[place];
    queue.make_room()
}

fn push_at(queues: &mut Vec<Queue>, place: usize, part: Part)
    requires within { place < length queues.old.items }
    requires room { (q : Queue) → slice_get queues.old.items place ≡ Some q → QueueHasRoom q }
    requires first { (q : Queue) → slice_get queues.old.items place ≡ Some q
        → part.offset / LINE_SIZE ≡ q.line }
    requires last { (q : Queue) → slice_get queues.old.items place ≡ Some q
        → part.offset + part.size ≤ LINE_SIZE * q.line + LINE_SIZE }
    ensures { ChangesPlace (pending_with part) place queues.old.items queues.new.items }
{
    let queue = &mut queues[place];
    queue.push(part);
}

fn flush_at(queues: &mut Vec<Queue>, place: usize)
    requires { place < length queues.old.items }
    ensures { ChangesPlace pending_flushed place queues.old.items queues.new.items }
{
    let queue = &mut queues[place];
    queue.flush();
}

// Removes the flushed parts of a queue, and returns whether nothing is left.
fn fence_at(queues: &mut Vec<Queue>, place: usize) -> bool
    requires { place < length queues.old.items }
    ensures changes { ChangesPlace pending_fenced place queues.old.items queues.new.items }
    ensures empty { result ≡ true → (r : Queue) → slice_get queues.new.items place ≡ Some r
        → pending_in r ≡ none_pending }
{
    let queue = &mut queues[place];
    queue.fence();
    queue.is_empty()
}

// Notes a place whose queue no line has, if there is room to note it.
fn give_back(free: &mut Vec<u32>, place: u32) {
    if free.len() < free.capacity() {
        free.push_reserved(place);
    }
}

// A place, counted from 1, that no line has, with an empty queue of this line that has room for one part.
fn fresh_place(
    alloc: Global,
    directory: &Directory,
    queues: &mut Vec<Queue>,
    free: &mut Vec<u32>,
    line: u64,
) -> Result<u32, NoMemory>
    requires { QueuesArePlaced directory.now queues.old.items }
    ensures placed { QueuesArePlaced directory.now queues.new.items }
    ensures same { (j : ℕ) → queue_in directory.now queues.new.items j
        ≡ queue_in directory.now queues.old.items j }
    ensures least { length queues.old.items ≤ length queues.new.items }
    ensures most { length queues.new.items ≤ length queues.old.items + 1 }
    ensures ok { IfOk result (λ place. IsFresh directory.now line place queues.new.items) }
{
    if let Some(place) = free.pop() {
        if is_free(directory, queues.as_slice(), place) {
            return reuse(queues, place, line);
        }
    }
    append(alloc, queues, free, line)
}

// Whether no line has the queue at a place.
fn is_free(directory: &Directory, queues: &[Queue], place: u32) -> bool
    requires { QueuesArePlaced directory.now queues.now }
    ensures there { result ≡ true → place < length queues.now }
    ensures free { result ≡ true → (j : ℕ) → number_at directory.now j ≢ place + 1 }
{
    match queues.get(place as usize) {
        Some(queue) => directory.get(queue.line) as u64 != place as u64 + 1,
        None => false,
    }
}

// Makes the queue at a place the empty queue of a line, with room for one part.
fn reuse(queues: &mut Vec<Queue>, place: u32, line: u64) -> Result<u32, NoMemory>
    requires { place < length queues.old.items }
    ensures kept { KeepsOthers place queues.old.items queues.new.items }
    ensures ok { IfOk result (λ p. (p ≡ place + 1) × IsFreshAt line place queues.new.items) }
{
    let Some(counted) = place.checked_add(1) else {
        return Err(NoMemory);
    };
    let queue = &mut queues[place as usize];
    queue.restart(line);
    queue.make_room()?;
    Ok(counted)
}

// Adds a queue after the others, with room to note its place when it is given back.
fn append(
    alloc: Global,
    queues: &mut Vec<Queue>,
    free: &mut Vec<u32>,
    line: u64,
) -> Result<u32, NoMemory>
    ensures kept { KeepsOthers (length queues.old.items) queues.old.items queues.new.items }
    ensures ok { IfOk result (λ p. (p ≡ length queues.old.items + 1)
        × IsFreshAt line (length queues.old.items) queues.new.items) }
{
    let count = queues.len() + 1;
    if count > u32::MAX as usize {
        return Err(NoMemory);
    }
    if free.reserve(count.saturating_sub(free.len())).is_err() {
        return Err(NoMemory);
    }
    if queues.reserve(1).is_err() {
        return Err(NoMemory);
    }
    let mut queue = Queue::new(alloc, line);
    queue.make_room()?;
    queues.push_reserved(queue);
    Ok(count as u32)
}
