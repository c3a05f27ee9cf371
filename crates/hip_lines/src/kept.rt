//! The queues of the lines that hold something.

ghost use Rattle.std.specs.Prelude.{◌≡◌, ℕ, ◌+◌, ◌-◌, ◌*◌, ◌/◌, ◌<◌, ◌≤◌, ◌≢◌, ◌^◌, cond, true, false, Some, length, OnOk, OnErr, IsOk, None, MatchBool};
ghost use Rattle.hip_lines.specs.Line.{has_bytes};
ghost use Rattle.hip_lines.specs.Pending.{pending_with, pending_flushed, pending_fenced};
ghost use Rattle.hip_lines.specs.Parts.{part_in};
ghost use Rattle.hip_lines.specs.Kept.{queue_at, count_of, pending_at, HasRoomAt, HasRoomFor, AreBelow, IsRange, ListsFlushed, ListsWithSpare, RelistsFlushed, KeepsList, MakesRoom, ChangesLine, FlushesLines, ChangesSome, GivesQueue};

use crate::part::Part;
use crate::queues::Queues;
use hip_types::{LINE_SIZE, NoMemory};

// Makes room for one more part of a line.
fn make_room_at(queues: &mut Queues, flushed: &mut Vec<u64>, line: u64) -> Result<(), NoMemory>
    requires { length flushed.old.items ≤ count_of queues.old }
    ensures makes { MakesRoom (LINE_SIZE * line + LINE_SIZE) flushed.old flushed.new queues.old queues.new }
    ensures ok { OnOk result (HasRoomAt queues.new line) }
    ensures count { count_of queues.old ≤ count_of queues.new }
{
    match queues.get(line) {
        Some(_) => queues.make_room(line),
        None => add_queue(queues, flushed, line),
    }
}

// Adds an empty queue with room for one part.
fn add_queue(queues: &mut Queues, flushed: &mut Vec<u64>, line: u64) -> Result<(), NoMemory>
    requires absent { queue_at queues.old line ≡ None }
    requires listed { length flushed.old.items ≤ count_of queues.old }
    ensures ok { OnOk result (GivesQueue line queues.old queues.new) }
    ensures err { OnErr result ((j : ℕ) → queue_at queues.new j ≡ queue_at queues.old j) }
    ensures list { KeepsList flushed.old flushed.new queues.old queues.new }
    ensures count { count_of queues.old ≤ count_of queues.new }
{
    let more = queues.count() + 1 - flushed.len();
    if flushed.reserve(more).is_err() {
        return Err(NoMemory);
    }
    queues.add(line)
}

/// Makes room for the parts of a store.
pub fn make_room_in(
    queues: &mut Queues,
    flushed: &mut Vec<u64>,
    offset: u64,
    size: u32,
) -> Result<(), NoMemory>
    requires range { IsRange offset size }
    requires listed { ListsFlushed flushed.old.items queues.old }
    ensures makes { MakesRoom (offset + size) flushed.old flushed.new queues.old queues.new }
    ensures ok { OnOk result (HasRoomFor queues.new (Some (offset, size))) }
{
    let end = (offset + size as u64 - 1) / LINE_SIZE + 1;
    for line in offset / LINE_SIZE..end {
        make_room_at(queues, flushed, line)?;
    }
    Ok(())
}

/// Makes room for the parts of a store, unless the room that was made is for this store.
pub fn ensure_room(
    queues: &mut Queues,
    flushed: &mut Vec<u64>,
    room: Option<(u64, u32)>,
    offset: u64,
    size: u32,
) -> Result<(), NoMemory>
    requires range { IsRange offset size }
    requires listed { ListsFlushed flushed.old.items queues.old }
    requires room { HasRoomFor queues.old room }
    ensures makes { MakesRoom (offset + size) flushed.old flushed.new queues.old queues.new }
    ensures ok { OnOk result (HasRoomFor queues.new (Some (offset, size))) }
    ensures ready { room ≡ Some (offset, size) → IsOk result }
{
    if is_room_for(room, offset, size) {
        return Ok(());
    }
    make_room_in(queues, flushed, offset, size)
}

// Whether the room is for this store.
fn is_room_for(room: Option<(u64, u32)>, offset: u64, size: u32) -> bool
    ensures { MatchBool result (room ≡ Some (offset, size)) (room ≢ Some (offset, size)) }
{
    match room {
        Some((at, count)) => at == offset && count == size,
        None => false,
    }
}

/// Adds the parts of a store, in the room that was made for them.
pub fn push_in(queues: &mut Queues, offset: u64, size: u32, tag: u128)
    requires some { 0 < size }
    requires fits { offset + size < 2 ^ 64 - LINE_SIZE }
    requires room { HasRoomFor queues.old (Some (offset, size)) }
    ensures pending { (j : ℕ) → pending_at queues.new j
        ≡ cond (has_bytes j offset size) (pending_with (part_in offset size tag j) (pending_at queues.old j))
        (pending_at queues.old j) }
    ensures below { (n : ℕ) → AreBelow n queues.old → AreBelow n queues.new }
    ensures count { count_of queues.new ≡ count_of queues.old }
{
    let end = (offset + size as u64 - 1) / LINE_SIZE + 1;
    for line in offset / LINE_SIZE..end {
        queues.push(line, part_at(offset, size, tag, line));
    }
}

// The part of a store in a line that it reaches.
fn part_at(offset: u64, size: u32, tag: u128, line: u64) -> Part
    requires fits { offset + size < 2 ^ 64 }
    requires line { LINE_SIZE * line + LINE_SIZE < 2 ^ 64 }
    requires reached { has_bytes line offset size ≡ true }
    ensures { result ≡ part_in offset size tag line }
{
    let from = offset.max(line * LINE_SIZE);
    let to = (offset + size as u64).min(line * LINE_SIZE + LINE_SIZE);
    Part {
        offset: from,
        size: (to - from) as u32,
        tag,
    }
}

/// Flushes a line, and returns whether that changed it.
pub fn flush_at(queues: &mut Queues, flushed: &mut Vec<u64>, line: u64) -> bool
    requires listed { ListsWithSpare flushed.old queues.old }
    ensures changes { ChangesLine pending_flushed line queues.old queues.new }
    ensures listed { RelistsFlushed flushed.old flushed.new queues.new }
    ensures changed { result ≡ true → pending_at queues.new line ≢ pending_at queues.old line }
    ensures unchanged { result ≡ false → (j : ℕ) → queue_at queues.new j ≡ queue_at queues.old j }
{
    let Some(queue) = queues.get(line) else {
        return false;
    };
    if queue.is_flushed() {
        return false;
    }
    let is_first = queue.none_flushed();
    queues.flush(line);
    if is_first {
        flushed.push_reserved(line);
    }
    true
}

/// Flushes the lines of a range, in time linear in the number of those that have a queue, and returns whether that
/// changed a line.
pub fn flush_in(queues: &mut Queues, flushed: &mut Vec<u64>, offset: u64, len: u64) -> bool
    requires range { IsRange offset len }
    requires listed { ListsWithSpare flushed.old queues.old }
    ensures flushes { FlushesLines offset len queues.old queues.new }
    ensures listed { RelistsFlushed flushed.old flushed.new queues.new }
    ensures changed { result ≡ true → ChangesSome queues.old queues.new }
    ensures unchanged { result ≡ false → (j : ℕ) → queue_at queues.new j ≡ queue_at queues.old j }
{
    let end = (offset + len - 1) / LINE_SIZE + 1;
    let mut next = offset / LINE_SIZE;
    let mut changed = false;
    while let Some(queue) = queues.first_from(next, end) {
        let line = queue.line;
        if flush_at(queues, flushed, line) {
            changed = true;
        }
        next = line + 1;
    }
    changed
}

/// Removes the flushed parts of all lines.
pub fn fence_in(queues: &mut Queues, flushed: &[u64])
    requires { ListsFlushed flushed.now queues.old }
    ensures pending { (j : ℕ) → pending_at queues.new j ≡ pending_fenced (pending_at queues.old j) }
    ensures below { (n : ℕ) → AreBelow n queues.old → AreBelow n queues.new }
    ensures count { count_of queues.new ≡ count_of queues.old }
{
    for line in flushed {
        queues.fence(*line);
    }
}
