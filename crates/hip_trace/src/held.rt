//! The bytes that a reader holds.

ghost use Rattle.std.specs.Prelude.{ℕ, ◌≡◌, ◌+◌, ◌-◌, ◌<◌, ◌≤◌, [], drop, length, position, slice_range, take, IsTrue};
ghost use Rattle.hip_io.specs.Cabinets.{HasTaken};
ghost use Rattle.hip_trace.specs.Pieces.{is_separator};
ghost use Rattle.hip_trace.specs.Fronts.{HasTakenMore};

use hip_io::{Cabinet, Taken};
use std::marker::Model;

/// Bytes that were taken from a file and that the reader has not read yet, with room for more.
#[derive(Drop)]
pub(crate) struct Held {
    bytes: [u8; 4096],
    start: usize,
    end: usize,
}

impl Model for Held {
    ghost use Rattle.std.specs.Prelude.{ℕ, List, ◌≤◌, slice_range};

    ghost Value = { List ℕ };

    ghost view = { λ h. slice_range h.bytes h.start h.end };

    ghost invariant = { λ h. (h.start ≤ h.end) × (h.end ≤ 4096) };
}

impl Held {
    pub(crate) fn new() -> Held
        ensures { result ≡ [] }
    {
        Held {
            bytes: [0; 4096],
            start: 0,
            end: 0,
        }
    }

    pub(crate) fn as_slice(&self) -> &[u8]
        ensures { result.now ≡ self.now }
    {
        &self.bytes[self.start..self.end]
    }

    pub(crate) fn len(&self) -> usize
        ensures { result ≡ length self.now }
    {
        self.end - self.start
    }

    /// The place of the first separator.
    pub(crate) fn separator(&self) -> Option<usize>
        ensures { result ≡ position is_separator self.now }
    {
        position_of_separator(self.as_slice())
    }

    /// Drops the first bytes.
    pub(crate) fn skip(&mut self, count: usize)
        requires { count ≤ length self.old }
        ensures { self.new ≡ drop count self.old }
    {
        self.start += count;
    }

    /// Takes more bytes of the current file, at most as many as there is room for.
    pub(crate) fn take_more<C: Cabinet>(&mut self, cabinet: &mut C) -> Taken
        requires room { length self.old ≤ 256 }
        requires current { IsTrue (C.state cabinet.old).is_current }
        ensures { HasTakenMore self.old self.new (C.state cabinet.old) (C.state cabinet.new) result }
    {
        let len = self.end - self.start;
        move_down(&mut self.bytes, self.start, self.end);
        self.start = 0;
        self.end = len;
        let taken = take_after(&mut self.bytes, len, cabinet);
        if let Taken::Got(count) = taken {
            self.end = len + count;
        }
        taken
    }
}

/// Moves a range of bytes to the front.
fn move_down(bytes: &mut [u8], start: usize, end: usize)
    requires ordered { start ≤ end }
    requires within { end ≤ length bytes.old }
    ensures { take (end - start) bytes.new ≡ slice_range bytes.old start end }
{
    bytes.copy_within(start..end, 0);
}

/// Takes bytes of the current file into a buffer, after the first bytes, which stay.
fn take_after<C: Cabinet>(bytes: &mut [u8], front: usize, cabinet: &mut C) -> Taken
    requires room { front < length bytes.old }
    requires current { IsTrue (C.state cabinet.old).is_current }
    ensures taken { HasTaken (C.state cabinet.old) (C.state cabinet.new) (drop front bytes.new) result }
    ensures front { take front bytes.new ≡ take front bytes.old }
{
    cabinet.take(&mut bytes[front..])
}

fn position_of_separator(bytes: &[u8]) -> Option<usize>
    ensures { result ≡ position is_separator bytes.now }
{
    bytes
        .iter()
        .position(|byte| *byte == b'|' || *byte == b'\n')
}
