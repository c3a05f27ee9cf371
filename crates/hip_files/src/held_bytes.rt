//! The bytes that a stream holds back.

ghost use Rattle.std.specs.Prelude.{◌≡◌, ◌+◌, ◌-◌, ◌≤◌, ◌++◌, [], drop, false, length, slice_range, take, IsTrue};

use std::alloc::Global;
use std::marker::Model;

/// How many bytes are held back at most.
const MOST_HELD: usize = 8_192;

/// Bytes that were given to a stream and are not written yet, in the order in which they came. They lie at the front of
/// a buffer that never grows, so to hold a piece back takes few instructions.
#[derive(Drop)]
pub(crate) struct HeldBytes {
    buffer: Vec<u8>,
    count: usize,
}

impl Model for HeldBytes {
    ghost use Rattle.std.specs.Prelude.{ℕ, List, ◌≤◌, length, take};

    ghost Value = { List ℕ };

    ghost view = { λ h. take h.count h.buffer.items };

    ghost invariant = { λ h. h.count ≤ length h.buffer.items };
}

impl HeldBytes {
    /// Nothing is held. Without memory for the buffer there is no room for any byte.
    pub(crate) fn new(alloc: Global) -> HeldBytes
        ensures { result ≡ [] }
    {
        let mut buffer = Vec::new(alloc);
        let _made = buffer.resize(MOST_HELD, 0);
        HeldBytes { buffer, count: 0 }
    }

    pub(crate) fn as_slice(&self) -> &[u8]
        ensures { result.now ≡ self.now }
    {
        &self.buffer.as_slice()[..self.count]
    }

    #[inline(always)]
    pub(crate) fn len(&self) -> usize
        ensures { result ≡ length self.now }
    {
        self.count
    }

    /// Holds a piece behind the others, if there is room for it.
    #[inline(always)]
    pub(crate) fn put(&mut self, piece: &[u8]) -> bool
        ensures held { IsTrue result → self.new ≡ self.old ++ piece.now }
        ensures left { result ≡ false → self.new ≡ self.old }
    {
        if piece.len() > self.buffer.len() - self.count {
            return false;
        }
        copy_behind(self.buffer.as_mut_slice(), self.count, piece);
        self.count += piece.len();
        true
    }

    /// Drops the first bytes.
    pub(crate) fn skip(&mut self, count: usize)
        requires { count ≤ length self.old }
        ensures { self.new ≡ drop count self.old }
    {
        move_down(self.buffer.as_mut_slice(), count, self.count);
        self.count -= count;
    }
}

/// Copies a piece behind the first bytes, which stay.
#[inline(always)]
fn copy_behind(bytes: &mut [u8], front: usize, piece: &[u8])
    requires { front + length piece.now ≤ length bytes.old }
    ensures { take (front + length piece.now) bytes.new ≡ take front bytes.old ++ piece.now }
{
    bytes[front..front + piece.len()].copy_from_slice(piece);
}

/// Moves a range of bytes to the front.
fn move_down(bytes: &mut [u8], start: usize, end: usize)
    requires ordered { start ≤ end }
    requires within { end ≤ length bytes.old }
    ensures moved { take (end - start) bytes.new ≡ slice_range bytes.old start end }
    ensures len { length bytes.new ≡ length bytes.old }
{
    bytes.copy_within(start..end, 0);
}
