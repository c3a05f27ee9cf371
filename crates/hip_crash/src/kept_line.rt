//! What is kept of a cache line into which something was stored.

ghost use Rattle.std.specs.Prelude.{◌≡◌, ◌+◌, ◌<◌, ◌≤◌, ◌^◌, [], length, drop, take, OnErr, OnOk};
ghost use Rattle.hip_crash.specs.Values.{bytes_after};

use crate::values::{StoredValue, put_value};
use hip_types::{LINE_SIZE, NoMemory};
use std::alloc::Global;

/// A line always keeps room for this many stores.
const FEW: usize = 8;

/// The bytes of a line after its durable stores, the number of durable stores, and the later stores in order, of which
/// the first ones are flushed.
#[derive(Drop)]
pub struct KeptLine {
    pub line: u64,
    pub bytes: [u8; LINE_SIZE as usize],
    pub least: u64,
    pub later: Vec<StoredValue>,
    pub flushed: usize,
    pub ghost low: { line < 2 ^ 32 },
    pub ghost few: { least + length later.items < 2 ^ 63 },
    pub ghost within: { flushed ≤ length later.items },
}

impl KeptLine {
    ghost use Rattle.hip_crash.specs.Kept.{kept_in, with_store, with_flush, with_fence};

    /// A line into which nothing was stored.
    pub fn new(alloc: Global, line: u64, bytes: [u8; LINE_SIZE as usize]) -> KeptLine
        requires { line < 2 ^ 32 }
        ensures line { result.line ≡ line }
        ensures kept { kept_in result ≡ record { bytes = bytes; least = 0; later = []; flushed = 0 } }
    {
        KeptLine {
            line,
            bytes,
            least: 0,
            later: Vec::new(alloc),
            flushed: 0,
        }
    }

    /// Takes up a store.
    #[inline]
    pub fn push(&mut self, stored: StoredValue) -> Result<(), NoMemory>
        requires { self.old.least + length self.old.later.items + 1 < 2 ^ 63 }
        ensures line { self.new.line ≡ self.old.line }
        ensures ok { OnOk result (kept_in self.new ≡ with_store stored (kept_in self.old)) }
        ensures err { OnErr result (kept_in self.new ≡ kept_in self.old) }
    {
        match self.later.push(stored) {
            Ok(()) => Ok(()),
            Err(_) => Err(NoMemory),
        }
    }

    /// Flushes all stores.
    #[inline]
    pub fn flush(&mut self)
        ensures line { self.new.line ≡ self.old.line }
        ensures kept { kept_in self.new ≡ with_flush (kept_in self.old) }
    {
        self.flushed = self.later.len();
    }

    /// Drops the flushed stores, which are durable now.
    #[inline]
    pub fn fence(&mut self)
        ensures line { self.new.line ≡ self.old.line }
        ensures kept { kept_in self.new ≡ with_fence self.old.line (kept_in self.old) }
    {
        put_front(
            &mut self.bytes,
            self.line * LINE_SIZE,
            self.later.as_slice(),
            self.flushed,
        );
        drop_front(&mut self.later, self.flushed);
        self.least += self.flushed as u64;
        self.flushed = 0;
    }
}

/// Writes the first `count` values in order into the bytes of a line, whose first byte has this offset.
pub fn put_front(
    bytes: &mut [u8; LINE_SIZE as usize],
    start: u64,
    values: &[StoredValue],
    count: usize,
)
    requires start { start < 2 ^ 40 }
    requires count { count ≤ length values.now }
    ensures { bytes.new ≡ bytes_after (take count values.now) start bytes.old }
{
    for place in 0..count {
        put_value(bytes, start, values[place]);
    }
}

// Removes the first `count` values, and frees room beyond what a few values and the rest need.
fn drop_front(values: &mut Vec<StoredValue>, count: usize)
    requires { count ≤ length values.old.items }
    ensures { values.new.items ≡ drop count values.old.items }
{
    let kept = values.len() - count;
    if kept != 0 {
        values.rotate_left(count);
    }
    values.truncate(kept);
    values.shrink_to(kept.max(FEW));
}
