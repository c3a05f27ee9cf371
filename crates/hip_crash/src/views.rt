//! What is kept of one line, with the part of a store that waits, as pickers and finders read it.

ghost use Rattle.std.specs.Prelude.{◌≡◌, ◌≢◌, ◌+◌, ◌<◌, ◌≤◌, ◌^◌, ℕ, length, option_to_list, take, MatchBool, MatchOption};
ghost use Rattle.hip_crash.specs.Values.{bytes_after};
ghost use Rattle.hip_crash.specs.Views.{later_in};

use crate::kept_line::put_front;
use crate::values::{StoredValue, put_value};
use hip_types::LINE_SIZE;

/// The bytes of a line after its durable stores, the number of durable stores, and the later stores, the last of which
/// may be kept apart.
#[derive(Drop)]
pub struct LineView<'a> {
    pub bytes: [u8; LINE_SIZE as usize],
    pub least: u64,
    pub later: &'a [StoredValue],
    pub last: Option<StoredValue>,
}

impl<'a> LineView<'a> {
    /// The number of stores, including the durable ones.
    pub fn most(&self) -> u64
        requires { self.now.least + length (later_in self.now) < 2 ^ 63 }
        ensures { result ≡ self.now.least + length (later_in self.now) }
    {
        let count = self.later.len() as u64 + self.last.is_some() as u64;
        self.least + count
    }

    /// The line's bytes, whose first one has this offset, after the first `count` of the later stores.
    pub fn bytes_after(&self, start: u64, count: usize) -> [u8; LINE_SIZE as usize]
        requires start { start < 2 ^ 40 }
        requires count { count ≤ length (later_in self.now) }
        ensures { result ≡ bytes_after (take count (later_in self.now)) start self.now.bytes }
    {
        let mut bytes = self.bytes;
        let front = count.min(self.later.len());
        put_front(&mut bytes, start, self.later, front);
        if count > front {
            put_last(&mut bytes, start, self.last);
        }
        bytes
    }

    /// The number of later stores after which the line's bytes are the wanted ones, if there is one. The first byte of
    /// the line has this offset.
    pub fn find(&self, start: u64, wanted: &[u8]) -> Option<usize>
        requires start { start < 2 ^ 40 }
        ensures { MatchOption result
            ((q : ℕ) → q ≤ length (later_in self.now)
            → bytes_after (take q (later_in self.now)) start self.now.bytes ≢ wanted.now)
            (λ q. (q ≤ length (later_in self.now))
            × (bytes_after (take q (later_in self.now)) start self.now.bytes ≡ wanted.now)) }
    {
        let mut bytes = self.bytes;
        'stores: for place in 0..self.later.len() {
            if same_bytes(&bytes, wanted) {
                return Some(place);
            }
            put_value(&mut bytes, start, self.later[place]);
        }
        if same_bytes(&bytes, wanted) {
            return Some(self.later.len());
        }
        match self.last {
            Some(stored) => {
                put_value(&mut bytes, start, stored);
                if same_bytes(&bytes, wanted) {
                    Some(self.later.len() + 1)
                } else {
                    None
                }
            }
            None => None,
        }
    }
}

// Writes the bytes of the value that is kept apart, if there is one.
fn put_last(bytes: &mut [u8; LINE_SIZE as usize], start: u64, last: Option<StoredValue>)
    requires { start < 2 ^ 40 }
    ensures { bytes.new ≡ bytes_after (option_to_list last) start bytes.old }
{
    if let Some(stored) = last {
        put_value(bytes, start, stored);
    }
}

// Whether these are the same bytes.
fn same_bytes(first: &[u8], second: &[u8]) -> bool
    ensures { MatchBool result (first.now ≡ second.now) (first.now ≢ second.now) }
{
    first == second
}
