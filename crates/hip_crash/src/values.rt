//! Values that were stored into the region, byte by byte.

ghost use Rattle.std.specs.Prelude.{◌≡◌, ◌<◌, ◌^◌, ℕ, slice_index};
ghost use Rattle.hip_crash.specs.Values.{bytes_with};
ghost use Rattle.hip_types.specs.Bytes.{bytes_of};

use hip_types::LINE_SIZE;

/// A store into the region: the offset of its first byte, the value, and how many bytes of the value were written, the
/// lowest first.
#[derive(Clone, Copy, Drop)]
pub struct StoredValue {
    pub offset: u64,
    pub value: u64,
    pub size: u32,
}

/// Writes the bytes of a value that lie in a line, whose first byte has this offset, into the line's bytes.
#[inline]
pub fn put_value(bytes: &mut [u8; LINE_SIZE as usize], start: u64, stored: StoredValue)
    requires { start < 2 ^ 40 }
    ensures { bytes.new ≡ bytes_with stored start bytes.old }
{
    let from = stored.offset.max(start);
    let end = stored
        .offset
        .saturating_add(stored.size as u64)
        .min(start + LINE_SIZE);
    for at in from..end {
        bytes[(at - start) as usize] = byte_at(stored.value, at - stored.offset);
    }
}

// The byte of a value at a place, counted from the lowest byte.
fn byte_at(value: u64, place: u64) -> u8
    ensures { (n : ℕ) → place < n → result ≡ slice_index (bytes_of n value) place }
{
    let bytes = value.to_le_bytes();
    if place >= 8 {
        return 0;
    }
    bytes[place as usize]
}
