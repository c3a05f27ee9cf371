ghost use Rattle.std.specs.Prelude.{◌≡◌, ℕ, ◌+◌, ◌-◌, ◌*◌, ◌^◌, ◌<◌, ◌≤◌, ◌↔◌, ◌∷◌, ◌++◌, [], length, replicate, take, drop, slice_index, IsTrue, OnOk, OnErr, IsErr};
ghost use Rattle.hip_types.specs.declared.areas.TheConstants.{LINE_SIZE};

use hip_types::{LINE_SIZE, NoMemory};
use std::alloc::Global;
use std::marker::Model;

/// A list of bytes. The zeros at its end take no memory.
#[derive(Drop)]
pub struct Image {
    // The bytes up to a place; each byte after it is 0.
    stored: Vec<u8>,
    // The number of bytes after that place.
    zeros: usize,
}

impl Model for Image {
    ghost use Rattle.std.specs.Prelude.{List, ℕ};

    ghost Value = { List ℕ };

    ghost use Rattle.hip_image.specs.Images.{bytes_in, IsTrimmed};

    ghost view = { bytes_in };

    ghost invariant = { IsTrimmed };
}

impl Image {
    /// A list of no bytes.
    pub fn new(alloc: Global) -> Image
        ensures { result ≡ [] }
    {
        Image {
            stored: Vec::new(alloc),
            zeros: 0,
        }
    }

    /// The number of bytes.
    pub fn len(&self) -> usize
        ensures { result ≡ length self.now }
    {
        self.stored.len() + self.zeros
    }

    /// Whether there is no byte.
    pub fn is_empty(&self) -> bool
        ensures { IsTrue result ↔ (self.now ≡ []) }
    {
        self.len() == 0
    }

    /// The bytes that take memory: those up to a place; each byte after it is 0.
    pub fn stored(&self) -> &[u8]
        ensures bytes { (i : ℕ) → slice_index result.now i ≡ slice_index self.now i }
        ensures few { length result.now ≤ length self.now }
    {
        self.stored.as_slice()
    }

    /// The bytes of a cache line.
    pub fn line(&self, line: u64) -> [u8; LINE_SIZE as usize]
        requires { LINE_SIZE * line + LINE_SIZE ≤ length self.now }
        ensures { result ≡ take LINE_SIZE (drop (LINE_SIZE * line) self.now) }
    {
        bytes_from(self.stored.as_slice(), line as usize * LINE_SIZE as usize)
    }

    /// Puts a byte at the end. It fails if there is no memory, or if there would be 2^64 bytes.
    pub fn push(&mut self, byte: u8) -> Result<(), NoMemory>
        ensures ok { OnOk result (self.new ≡ self.old ++ byte ∷ []) }
        ensures err { OnErr result (self.new ≡ self.old) }
    {
        self.extend_from_slice(&[byte])
    }

    /// Puts bytes at the end. It fails if there is no memory, or if there would be 2^64 bytes or more.
    pub fn extend_from_slice(&mut self, bytes: &[u8]) -> Result<(), NoMemory>
        ensures ok { OnOk result (self.new ≡ self.old ++ bytes.now) }
        ensures err { OnErr result (self.new ≡ self.old) }
    {
        let front = front_len(bytes);
        if front == 0 {
            return self.push_zeros(bytes.len());
        }
        if self.len().checked_add(bytes.len()).is_none() {
            return Err(NoMemory);
        }
        fill(&mut self.stored, &mut self.zeros)?;
        extend(&mut self.stored, &bytes[..front])?;
        self.zeros = bytes.len() - front;
        Ok(())
    }

    /// Puts `count` bytes of 0 at the end. It takes no memory, and fails only if there would be 2^64 bytes or more.
    pub fn push_zeros(&mut self, count: usize) -> Result<(), NoMemory>
        ensures ok { OnOk result (self.new ≡ self.old ++ replicate count 0) }
        ensures err { OnErr result (self.new ≡ self.old) }
        ensures refused { IsErr result ↔ (2 ^ 64 ≤ length self.old + count) }
    {
        if self.len().checked_add(count).is_none() {
            return Err(NoMemory);
        }
        self.zeros += count;
        Ok(())
    }

    /// Drops all bytes but the first `len`.
    pub fn truncate(&mut self, len: usize)
        ensures { self.new ≡ take len self.old }
    {
        let held = self.stored.len();
        if len <= held {
            self.stored.truncate(len);
            self.zeros = 0;
        } else {
            self.zeros = self.zeros.min(len - held);
        }
    }
}

// The number of bytes up to the last one that is not 0.
fn front_len(bytes: &[u8]) -> usize
    ensures few { result ≤ length bytes.now }
    ensures zeros { bytes.now ≡ take result bytes.now ++ replicate (length bytes.now - result) 0 }
{
    let mut front = bytes.len();
    'zeros: while front > 0 && bytes[front - 1] == 0 {
        front -= 1;
    }
    front
}

// Stores the zeros after the stored bytes. If there is no memory, nothing changes.
fn fill(stored: &mut Vec<u8>, zeros: &mut usize) -> Result<(), NoMemory>
    requires { length stored.old.items + zeros.old < 2 ^ 64 }
    ensures ok { OnOk result ((stored.new.items ≡ stored.old.items ++ replicate zeros.old 0) × (zeros.new ≡ 0)) }
    ensures err { OnErr result ((stored.new.items ≡ stored.old.items) × (zeros.new ≡ zeros.old)) }
{
    match stored.resize(stored.len() + *zeros, 0) {
        Ok(()) => {
            *zeros = 0;
            Ok(())
        }
        Err(_) => Err(NoMemory),
    }
}

// Stores bytes at the end.
fn extend(stored: &mut Vec<u8>, bytes: &[u8]) -> Result<(), NoMemory>
    ensures ok { OnOk result (stored.new.items ≡ stored.old.items ++ bytes.now) }
    ensures err { OnErr result (stored.new.items ≡ stored.old.items) }
{
    match stored.extend_from_slice(bytes) {
        Ok(()) => Ok(()),
        Err(_) => Err(NoMemory),
    }
}

// The bytes of a cache line that begins at a place; a byte that is not stored is 0.
fn bytes_from(stored: &[u8], start: usize) -> [u8; LINE_SIZE as usize]
    ensures { (i : ℕ) → i < LINE_SIZE → slice_index result i ≡ slice_index stored.now (start + i) }
{
    let from = start.min(stored.len());
    let to = stored.len().min(from + LINE_SIZE as usize);
    let mut bytes = [0; 64];
    copy_front(&mut bytes, &stored[from..to]);
    bytes
}

// Copies bytes to the front of a slice.
fn copy_front(into: &mut [u8], bytes: &[u8])
    requires { length bytes.now ≤ length into.old }
    ensures len { length into.new ≡ length into.old }
    ensures low { (i : ℕ) → i < length bytes.now → slice_index into.new i ≡ slice_index bytes.now i }
    ensures high { (i : ℕ) → length bytes.now ≤ i → slice_index into.new i ≡ slice_index into.old i }
{
    into[..bytes.len()].copy_from_slice(bytes);
}
