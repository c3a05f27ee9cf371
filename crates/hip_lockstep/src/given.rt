//! What the entries of a header have given so far.

ghost use Rattle.std.specs.Prelude.{◌≡◌, ◌+◌, ◌-◌, ◌≤◌, ◌++◌, ◌&&◌, IfOk, OnOk, length, nat_le};
ghost use Rattle.hip_globals.specs.Addresses.{region_size};
ghost use Rattle.hip_types.specs.Bytes.{zeros};
ghost use Rattle.hip_lockstep.specs.GivenInput.{TakesEntry, TakesLine, TakesNumber, input_of};

use crate::header::some_byte;
use hip_image::Image;
use hip_runs::{Input, MOST_NUMBERS};
use hip_sound::Checked;
use hip_trace::Entry;
use hip_types::{NoMemory, Row};

/// The input that START, REGISTER, INPUT and IMAGE entries give; its initial bytes go up to the end of the last IMAGE's
/// line.
#[derive(Drop)]
pub(crate) struct Given {
    pub base: u64,
    pub limit: u64,
    pub numbers: Row<i64>,
    pub image: Image,
}

impl Given {
    // Takes what a valid INPUT or IMAGE gives, and answers whether the entry is one. The size is that of the region.
    pub(crate) fn take(
        &mut self,
        checked: &Checked,
        size: u64,
        entry: &Entry,
    ) -> Result<bool, NoMemory>
        requires { size ≡ region_size checked.now }
        ensures { TakesEntry checked.now entry.now (input_of self.old) (input_of self.new) result }
    {
        match entry {
            Entry::Input { number } => self.take_number(*number),
            Entry::Image { addr, bytes } => self.take_line(checked, size, *addr, bytes),
            _ => Ok(false),
        }
    }

    fn take_number(&mut self, number: i64) -> Result<bool, NoMemory>
        ensures { TakesNumber number (input_of self.old) (input_of self.new) result }
    {
        if !self.image.is_empty() || self.numbers.len() as u64 >= MOST_NUMBERS {
            return Ok(false);
        }
        self.numbers.push(number)?;
        Ok(true)
    }

    fn take_line(
        &mut self,
        checked: &Checked,
        size: u64,
        addr: u64,
        bytes: &[u8; 64],
    ) -> Result<bool, NoMemory>
        requires { size ≡ region_size checked.now }
        ensures { TakesLine checked.now addr bytes.now (input_of self.old) (input_of self.new) result }
    {
        let offset = match addr.checked_sub(self.base) {
            Some(offset) => offset,
            None => return Ok(false),
        };
        if !has_line(self.image.len() as u64, size, offset) || !some_byte(bytes.as_slice()) {
            return Ok(false);
        }
        put_line(&mut self.image, offset as usize, bytes.as_slice())?;
        Ok(true)
    }

    // The input; the bytes after the last line are 0.
    pub(crate) fn fill(self, size: u64) -> Result<Input, NoMemory>
        requires { length self.image ≤ size }
        ensures { IfOk result (λ i. i ≡ record (input_of self) {
          image = self.image ++ zeros (size - length self.image);
        }) }
    {
        let Given {
            base,
            limit,
            numbers,
            mut image,
        } = self;
        lengthen(&mut image, size as usize)?;
        Ok(Input {
            base,
            image,
            numbers,
            limit,
        })
    }
}

// Whether a cache line at an offset lies after the first bytes of a region.
fn has_line(held: u64, size: u64, offset: u64) -> bool
    ensures { result ≡ nat_le held offset && nat_le (offset + 64) size }
{
    held <= offset && 64 <= size && offset <= size - 64
}

// Puts bytes of 0 at the end, up to a length.
fn lengthen(image: &mut Image, len: usize) -> Result<(), NoMemory>
    requires { length image.old ≤ len }
    ensures { OnOk result (image.new ≡ image.old ++ zeros (len - length image.old)) }
{
    image.push_zeros(len - image.len())
}

// Puts a cache line at an offset after the bytes, with bytes of 0 between.
fn put_line(image: &mut Image, offset: usize, line: &[u8]) -> Result<(), NoMemory>
    requires { length image.old ≤ offset }
    ensures { OnOk result
        (image.new ≡ image.old ++ (zeros (offset - length image.old) ++ line.now)) }
{
    lengthen(image, offset)?;
    image.extend_from_slice(line)
}
