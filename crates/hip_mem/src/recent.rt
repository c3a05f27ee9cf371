//! The starts of pages that were written recently.

ghost use Rattle.std.specs.Prelude.{◌≡◌, ◌≢◌, ℕ, ◌<◌};
ghost use Rattle.hip_mem.specs.Recents.{AreStarts};

// The number of noted pages, as a power of 2.
const SLOT_BITS: u32 = 4;

/// The starts of a few pages, each in the slot of its page number. A start of 0 means that the slot is empty.
#[derive(Drop)]
pub struct Recent {
    numbers: [u64; 16],
    starts: [usize; 16],
}

impl Recent {
    /// No page is noted.
    pub fn new() -> Recent
        ensures { (start_of : ℕ → ℕ) → AreStarts result start_of }
    {
        Recent {
            numbers: [0; 16],
            starts: [0; 16],
        }
    }

    /// The start of a page, if it is noted; else 0.
    #[inline(always)]
    pub fn get(&self, number: u64) -> usize
        ensures { (start_of : ℕ → ℕ) → AreStarts self.now start_of → result ≢ 0 → result ≡ start_of number }
    {
        let slot = slot_of(number);
        if self.numbers[slot] == number {
            self.starts[slot]
        } else {
            0
        }
    }

    /// Notes the start of a page, in place of the page that had its slot.
    pub fn put(&mut self, number: u64, start: usize)
        ensures { (start_of : ℕ → ℕ) → AreStarts self.old start_of → start ≡ start_of number
            → AreStarts self.new start_of }
    {
        let slot = slot_of(number);
        self.numbers[slot] = number;
        self.starts[slot] = start;
    }
}

// The slot of a page: the high bits of a product, so that the first pages of the areas get different slots.
#[inline(always)]
fn slot_of(number: u64) -> usize
    ensures { result < 16 }
{
    (number.wrapping_mul(0x9E37_79B9_7F4A_7C15) >> (64 - SLOT_BITS)) as usize
}
