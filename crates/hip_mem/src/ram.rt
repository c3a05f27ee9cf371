ghost use Rattle.std.specs.Prelude.{◌≡◌, ◌==◌, ℕ, ◌+◌, ◌-◌, ◌/◌, ◌%◌, ◌^◌, ◌<◌, ◌≤◌, ◌↔◌, [], length, IfOk, IfErr, OnOk, OnErr, Some, None, Err, IsTrue};
ghost use Rattle.hip_mem.specs.Memory.{byte_written};
ghost use Rattle.hip_types.specs.Bytes.{bytes_of};
ghost use Rattle.hip_mem.specs.Pages.{IsMade, page_byte};
ghost use Rattle.hip_mem.specs.declared.TheConstants.{PAGE_SIZE};

use crate::pages::Pages;
use crate::refusal::{MemTrap, PushRefusal, StoreRefusal};
use hip_image::Image;
use hip_types::{
    LARGEST_REGION, LARGEST_VOLATILE, NoMemory, STACK_END, STACK_START, VOLATILE_START,
};
use std::alloc::Global;
use std::marker::Model;

/// The bytes of a machine; contracts see the three areas of valid bytes.
#[derive(Drop)]
pub struct Ram {
    base: u64,
    // The numbers of bytes of the volatile globals and of the region.
    volatile: u64,
    region: u64,
    mark: u64,
    pages: Pages,
}

impl Model for Ram {
    ghost use Rattle.hip_mem.specs.Areas.{Areas};

    ghost Value = { Areas };

    ghost use Rattle.hip_mem.specs.Rams.{areas_of, IsRam};

    ghost view = { areas_of };

    ghost invariant = { IsRam };
}

impl Ram {
    ghost use Rattle.hip_types.specs.Areas.{stack_start, stack_end};
    ghost use Rattle.hip_types.specs.Bytes.{bytes_of};
    ghost use Rattle.hip_mem.specs.Areas.{IsLaidOut, mark_of, is_valid, are_valid, access_trap, loaded, after_write, block_address, pushed_mark, after_push, after_pop};

    /// The initial bytes of the volatile globals and of the region, and an empty stack.
    pub fn new(alloc: Global, base: u64, volatile: &Image, region: &Image) -> Result<Ram, NoMemory>
        requires low { 2 ^ 32 ≤ base }
        requires high { base ≤ 2 ^ 46 }
        requires aligned { base % 4096 ≡ 0 }
        requires volatile { length volatile.now ≤ LARGEST_VOLATILE }
        requires region { length region.now ≤ LARGEST_REGION }
        ensures { IfOk result (λ ram. ram ≡ record {
          base = base;
          volatile = volatile.now;
          stack = [];
          region = region.now;
        }) }
    {
        let mut pages = Pages::new(alloc, base)?;
        put_image(&mut pages, VOLATILE_START, volatile)?;
        put_image(&mut pages, base, region)?;
        Ok(Ram {
            base,
            volatile: volatile.len() as u64,
            region: region.len() as u64,
            mark: STACK_START,
            pages,
        })
    }

    /// The number that `size` bytes hold, the lowest first.
    #[inline]
    pub fn load(&self, addr: u64, size: u32, align: u32) -> Result<u64, MemTrap>
        requires some { 0 < size }
        requires few { size ≤ 8 }
        requires align { 0 < align }
        ensures { result ≡ loaded self.now addr size align }
    {
        match self.access_trap(addr, size, align) {
            Some(trap) => Err(trap),
            None => Ok(self.pages.number_at(addr, size as usize)),
        }
    }

    /// Writes the low bytes of a number, the lowest first.
    #[inline]
    pub fn store(
        &mut self,
        addr: u64,
        size: u32,
        align: u32,
        value: u64,
    ) -> Result<(), StoreRefusal>
        requires some { 0 < size }
        requires few { size ≤ 8 }
        requires align { 0 < align }
        ensures ok { OnOk result ((access_trap self.old addr size align ≡ None)
            × (self.new ≡ after_write (record { addr = addr; bytes = bytes_of size value }) self.old)) }
        ensures err { OnErr result (self.new ≡ self.old) }
        ensures misaligned { (result ≡ Err StoreRefusal.Misaligned) ↔
            (access_trap self.old addr size align ≡ Some MemTrap.Misaligned) }
        ensures bad_address { (result ≡ Err StoreRefusal.BadAddress) ↔
            (access_trap self.old addr size align ≡ Some MemTrap.BadAddress) }
    {
        match self.access_trap(addr, size, align) {
            Some(MemTrap::Misaligned) => Err(StoreRefusal::Misaligned),
            Some(MemTrap::BadAddress) => Err(StoreRefusal::BadAddress),
            None => put(&mut self.pages, addr, value, size as usize),
        }
    }

    /// Whether the byte is valid.
    pub fn valid(&self, addr: u64) -> bool
        ensures { result ≡ is_valid self.now addr }
    {
        self.are_valid(addr, 1)
    }

    /// Whether the `len` bytes from the address on are all valid; true for no bytes at any address. A range does not
    /// wrap: bytes past the last address are not valid.
    pub fn valid_range(&self, addr: u64, len: u64) -> bool
        ensures { result ≡ are_valid self.now addr len }
    {
        if len == 0 {
            return true;
        }
        self.are_valid(addr, len)
    }

    /// The end of the stack's valid bytes.
    pub fn mark(&self) -> u64
        ensures value { result ≡ mark_of self.now }
        ensures laid_out { IsLaidOut self.now }
    {
        self.mark
    }

    /// Makes a block of `size` bytes at the next multiple of an alignment, and returns its address. The bytes from the
    /// old mark on are zeros.
    pub fn push_stack(&mut self, size: u64, align: u64) -> Result<u64, PushRefusal>
        requires { 0 < align }
        ensures full { (result ≡ Err PushRefusal.StackFull) ↔ (stack_end < pushed_mark self.old size align) }
        ensures block { IfOk result (λ block. block ≡ block_address self.old align) }
        ensures ok { OnOk result (self.new ≡ after_push (pushed_mark self.old size align) self.old) }
        ensures err { OnErr result (self.new ≡ self.old) }
    {
        let Some(block) = self.mark.checked_next_multiple_of(align) else {
            return Err(PushRefusal::StackFull);
        };
        let Some(mark) = block.checked_add(size) else {
            return Err(PushRefusal::StackFull);
        };
        if mark > STACK_END {
            return Err(PushRefusal::StackFull);
        }
        self.pages.clear(self.mark, mark);
        self.mark = mark;
        Ok(block)
    }

    /// Sets the mark back, from the stack's start to the current one.
    pub fn pop_stack(&mut self, mark: u64)
        requires low { stack_start ≤ mark }
        requires high { mark ≤ mark_of self.old }
        ensures { self.new ≡ after_pop mark self.old }
    {
        self.mark = mark;
    }

    // Why an access traps, if it does.
    #[inline(always)]
    fn access_trap(&self, addr: u64, size: u32, align: u32) -> Option<MemTrap>
        requires some { 0 < size }
        requires align { 0 < align }
        ensures { result ≡ access_trap self.now addr size align }
    {
        if !is_aligned(addr, align as u64) {
            return Some(MemTrap::Misaligned);
        }
        if !self.are_valid(addr, size as u64) {
            return Some(MemTrap::BadAddress);
        }
        None
    }

    #[inline(always)]
    fn are_valid(&self, addr: u64, size: u64) -> bool
        requires { 0 < size }
        ensures { result ≡ are_valid self.now addr size }
    {
        if addr >= self.base {
            return lies_in(self.base, self.region, addr, size);
        }
        self.lies_in_some_area(addr, size)
    }

    #[inline(always)]
    fn lies_in_some_area(&self, addr: u64, size: u64) -> bool
        requires { 0 < size }
        ensures { result ≡ are_valid self.now addr size }
    {
        if lies_in(VOLATILE_START, self.volatile, addr, size) {
            return true;
        }
        if lies_in(STACK_START, self.mark - STACK_START, addr, size) {
            return true;
        }
        lies_in(self.base, self.region, addr, size)
    }
}

// Whether an address is a multiple of an alignment. The most usual alignments have arms of their own, since they need
// no division.
#[inline(always)]
fn is_aligned(addr: u64, align: u64) -> bool
    requires { 0 < align }
    ensures { result ≡ (addr % align == 0) }
{
    match align {
        8 => addr % 8 == 0,
        4 => addr % 4 == 0,
        1 => true,
        _ => addr % align == 0,
    }
}

// Whether a range lies in an area.
#[inline(always)]
fn lies_in(start: u64, len: u64, addr: u64, size: u64) -> bool
    ensures { IsTrue result ↔ ((start ≤ addr) × (addr + size ≤ start + len)) }
{
    addr >= start && addr - start <= len && size <= len - (addr - start)
}

// Writes the bytes of an image over zeros, in time linear in the number of bytes that the image stores.
fn put_image(pages: &mut Pages, start: u64, image: &Image) -> Result<(), NoMemory>
    requires aligned { start % PAGE_SIZE ≡ 0 }
    requires fits { start + length image.now + 8192 < 2 ^ 64 }
    requires zeros { (a : ℕ) → start ≤ a → a < start + length image.now → page_byte pages.old a ≡ 0 }
    ensures { OnOk result ((a : ℕ) → page_byte pages.new a
        ≡ byte_written (record { addr = start; bytes = image.now }) a (page_byte pages.old a)) }
{
    pages.fill(start, image.stored())
}

// Writes the low bytes of a number, the lowest first. Bytes of a usual size in a recent page stay in registers, since
// no call takes their address.
#[inline(always)]
fn put(pages: &mut Pages, addr: u64, value: u64, size: usize) -> Result<(), StoreRefusal>
    requires few { size ≤ 8 }
    requires fits { addr + 8192 < 2 ^ 64 }
    ensures ok { OnOk result ((a : ℕ) → page_byte pages.new a
        ≡ byte_written (record { addr = addr; bytes = bytes_of size value }) a (page_byte pages.old a)) }
    ensures err { OnErr result ((a : ℕ) → page_byte pages.new a ≡ page_byte pages.old a) }
    ensures refusal { IfErr result (λ refusal. refusal ≡ StoreRefusal.NoMemory) }
{
    if !pages.is_at_hand(addr, size) {
        return put_anywhere(pages, addr, value, size);
    }
    match size {
        8 => put_one(pages, addr, value, 8),
        4 => put_one(pages, addr, value, 4),
        _ => put_one(pages, addr, value, size),
    }
    Ok(())
}

// The same in one page, which was made.
#[inline(always)]
fn put_one(pages: &mut Pages, addr: u64, value: u64, size: usize)
    requires few { size ≤ 8 }
    requires one { addr % PAGE_SIZE + size ≤ PAGE_SIZE }
    requires made { IsMade pages.old (addr / PAGE_SIZE) }
    ensures { (a : ℕ) → page_byte pages.new a
        ≡ byte_written (record { addr = addr; bytes = bytes_of size value }) a (page_byte pages.old a) }
{
    let bytes = value.to_le_bytes();
    pages.write_one(addr, &bytes[..size]);
}

// The same in any pages.
#[inline(never)]
fn put_anywhere(pages: &mut Pages, addr: u64, value: u64, size: usize) -> Result<(), StoreRefusal>
    requires few { size ≤ 8 }
    requires fits { addr + 8192 < 2 ^ 64 }
    ensures ok { OnOk result ((a : ℕ) → page_byte pages.new a
        ≡ byte_written (record { addr = addr; bytes = bytes_of size value }) a (page_byte pages.old a)) }
    ensures err { OnErr result ((a : ℕ) → page_byte pages.new a ≡ page_byte pages.old a) }
    ensures refusal { IfErr result (λ refusal. refusal ≡ StoreRefusal.NoMemory) }
{
    let bytes = value.to_le_bytes();
    match pages.write(addr, &bytes[..size]) {
        Ok(()) => Ok(()),
        Err(_) => Err(StoreRefusal::NoMemory),
    }
}
