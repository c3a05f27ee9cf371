//! Bytes by address, in pages that are made when something is written to them. A byte of a page that was not made is 0.

ghost use Rattle.std.specs.Prelude.{◌≡◌, ◌≢◌, ℕ, ◌+◌, ◌-◌, ◌*◌, ◌/◌, ◌%◌, ◌^◌, ◌<◌, ◌≤◌, ◌&&◌, cond, nat_le, nat_lt, length, slice_index, slice_index_or, true, false, ◌⊎◌, IfOk, IsTrue, OnOk, OnErr};
ghost use Rattle.hip_directory.specs.Directories.{number_at};
ghost use Rattle.hip_mem.specs.Memory.{byte_written};
ghost use Rattle.hip_mem.specs.PageTable.{ArePages, AreClean};
ghost use Rattle.hip_mem.specs.Recents.{AreStarts, start_in};
ghost use Rattle.hip_mem.specs.declared.keys.TheConstants.{LOWEST_REGION_PAGE};
ghost use Rattle.hip_mem.specs.declared.TheConstants.{PAGE_SIZE};
ghost use Rattle.hip_types.specs.declared.areas.TheConstants.{STACK_START, STACK_END};

use crate::PAGE_SIZE;
use crate::keys::{LOWEST_REGION_PAGE, STACK_PAGE, STACK_PAGES, key_of};
use crate::recent::Recent;
use hip_directory::Directory;
use hip_types::{NoMemory, STACK_END, STACK_START};
use std::alloc::Global;

/// Bytes by address.
#[derive(Drop)]
pub struct Pages {
    // The number of the region's first page.
    region: u64,
    // For each page, by its key, its place among the made pages; 0 if it was not made.
    directory: Directory,
    // The made pages, one after the other. The first is zeros, and is read for each page that was not made.
    bytes: Vec<u8>,
    // Whether each page may have a byte that is not 0, so that a page is not cleared again before it is written.
    dirty: Vec<bool>,
    // The starts of pages that were written recently.
    recent: Recent,
    ghost above: { LOWEST_REGION_PAGE ≤ region },
    ghost pages: { ArePages directory bytes.items },
    ghost clean: { AreClean dirty.items bytes.items },
    ghost starts: { AreStarts recent (start_in directory region) },
}

// Access by page number.
#[tactic(auto, unfolding(crate::specs::Pages::place_of, crate::specs::Pages::byte_of))]
impl Pages {
    ghost use Rattle.hip_mem.specs.Pages.{place_of, IsMade, byte_of, page_byte, IsFirstMade};

    /// Bytes that are all 0, for a region that begins at a base.
    pub fn new(alloc: Global, base: u64) -> Result<Pages, NoMemory>
        requires { 2 ^ 32 ≤ base }
        ensures { IfOk result (λ pages. (a : ℕ) → page_byte pages a ≡ 0) }
    {
        let directory = Directory::new(alloc)?;
        let bytes = zeros(alloc)?;
        let recent = Recent::new();
        Ok(Pages {
            region: base / PAGE_SIZE,
            directory,
            bytes,
            dirty: Vec::new(alloc),
            recent,
        })
    }

    // The start of a page's bytes.
    #[inline(always)]
    fn start(&self, number: u64) -> usize
        requires { number < 2 ^ 63 }
        ensures value { result ≡ PAGE_SIZE * place_of self.now number }
        ensures within { result + PAGE_SIZE ≤ length self.now.bytes.items }
    {
        let start = self.recent.get(number);
        if start != 0 {
            return start;
        }
        self.find_start(number)
    }

    // The start of a page's bytes, from the directory.
    #[inline(always)]
    fn find_start(&self, number: u64) -> usize
        requires { number < 2 ^ 63 }
        ensures value { result ≡ PAGE_SIZE * place_of self.now number }
        ensures within { result + PAGE_SIZE ≤ length self.now.bytes.items }
    {
        self.directory.get(key_of(self.region, number)) as usize * PAGE_SIZE as usize
    }

    // Reads bytes of one page to the front of a slice.
    #[inline(always)]
    fn read_page(&self, number: u64, at: usize, into: &mut [u8], size: usize)
        requires number { number < 2 ^ 63 }
        requires few { size ≤ length into.old }
        requires within { at + size ≤ PAGE_SIZE }
        ensures len { length into.new ≡ length into.old }
        ensures low { (i : ℕ) → i < size → slice_index into.new i ≡ byte_of self.now number (at + i) }
        ensures high { (i : ℕ) → size ≤ i → slice_index into.new i ≡ slice_index into.old i }
    {
        let from = self.start(number) + at;
        copy_front(into, self.bytes.as_slice(), from, size);
    }

    // Writes bytes of one page that was made.
    #[inline(always)]
    fn write_page(&mut self, number: u64, at: usize, bytes: &[u8])
        requires number { number < 2 ^ 63 }
        requires made { IsMade self.old number }
        requires within { at + length bytes.now ≤ PAGE_SIZE }
        ensures bytes { (i : ℕ) → i < PAGE_SIZE → byte_of self.new number i
            ≡ cond (nat_le at i && nat_lt i (at + length bytes.now)) (slice_index bytes.now (i - at))
            (byte_of self.old number i) }
        ensures others { (n i : ℕ) → n ≢ number → i < PAGE_SIZE
            → byte_of self.new n i ≡ byte_of self.old n i }
        ensures made { (n : ℕ) → place_of self.new n ≡ place_of self.old n }
    {
        let start = self.start(number);
        mark(self.dirty.as_mut_slice(), start / PAGE_SIZE as usize, true);
        put(self.bytes.as_mut_slice(), start + at, bytes);
    }

    // Clears the bytes of one page that lie in a range.
    fn clear_page(&mut self, number: u64, from: usize, to: usize)
        requires number { number < 2 ^ 63 }
        requires made { IsMade self.old number }
        requires forward { from ≤ to }
        requires within { to ≤ PAGE_SIZE }
        ensures bytes { (i : ℕ) → i < PAGE_SIZE → byte_of self.new number i
            ≡ cond (nat_le from i && nat_lt i to) 0 (byte_of self.old number i) }
        ensures others { (n i : ℕ) → n ≢ number → i < PAGE_SIZE
            → byte_of self.new n i ≡ byte_of self.old n i }
        ensures made { (n : ℕ) → place_of self.new n ≡ place_of self.old n }
    {
        let start = self.start(number);
        let place = start / PAGE_SIZE as usize;
        if is_clean(self.dirty.as_slice(), place) {
            return;
        }
        erase(self.bytes.as_mut_slice(), start + from, start + to);
        mark(self.dirty.as_mut_slice(), place, is_part(from, to));
    }

    // Whether a page is among the recent ones. Every recent page was made.
    #[inline(always)]
    fn is_recent(&self, number: u64) -> bool
        requires { number < 2 ^ 63 }
        ensures { IsTrue result → IsMade self.now number }
    {
        if self.recent.get(number) != 0 {
            return true;
        }
        false
    }

    // Makes a page, if it was not made.
    #[inline(always)]
    fn make_page(&mut self, number: u64) -> Result<(), NoMemory>
        requires { number < 2 ^ 63 }
        ensures same { (n i : ℕ) → i < PAGE_SIZE → byte_of self.new n i ≡ byte_of self.old n i }
        ensures kept { (n : ℕ) → IsMade self.old n → IsMade self.new n }
        ensures ok { OnOk result (IsMade self.new number) }
    {
        if self.is_recent(number) {
            return Ok(());
        }
        self.note_page(number)
    }

    // Makes a page, if it was not made, and notes its start.
    #[inline(never)]
    fn note_page(&mut self, number: u64) -> Result<(), NoMemory>
        requires { number < 2 ^ 63 }
        ensures same { (n i : ℕ) → i < PAGE_SIZE → byte_of self.new n i ≡ byte_of self.old n i }
        ensures kept { (n : ℕ) → IsMade self.old n → IsMade self.new n }
        ensures ok { OnOk result (IsMade self.new number) }
    {
        self.find_page(number)?;
        let start = self.find_start(number);
        self.recent.put(number, start);
        Ok(())
    }

    // Makes a page, if the directory has none.
    fn find_page(&mut self, number: u64) -> Result<(), NoMemory>
        requires { number < 2 ^ 63 }
        ensures same { (n i : ℕ) → i < PAGE_SIZE → byte_of self.new n i ≡ byte_of self.old n i }
        ensures kept { (n : ℕ) → IsMade self.old n → IsMade self.new n }
        ensures ok { OnOk result (IsMade self.new number) }
    {
        if self.find_start(number) != 0 {
            return Ok(());
        }
        self.add_page(number)
    }

    fn add_page(&mut self, number: u64) -> Result<(), NoMemory>
        requires number { number < 2 ^ 63 }
        requires absent { place_of self.old number ≡ 0 }
        ensures same { (n i : ℕ) → i < PAGE_SIZE → byte_of self.new n i ≡ byte_of self.old n i }
        ensures kept { (n : ℕ) → IsMade self.old n → IsMade self.new n }
        ensures ok { OnOk result (IsMade self.new number) }
    {
        append_page(
            &mut self.directory,
            &mut self.bytes,
            &mut self.dirty,
            key_of(self.region, number),
        )
    }

    // The first made page of a range of the stack's pages.
    fn first_made(&self, from: u64, to: u64) -> Option<u64>
        requires from { STACK_PAGE ≤ from }
        requires forward { from ≤ to }
        requires to { to ≤ STACK_PAGE + STACK_PAGES }
        ensures { IsFirstMade self.now from to result }
    {
        match self.directory.first_set(from - STACK_PAGE, to - STACK_PAGE) {
            Some(key) => Some(key + STACK_PAGE),
            None => None,
        }
    }
}

// Access by address.
impl Pages {
    ghost use Rattle.hip_types.specs.Bytes.{little_endian};
    ghost use Rattle.hip_mem.specs.Pages.{place_of, IsMade, byte_of, page_byte, page_bytes, IsFirstMade};

    /// The number in at most eight bytes, the lowest byte first.
    #[inline(always)]
    pub fn number_at(&self, addr: u64, size: usize) -> u64
        requires few { size ≤ 8 }
        requires fits { addr + 8192 < 2 ^ 64 }
        ensures { result ≡ little_endian (page_bytes self.now addr size) }
    {
        let at = (addr % PAGE_SIZE) as usize;
        if at + size > PAGE_SIZE as usize {
            return self.number_in_two(addr, size);
        }
        match size {
            8 => self.number_in_one(addr, 8),
            4 => self.number_in_one(addr, 4),
            _ => self.number_in_one(addr, size),
        }
    }

    // The number in bytes of one page. Bytes of a usual size stay in registers, since no call takes their address.
    #[inline(always)]
    fn number_in_one(&self, addr: u64, size: usize) -> u64
        requires few { size ≤ 8 }
        requires one { addr % PAGE_SIZE + size ≤ PAGE_SIZE }
        ensures { result ≡ little_endian (page_bytes self.now addr size) }
    {
        let mut bytes = [0u8; 8];
        self.read_one(addr, &mut bytes, size);
        u64::from_le_bytes(bytes)
    }

    // The number in bytes of two pages.
    #[inline(never)]
    fn number_in_two(&self, addr: u64, size: usize) -> u64
        requires few { size ≤ 8 }
        requires two { PAGE_SIZE < addr % PAGE_SIZE + size }
        requires fits { addr + 8192 < 2 ^ 64 }
        ensures { result ≡ little_endian (page_bytes self.now addr size) }
    {
        let mut bytes = [0u8; 8];
        self.read_two(addr, &mut bytes, size);
        u64::from_le_bytes(bytes)
    }

    /// Reads bytes to the front of a slice.
    #[inline(always)]
    pub fn read(&self, addr: u64, into: &mut [u8], size: usize)
        requires few { size ≤ length into.old }
        requires small { size ≤ 8 }
        requires fits { addr + 8192 < 2 ^ 64 }
        ensures len { length into.new ≡ length into.old }
        ensures low { (i : ℕ) → i < size → slice_index into.new i ≡ page_byte self.now (addr + i) }
        ensures high { (i : ℕ) → size ≤ i → slice_index into.new i ≡ slice_index into.old i }
    {
        let at = (addr % PAGE_SIZE) as usize;
        if at + size <= PAGE_SIZE as usize {
            self.read_one(addr, into, size);
        } else {
            self.read_two(addr, into, size);
        }
    }

    // Reads bytes of one page.
    #[inline(always)]
    fn read_one(&self, addr: u64, into: &mut [u8], size: usize)
        requires few { size ≤ length into.old }
        requires one { addr % PAGE_SIZE + size ≤ PAGE_SIZE }
        ensures len { length into.new ≡ length into.old }
        ensures low { (i : ℕ) → i < size → slice_index into.new i ≡ page_byte self.now (addr + i) }
        ensures high { (i : ℕ) → size ≤ i → slice_index into.new i ≡ slice_index into.old i }
    {
        self.read_page(addr / PAGE_SIZE, (addr % PAGE_SIZE) as usize, into, size);
    }

    // Reads bytes of two pages.
    #[inline(never)]
    fn read_two(&self, addr: u64, into: &mut [u8], size: usize)
        requires few { size ≤ length into.old }
        requires small { size ≤ 8 }
        requires two { PAGE_SIZE < addr % PAGE_SIZE + size }
        requires fits { addr + 8192 < 2 ^ 64 }
        ensures len { length into.new ≡ length into.old }
        ensures low { (i : ℕ) → i < size → slice_index into.new i ≡ page_byte self.now (addr + i) }
        ensures high { (i : ℕ) → size ≤ i → slice_index into.new i ≡ slice_index into.old i }
    {
        let at = (addr % PAGE_SIZE) as usize;
        let first = PAGE_SIZE as usize - at;
        self.read_page(addr / PAGE_SIZE, at, into, first);
        self.read_page(addr / PAGE_SIZE + 1, 0, &mut into[first..], size - first);
    }

    /// Writes at most eight bytes from an address on: all of them or none.
    #[inline(always)]
    pub fn write(&mut self, addr: u64, bytes: &[u8]) -> Result<(), NoMemory>
        requires few { length bytes.now ≤ 8 }
        requires fits { addr + 8192 < 2 ^ 64 }
        ensures ok { OnOk result ((a : ℕ) → page_byte self.new a
            ≡ byte_written (record { addr = addr; bytes = bytes.now }) a (page_byte self.old a)) }
        ensures err { OnErr result ((a : ℕ) → page_byte self.new a ≡ page_byte self.old a) }
    {
        let at = (addr % PAGE_SIZE) as usize;
        if bytes.len() > PAGE_SIZE as usize - at {
            return self.write_two(addr, bytes);
        }
        self.make_page(addr / PAGE_SIZE)?;
        self.write_page(addr / PAGE_SIZE, at, bytes);
        Ok(())
    }

    /// Whether bytes from an address on lie in one page, which is among the recent ones.
    #[inline(always)]
    pub fn is_at_hand(&self, addr: u64, size: usize) -> bool
        requires { size ≤ 8 }
        ensures { IsTrue result → (addr % PAGE_SIZE + size ≤ PAGE_SIZE) × IsMade self.now (addr / PAGE_SIZE) }
    {
        if (addr % PAGE_SIZE) as usize + size > PAGE_SIZE as usize {
            return false;
        }
        self.is_recent(addr / PAGE_SIZE)
    }

    /// Writes bytes of one page, which was made.
    #[inline(always)]
    pub fn write_one(&mut self, addr: u64, bytes: &[u8])
        requires one { addr % PAGE_SIZE + length bytes.now ≤ PAGE_SIZE }
        requires made { IsMade self.old (addr / PAGE_SIZE) }
        ensures { (a : ℕ) → page_byte self.new a
            ≡ byte_written (record { addr = addr; bytes = bytes.now }) a (page_byte self.old a) }
    {
        self.write_page(addr / PAGE_SIZE, (addr % PAGE_SIZE) as usize, bytes);
    }

    // Writes bytes of two pages.
    #[inline(never)]
    fn write_two(&mut self, addr: u64, bytes: &[u8]) -> Result<(), NoMemory>
        requires few { length bytes.now ≤ 8 }
        requires two { PAGE_SIZE < addr % PAGE_SIZE + length bytes.now }
        requires fits { addr + 8192 < 2 ^ 64 }
        ensures ok { OnOk result ((a : ℕ) → page_byte self.new a
            ≡ byte_written (record { addr = addr; bytes = bytes.now }) a (page_byte self.old a)) }
        ensures err { OnErr result ((a : ℕ) → page_byte self.new a ≡ page_byte self.old a) }
    {
        let at = (addr % PAGE_SIZE) as usize;
        let number = addr / PAGE_SIZE;
        self.make_page(number)?;
        self.make_page(number + 1)?;
        let (low, high) = bytes.split_at(PAGE_SIZE as usize - at);
        self.write_page(number, at, low);
        self.write_page(number + 1, 0, high);
        Ok(())
    }

    /// Clears the bytes of a range of the stack, in time linear in the number of its made pages.
    pub fn clear(&mut self, from: u64, to: u64)
        requires low { STACK_START ≤ from }
        requires forward { from ≤ to }
        requires high { to ≤ STACK_END }
        ensures { (a : ℕ) → page_byte self.new a ≡ cond (nat_le from a && nat_lt a to) 0 (page_byte self.old a) }
    {
        let end = (to + PAGE_SIZE - 1) / PAGE_SIZE;
        let mut next = from / PAGE_SIZE;
        while next < end {
            let Some(number) = self.first_made(next, end) else {
                break;
            };
            let start = number * PAGE_SIZE;
            let low = from.max(start) - start;
            let high = to.min(start + PAGE_SIZE) - start;
            self.clear_page(number, low as usize, high as usize);
            next = number + 1;
        }
    }

    /// Writes bytes over zeros, and makes pages only for parts that are not all zeros.
    pub fn fill(&mut self, start: u64, bytes: &[u8]) -> Result<(), NoMemory>
        requires aligned { start % PAGE_SIZE ≡ 0 }
        requires fits { start + length bytes.now + 8192 < 2 ^ 64 }
        requires zeros { (a : ℕ) → start ≤ a → a < start + length bytes.now → page_byte self.old a ≡ 0 }
        ensures { OnOk result ((a : ℕ) → page_byte self.new a
            ≡ byte_written (record { addr = start; bytes = bytes.now }) a (page_byte self.old a)) }
    {
        let mut done = 0;
        while done < bytes.len() {
            let end = bytes.len().min(done + PAGE_SIZE as usize);
            self.fill_page(start + done as u64, &bytes[done..end])?;
            done = end;
        }
        Ok(())
    }

    // The same for bytes of one page, from the page's start on.
    fn fill_page(&mut self, addr: u64, bytes: &[u8]) -> Result<(), NoMemory>
        requires aligned { addr % PAGE_SIZE ≡ 0 }
        requires few { length bytes.now ≤ PAGE_SIZE }
        requires zeros { (a : ℕ) → addr ≤ a → a < addr + length bytes.now → page_byte self.old a ≡ 0 }
        ensures { OnOk result ((a : ℕ) → page_byte self.new a
            ≡ byte_written (record { addr = addr; bytes = bytes.now }) a (page_byte self.old a)) }
    {
        if is_zero(bytes) {
            return Ok(());
        }
        self.make_page(addr / PAGE_SIZE)?;
        self.write_page(addr / PAGE_SIZE, 0, bytes);
        Ok(())
    }
}

// Makes a page of zeros for a key that has none.
#[tactic(auto, unfolding(crate::specs::PageTable::key_of))]
fn append_page(
    directory: &mut Directory,
    bytes: &mut Vec<u8>,
    dirty: &mut Vec<bool>,
    key: u64,
) -> Result<(), NoMemory>
    requires pages { ArePages directory.old bytes.old.items }
    requires clean { AreClean dirty.old.items bytes.old.items }
    requires absent { number_at directory.old key ≡ 0 }
    ensures pages { ArePages directory.new bytes.new.items }
    ensures clean { AreClean dirty.new.items bytes.new.items }
    ensures same { (k i : ℕ) → i < PAGE_SIZE
        → slice_index bytes.new.items (PAGE_SIZE * number_at directory.new k + i)
        ≡ slice_index bytes.old.items (PAGE_SIZE * number_at directory.old k + i) }
    ensures kept { (k : ℕ) → 0 < number_at directory.old k
        → number_at directory.new k ≡ number_at directory.old k }
    ensures ok { OnOk result (0 < number_at directory.new key) }
{
    let Ok(place) = u32::try_from(bytes.len() / PAGE_SIZE as usize) else {
        return Err(NoMemory);
    };
    let fresh = bytes.len() / PAGE_SIZE as usize;
    directory.make_room(key)?;
    extend_to(dirty, fresh + 1)?;
    append_zeros(bytes)?;
    directory.set(key, place);
    Ok(())
}

// Extends the marks to the pages up to a number. The added marks say that a page may have bytes other than 0.
fn extend_to(dirty: &mut Vec<bool>, len: usize) -> Result<(), NoMemory>
    ensures { (n : ℕ) → slice_index_or dirty.new.items n true ≡ slice_index_or dirty.old.items n true }
{
    if len <= dirty.len() {
        return Ok(());
    }
    match dirty.resize(len, true) {
        Ok(()) => Ok(()),
        Err(_) => Err(NoMemory),
    }
}

// Notes whether a page may have bytes other than 0.
#[inline(always)]
fn mark(dirty: &mut [bool], place: usize, is_dirty: bool)
    ensures { (n : ℕ) → slice_index_or dirty.new n true ≡ false → ((n ≡ place) × (is_dirty ≡ false))
        ⊎ ((n ≢ place) × (slice_index_or dirty.old n true ≡ false)) }
{
    if place >= dirty.len() {
        return;
    }
    dirty[place] = is_dirty;
}

// Whether a range of a page is less than the whole page.
fn is_part(from: usize, to: usize) -> bool
    ensures { result ≡ false → (from ≡ 0) × (PAGE_SIZE ≤ to) }
{
    from > 0 || to < PAGE_SIZE as usize
}

// Whether a page is known to have only zeros.
fn is_clean(dirty: &[bool], place: usize) -> bool
    ensures { result ≡ true → slice_index_or dirty.now place true ≡ false }
{
    match dirty.get(place) {
        Some(is_dirty) => !*is_dirty,
        None => false,
    }
}

// A page of zeros.
fn zeros(alloc: Global) -> Result<Vec<u8>, NoMemory>
    ensures length { IfOk result (λ v. length v.items ≡ PAGE_SIZE) }
    ensures zero { IfOk result (λ v. (i : ℕ) → slice_index v.items i ≡ 0) }
{
    let mut bytes = Vec::new(alloc);
    append_zeros(&mut bytes)?;
    Ok(bytes)
}

// Appends a page of zeros.
fn append_zeros(bytes: &mut Vec<u8>) -> Result<(), NoMemory>
    ensures same { (i : ℕ) → slice_index bytes.new.items i ≡ slice_index bytes.old.items i }
    ensures ok { OnOk result (length bytes.new.items ≡ length bytes.old.items + PAGE_SIZE) }
    ensures err { OnErr result (bytes.new.items ≡ bytes.old.items) }
{
    let len = bytes.len() + PAGE_SIZE as usize;
    match bytes.resize(len, 0) {
        Ok(()) => Ok(()),
        Err(_) => Err(NoMemory),
    }
}

// Copies bytes to the front of a slice. The usual sizes have arms of their own, since a copy of a fixed size is one
// move.
#[inline(always)]
fn copy_front(into: &mut [u8], bytes: &[u8], from: usize, size: usize)
    requires few { size ≤ length into.old }
    requires within { from + size ≤ length bytes.now }
    ensures len { length into.new ≡ length into.old }
    ensures low { (i : ℕ) → i < size → slice_index into.new i ≡ slice_index bytes.now (from + i) }
    ensures high { (i : ℕ) → size ≤ i → slice_index into.new i ≡ slice_index into.old i }
{
    match size {
        8 => copy_bytes(into, bytes, from, 8),
        4 => copy_bytes(into, bytes, from, 4),
        2 => copy_bytes(into, bytes, from, 2),
        1 => copy_bytes(into, bytes, from, 1),
        _ => copy_bytes(into, bytes, from, size),
    }
}

#[inline(always)]
fn copy_bytes(into: &mut [u8], bytes: &[u8], from: usize, size: usize)
    requires few { size ≤ length into.old }
    requires within { from + size ≤ length bytes.now }
    ensures len { length into.new ≡ length into.old }
    ensures low { (i : ℕ) → i < size → slice_index into.new i ≡ slice_index bytes.now (from + i) }
    ensures high { (i : ℕ) → size ≤ i → slice_index into.new i ≡ slice_index into.old i }
{
    into[..size].copy_from_slice(&bytes[from..from + size]);
}

// Writes bytes into a larger slice; the usual sizes have arms of their own, as in `copy_front`.
#[inline(always)]
fn put(area: &mut [u8], at: usize, bytes: &[u8])
    requires { at + length bytes.now ≤ length area.old }
    ensures len { length area.new ≡ length area.old }
    ensures bytes { (i : ℕ) → slice_index area.new i
        ≡ cond (nat_le at i && nat_lt i (at + length bytes.now)) (slice_index bytes.now (i - at))
        (slice_index area.old i) }
{
    match bytes.len() {
        8 => put_bytes(area, at, &bytes[..8]),
        4 => put_bytes(area, at, &bytes[..4]),
        2 => put_bytes(area, at, &bytes[..2]),
        1 => put_bytes(area, at, &bytes[..1]),
        _ => put_bytes(area, at, bytes),
    }
}

#[inline(always)]
fn put_bytes(area: &mut [u8], at: usize, bytes: &[u8])
    requires { at + length bytes.now ≤ length area.old }
    ensures len { length area.new ≡ length area.old }
    ensures bytes { (i : ℕ) → slice_index area.new i
        ≡ cond (nat_le at i && nat_lt i (at + length bytes.now)) (slice_index bytes.now (i - at))
        (slice_index area.old i) }
{
    area[at..at + bytes.len()].copy_from_slice(bytes);
}

fn erase(area: &mut [u8], from: usize, to: usize)
    requires forward { from ≤ to }
    requires within { to ≤ length area.old }
    ensures len { length area.new ≡ length area.old }
    ensures bytes { (i : ℕ) → slice_index area.new i
        ≡ cond (nat_le from i && nat_lt i to) 0 (slice_index area.old i) }
{
    area[from..to].fill(0);
}

// Whether all bytes are 0.
fn is_zero(bytes: &[u8]) -> bool
    ensures { result ≡ true → (i : ℕ) → slice_index bytes.now i ≡ 0 }
{
    bytes.iter().all(|byte| *byte == 0)
}
