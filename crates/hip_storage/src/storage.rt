ghost use Rattle.std.specs.Prelude.{◌≡◌, ◌<◌, ◌≤◌, IfOk, IfErr, OnErr};
ghost use Rattle.hip_mem.specs.Areas.{IsLaidOut, mark_of};
ghost use Rattle.hip_types.specs.Areas.{stack_start};
ghost use Rattle.hip_runs.specs.Step.{start};
ghost use Rattle.hip_runs.specs.Validity.{IsValid};

use crate::refusal::StorageRefusal;
use crate::region::{first_line, is_inside, kind_of, lines_size, low_bytes, put, with_fence};
use hip_mem::{PushRefusal, Ram};
use hip_runs::{Event, Input, TrapKind};
use hip_sound::Checked;
use hip_types::{LINE_SIZE, NoMemory};
use std::alloc::Global;
use std::marker::Model;

/// The memory of a run; contracts see the bytes that are valid. It knows where the region is, and gives the events of
/// stores and flushes in the region; it keeps no cache lines.
#[derive(Drop)]
pub struct Storage {
    // Where the region begins, and how many bytes it has.
    base: u64,
    size: u64,
    ram: Ram,
}

impl Model for Storage {
    ghost use Rattle.hip_storage.specs.Contents.{Contents};

    ghost Value = { Contents };

    ghost use Rattle.hip_storage.specs.Fields.{contents_of, RegionIsKept};

    ghost view = { contents_of };

    ghost invariant = { RegionIsKept };
}

impl Storage {
    ghost use Rattle.hip_storage.specs.Calls.{HasLoaded, HasStored, HasPushed, ShowsFlush, ShowsPersist, IsRefusedFor};
    ghost use Rattle.hip_storage.specs.Contents.{initial, lies_in_region, access_trap, block_trap, range_trap, after_pop};
    ghost use Rattle.hip_storage.specs.Represented.{HoldsState};

    /// The storage before the first step of a run. The time is linear in the initial bytes.
    pub fn new(alloc: Global, checked: &Checked, input: &Input) -> Result<Storage, NoMemory>
        requires { IsValid checked.now input.now }
        ensures initial { IfOk result (λ storage. storage ≡ initial checked.now input.now) }
        ensures starts { IfOk result (λ storage.
            HoldsState checked.now input.now storage (start checked.now input.now)) }
    {
        let _program = checked.program();
        let volatile = checked.volatile_bytes(alloc, input.base)?;
        let ram = Ram::new(alloc, input.base, &volatile, &input.image)?;
        let size = input.image.len() as u64;
        Ok(Storage {
            base: input.base,
            size,
            ram,
        })
    }

    /// The number that `size` bytes hold, the lowest first.
    #[inline(always)]
    pub fn load(&self, addr: u64, size: u32, align: u32) -> Result<u64, TrapKind>
        requires some { 0 < size }
        requires few { size ≤ 8 }
        requires align { 0 < align }
        ensures ok { IfOk result (λ value. HasLoaded self.now addr size align value) }
        ensures trap { IfErr result (λ kind. access_trap self.now addr size align ≡ Some kind) }
    {
        match self.ram.load(addr, size, align) {
            Ok(value) => Ok(value),
            Err(trap) => Err(kind_of(trap)),
        }
    }

    /// Stores the low bytes of a number, the lowest first.
    #[inline(always)]
    pub fn store(
        &mut self,
        addr: u64,
        size: u32,
        align: u32,
        value: u64,
    ) -> Result<Event, StorageRefusal>
        requires some { 0 < size }
        requires few { size ≤ 8 }
        requires align { 0 < align }
        ensures ok { IfOk result (λ event. HasStored self.old self.new event addr size align value) }
        ensures err { OnErr result (self.new ≡ self.old) }
        ensures refusal { IfErr result (λ refusal. IsRefusedFor (access_trap self.old addr size align) refusal) }
    {
        put(&mut self.ram, addr, size, align, value)?;
        if !is_inside(self.base, self.size, addr, size as u64) {
            return Ok(Event::Quiet);
        }
        Ok(Event::Store {
            addr,
            value: low_bytes(value, size),
            size,
        })
    }

    /// Makes a block of `size` bytes on the stack, at the next multiple of its alignment, and returns its address. The
    /// bytes from the old mark on are zeros.
    #[inline(always)]
    pub fn push(&mut self, size: u64, align: u64) -> Result<u64, StorageRefusal>
        requires { 0 < align }
        ensures ok { IfOk result (λ block. HasPushed self.old self.new block size align) }
        ensures err { OnErr result (self.new ≡ self.old) }
        ensures refusal { IfErr result (λ refusal. IsRefusedFor (block_trap self.old size align) refusal) }
    {
        match self.ram.push_stack(size, align) {
            Ok(block) => Ok(block),
            Err(PushRefusal::StackFull) => Err(StorageRefusal::Trap(TrapKind::Stack)),
            Err(PushRefusal::NoMemory) => Err(StorageRefusal::NoMemory),
        }
    }

    /// The end of the stack's blocks.
    #[inline(always)]
    pub fn mark(&self) -> u64
        ensures mark { result ≡ mark_of self.now.areas }
        ensures laid_out { IsLaidOut self.now.areas }
    {
        self.ram.mark()
    }

    /// Sets the mark back to an earlier one, not below the start of the stack.
    #[inline(always)]
    pub fn pop(&mut self, mark: u64)
        requires low { stack_start ≤ mark }
        requires high { mark ≤ mark_of self.old.areas }
        ensures { self.new ≡ after_pop mark self.old }
    {
        self.ram.pop_stack(mark);
    }

    /// The event of a flush of the cache line of an address. It flushes no line if the address is outside the region.
    #[inline(always)]
    pub fn flush(&self, addr: u64) -> Result<Event, TrapKind>
        ensures ok { IfOk result (λ event. ShowsFlush self.now event addr 1) }
        ensures trap { IfErr result (λ kind. range_trap self.now addr 1 ≡ Some kind) }
    {
        if is_inside(self.base, self.size, addr, 1) {
            let offset = addr - self.base;
            return Ok(Event::Flush {
                line: first_line(self.base, offset),
                size: LINE_SIZE,
            });
        }
        if self.ram.valid(addr) {
            return Ok(Event::Quiet);
        }
        Err(TrapKind::Address)
    }

    /// The event of a flush of the cache lines of a range. It flushes no line if the range has no bytes or is outside
    /// the region.
    pub fn flush_range(&self, addr: u64, size: u64) -> Result<Event, TrapKind>
        ensures ok { IfOk result (λ event. ShowsFlush self.now event addr size) }
        ensures trap { IfErr result (λ kind. range_trap self.now addr size ≡ Some kind) }
    {
        if size > 0 && is_inside(self.base, self.size, addr, size) {
            let offset = addr - self.base;
            return Ok(Event::Flush {
                line: first_line(self.base, offset),
                size: lines_size(offset, size),
            });
        }
        if self.ram.valid_range(addr, size) {
            return Ok(Event::Quiet);
        }
        Err(TrapKind::Address)
    }

    /// The event of a flush of the cache lines of a range with a fence after it: the fence alone if no line is flushed.
    pub fn persist(&self, addr: u64, size: u64) -> Result<Event, TrapKind>
        ensures ok { IfOk result (λ event. ShowsPersist self.now event addr size) }
        ensures trap { IfErr result (λ kind. range_trap self.now addr size ≡ Some kind) }
    {
        let event = self.flush_range(addr, size)?;
        Ok(with_fence(event))
    }

    /// Whether a range is in the region.
    #[inline(always)]
    pub fn is_in_region(&self, addr: u64, size: u64) -> bool
        ensures { result ≡ lies_in_region self.now addr size }
    {
        is_inside(self.base, self.size, addr, size)
    }
}
