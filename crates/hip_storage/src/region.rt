ghost use Rattle.std.specs.Prelude.{◌≡◌, ◌+◌, ◌-◌, ◌*◌, ◌/◌, ◌^◌, ◌<◌, ◌≤◌, length, IfErr, OnOk, OnErr, None, option_map};
ghost use Rattle.std.specs.Bool.{OnTrue};
ghost use Rattle.hip_types.specs.declared.limits.TheConstants.{LARGEST_REGION};
ghost use Rattle.hip_types.specs.declared.areas.TheConstants.{LINE_SIZE};
ghost use Rattle.hip_mem.specs.Areas.{access_trap, after_write};
ghost use Rattle.hip_types.specs.Bytes.{little_endian, bytes_of};
ghost use Rattle.hip_runs.specs.Actions.{is_within};
ghost use Rattle.hip_storage.specs.Calls.{IsRefusedFor};
ghost use Rattle.hip_storage.specs.Contents.{kind_of, with_fence};

use crate::refusal::StorageRefusal;
use hip_mem::{MemTrap, Ram, StoreRefusal};
use hip_runs::{Event, TrapKind};
use hip_types::LINE_SIZE;

/// The trap of a run for each trap of the memory.
#[inline(always)]
pub fn kind_of(trap: MemTrap) -> TrapKind
    ensures { result ≡ kind_of trap }
{
    match trap {
        MemTrap::Misaligned => TrapKind::Misaligned,
        MemTrap::BadAddress => TrapKind::Address,
    }
}

/// Whether `count` bytes from an address on are in the region, which has a base and a size.
#[inline(always)]
pub fn is_inside(base: u64, size: u64, addr: u64, count: u64) -> bool
    requires { base + size < 2 ^ 64 }
    ensures within { result ≡ is_within base (base + size) addr count }
    ensures bounds { OnTrue result ((base ≤ addr) × (addr + count ≤ base + size)) }
{
    base <= addr && addr - base <= size && count <= size - (addr - base)
}

/// The number that the low bytes of a number hold.
#[inline(always)]
#[tactic(auto, using(crate::proofs::LowBytes::remainder_is))]
pub fn low_bytes(value: u64, count: u32) -> u64
    requires few { count ≤ 8 }
    ensures { result ≡ little_endian (bytes_of count value) }
{
    if count >= 8 {
        value
    } else {
        value % (1u64 << (8 * count))
    }
}

/// Writes the low bytes of a number.
#[inline(always)]
pub fn put(
    ram: &mut Ram,
    addr: u64,
    count: u32,
    align: u32,
    value: u64,
) -> Result<(), StorageRefusal>
    requires some { 0 < count }
    requires few { count ≤ 8 }
    requires align { 0 < align }
    ensures allowed { OnOk result (access_trap ram.old addr count align ≡ None) }
    ensures ok { OnOk result (ram.new ≡ after_write (record { addr = addr; bytes = bytes_of count value }) ram.old) }
    ensures err { OnErr result (ram.new ≡ ram.old) }
    ensures base { ram.new.base ≡ ram.old.base }
    ensures region { length ram.new.region ≡ length ram.old.region }
    ensures refusal { IfErr result (λ refusal.
        IsRefusedFor (option_map kind_of (access_trap ram.old addr count align)) refusal) }
{
    match ram.store(addr, count, align, value) {
        Ok(()) => Ok(()),
        Err(StoreRefusal::Misaligned) => Err(StorageRefusal::Trap(TrapKind::Misaligned)),
        Err(StoreRefusal::BadAddress) => Err(StorageRefusal::Trap(TrapKind::Address)),
        Err(StoreRefusal::NoMemory) => Err(StorageRefusal::NoMemory),
    }
}

/// The event of a flush with a fence after it.
pub fn with_fence(event: Event) -> Event
    ensures { result ≡ with_fence event }
{
    match event {
        Event::Flush { line, size } => Event::Persist { line, size },
        _ => Event::Fence,
    }
}

/// The address of the cache line of an offset in the region.
#[inline(always)]
pub fn first_line(base: u64, offset: u64) -> u64
    requires { base + offset < 2 ^ 64 }
    ensures { result ≡ base + LINE_SIZE * (offset / LINE_SIZE) }
{
    base + LINE_SIZE * (offset / LINE_SIZE)
}

/// The size in bytes of the cache lines that have a byte of a range.
#[inline(always)]
pub fn lines_size(offset: u64, len: u64) -> u64
    requires some { 0 < len }
    requires range { offset + len ≤ LARGEST_REGION }
    ensures { result ≡ LINE_SIZE * ((offset + len - 1) / LINE_SIZE + 1) - LINE_SIZE * (offset / LINE_SIZE) }
{
    LINE_SIZE * ((offset + len - 1) / LINE_SIZE + 1) - LINE_SIZE * (offset / LINE_SIZE)
}
