ghost use Rattle.std.specs.Prelude.{◌≡◌, ℕ, ◌+◌, ◌-◌, ◌<◌, ◌≤◌, ◌^◌, [], ◌∷◌, ◌++◌, cond, length, true, IfOk, OnErr, OnOk, Some, FitsSigned, pos, slice_index_or};
ghost use Rattle.std.specs.Int.{w64};
ghost use Rattle.hip_types.specs.Numbers.{signed, wrapped};
ghost use Rattle.hip_types.specs.declared.number.Width.TheVariants.{W64};
ghost use Rattle.hip_mem.specs.Areas.{mark_of};
ghost use Rattle.hip_types.specs.Areas.{stack_start};
ghost use Rattle.hip_runs.specs.Actions.{Asserts, Prints, Traps, in_region};
ghost use Rattle.hip_runs.specs.declared.event.TrapKind.TheVariants as traps;
ghost use Rattle.hip_code.specs.Ops.{EffectWithin, MemoryWithin, OutsideWithin};
ghost use Rattle.hip_code.specs.declared.code.Code.{Code};
ghost use Rattle.hip_code.specs.declared.op.Effect.TheVariants as effects;
ghost use Rattle.hip_code.specs.declared.op.Memory.TheVariants as memories;
ghost use Rattle.hip_code.specs.declared.op.Op.TheVariants as ops;
ghost use Rattle.hip_code.specs.declared.op.Outside.TheVariants as outsides;
ghost use Rattle.hip_objects.specs.Blocks.{IsPast, nonempty};
ghost use Rattle.hip_storage.specs.Contents.{after_pop};
ghost use Rattle.hip_core.specs.Acts.{Acts, ActsOn, CarriesOutOp, DoesNext, IsLaid, KeepsStates, numbers_of};
ghost use Rattle.hip_core.specs.Puts.{with_result};
ghost use Rattle.hip_core.specs.Room.{HasRoom, HasTurn};

use crate::act::cut;
use crate::calls::{put_result, trap};
use crate::core_parts::Core;
use crate::persistence::persistence;
use crate::values::read_here;
use hip_code::{Code, Effect, Memory, OpOperand, Outside};
use hip_objects::StackBlock;
use hip_runs::{Event, Input, TrapKind};
use hip_storage::StorageRefusal;
use hip_types::{Bits, NoMemory, Width};

// A load.
#[inline(always)]
fn load(core: &mut Core, code: &Code, dest: u32, width: Width, align: u32, addr: OpOperand) -> Event
    requires room { HasTurn core.old }
    requires within { MemoryWithin (numbers_of code.now core.old) (memories.Load dest width align addr) }
    ensures acts { Acts code.now core.old core.new result (ops.Memory (memories.Load dest width align addr)) }
    ensures taken { core.new.taken ≡ core.old.taken + 1 }
{
    let address = read_here(core, code, addr);
    let count = width.bytes();
    match core.storage.load(address, count, align) {
        Ok(number) => {
            let cut = Bits::new(width, number).value;
            core.assign(dest, cut);
            Event::Quiet
        }
        Err(kind) => trap(core, kind),
    }
}

// A store.
#[inline(always)]
fn store(
    core: &mut Core,
    code: &Code,
    size: u32,
    align: u32,
    value: OpOperand,
    addr: OpOperand,
) -> Result<Event, NoMemory>
    requires room { HasTurn core.old }
    requires within { MemoryWithin (numbers_of code.now core.old) (memories.Store size align value addr) }
    ensures ok { IfOk result (λ e. Acts code.now core.old core.new e (ops.Memory
        (memories.Store size align value addr))) }
    ensures taken { OnOk result (core.new.taken ≡ core.old.taken + 1) }
    ensures err { OnErr result (KeepsStates core.old core.new) }
{
    let address = read_here(core, code, addr);
    let number = read_here(core, code, value);
    match core.storage.store(address, size, align, number) {
        Ok(event) => {
            core.pass();
            Ok(event)
        }
        Err(StorageRefusal::Trap(kind)) => Ok(trap(core, kind)),
        Err(StorageRefusal::NoMemory) => Err(NoMemory),
    }
}

// Keeps a block that was made on the stack, or sets the stack's mark back if there is no memory to keep it.
fn keep_block(core: &mut Core, mark: u64, addr: u64, size: u32) -> Result<(), NoMemory>
    requires past { IsPast addr core.old.blocks }
    requires entry { core.old.top.entry ≤ core.old.top.place }
    requires low { stack_start ≤ mark }
    requires high { mark ≤ mark_of core.old.storage.areas }
    ensures ok { OnOk result (core.new ≡ record core.old {
      blocks = core.old.blocks ++ nonempty (record {
        addr = addr;
        size = size;
        site = record {
          function = core.old.top.function;
          block = core.old.top.block;
          index = core.old.top.place - core.old.top.entry;
        };
      } ∷ []);
    }) }
    ensures err { OnErr result (core.new ≡ record core.old { storage = after_pop mark core.old.storage }) }
{
    let site = core.site();
    let block = StackBlock {
        addr,
        size: size as u64,
        site,
    };
    match core.blocks.push(block) {
        Ok(()) => Ok(()),
        Err(NoMemory) => {
            core.storage.pop(mark);
            Err(NoMemory)
        }
    }
}

// An `alloca`.
fn alloca(core: &mut Core, dest: u32, size: u32, align: u32) -> Result<Event, NoMemory>
    requires room { HasTurn core.old }
    requires slot { core.old.top.base + dest < length core.old.slots.items }
    requires align { 0 < align }
    requires laid { IsLaid core.old }
    ensures ok { IfOk result (λ e. (code : Code) → Acts code core.old core.new e (ops.Memory (memories.Effect
        (effects.Alloca dest size align)))) }
    ensures taken { OnOk result (core.new.taken ≡ core.old.taken + 1) }
    ensures err { OnErr result (KeepsStates core.old core.new) }
{
    let mark = core.storage.mark();
    match core.storage.push(size as u64, align as u64) {
        Ok(addr) => {
            keep_block(core, mark, addr, size)?;
            core.assign(dest, addr);
            Ok(Event::Quiet)
        }
        Err(StorageRefusal::Trap(kind)) => Ok(trap(core, kind)),
        Err(StorageRefusal::NoMemory) => Err(NoMemory),
    }
}

fn as_signed(value: u64) -> i64
    ensures value { result ≡ signed W64 value }
    ensures fits { FitsSigned w64 result }
{
    if value < 0x8000_0000_0000_0000 {
        value as i64
    } else {
        -((u64::MAX - value) as i64) - 1
    }
}

fn as_unsigned(value: i64) -> u64
    ensures { result ≡ wrapped W64 value }
{
    value.cast_unsigned()
}

// The next input number goes to a slot, or nowhere.
fn take_number(core: &mut Core, dest: Option<u32>, number: i64) -> Event
    requires room { HasTurn core.old }
    requires read { core.old.read + 1 < 2 ^ 64 }
    requires slot { (slot : ℕ) → dest ≡ Some slot → core.old.top.base + slot < length core.old.slots.items }
    ensures event { result ≡ Event.Quiet }
    ensures others { core.new ≡ record core.old {
      slots = core.new.slots;
      read = core.old.read + 1;
      top = record core.old.top
          { place = core.old.top.place + 1 };
      taken = core.old.taken + 1;
      turns = core.old.turns + 1;
    } }
    ensures slots { core.new.slots.items ≡ with_result core.old.top.base dest
        (wrapped W64 number) core.old.slots.items }
{
    let value = as_unsigned(number);
    put_result(core.slots.as_mut_slice(), core.top.base, dest, value);
    core.read += 1;
    core.pass();
    Event::Quiet
}

fn number_at(numbers: &[i64], place: usize) -> i64
    requires { place < length numbers.now }
    ensures value { result ≡ slice_index_or numbers.now place (pos 0) }
    ensures fits { FitsSigned w64 result }
{
    numbers[place]
}

// A read of an input number.
fn read_number(core: &mut Core, input: &Input, dest: Option<u32>) -> Event
    requires room { HasTurn core.old }
    requires slot { (slot : ℕ) → dest ≡ Some slot → core.old.top.base + slot < length core.old.slots.items }
    ensures acts { (code : Code) → ActsOn input.now code core.old core.new result (ops.Memory (memories.Effect
        (effects.Outside (outsides.Read dest)))) }
    ensures taken { core.new.taken ≡ core.old.taken + 1 }
{
    let numbers = input.numbers.as_slice();
    if core.read < numbers.len() {
        let number = number_at(numbers, core.read);
        take_number(core, dest, number)
    } else {
        trap(core, TrapKind::InputEnd)
    }
}

// The check of a range of the region.
fn assert_range(core: &mut Core, addr: u64, size: u64) -> Event
    requires room { HasTurn core.old }
    ensures does { DoesNext core.old core.new result true (λ m. cond (in_region m.input addr size)
        (Asserts addr size) (Traps traps.Address)) }
    ensures taken { core.new.taken ≡ core.old.taken + 1 }
{
    if core.storage.is_in_region(addr, size) {
        core.pass();
        Event::Assert { addr, size }
    } else {
        trap(core, TrapKind::Address)
    }
}

// A number is printed.
fn print(core: &mut Core, value: u64) -> Event
    requires room { HasTurn core.old }
    ensures does { DoesNext core.old core.new result true (λ m. Prints (signed W64 value)) }
    ensures taken { core.new.taken ≡ core.old.taken + 1 }
{
    core.pass();
    Event::Print(as_signed(value))
}

// An op on the outside.
fn outside(core: &mut Core, code: &Code, input: &Input, outside: Outside) -> Event
    requires room { HasTurn core.old }
    requires within { OutsideWithin (numbers_of code.now core.old) outside }
    ensures acts { ActsOn input.now code.now core.old core.new result (ops.Memory (memories.Effect
        (effects.Outside outside))) }
    ensures taken { core.new.taken ≡ core.old.taken + 1 }
{
    match outside {
        Outside::Assert { addr, size } => {
            let address = read_here(core, code, addr);
            let count = read_here(core, code, size);
            assert_range(core, address, count)
        }
        Outside::Print(value) => {
            let number = read_here(core, code, value);
            print(core, number)
        }
        Outside::Read(dest) => read_number(core, input, dest),
    }
}

// An op that acts on the stack or on the outside, or is a flush or a fence.
fn step_effect(
    core: &mut Core,
    code: &Code,
    input: &Input,
    effect: &Effect,
) -> Result<Event, NoMemory>
    requires room { HasRoom core.old }
    requires within { EffectWithin (numbers_of code.now core.old) effect.now }
    requires laid { IsLaid core.old }
    ensures ok { IfOk result (λ e. CarriesOutOp input.now code.now core.old core.new e (ops.Memory
        (memories.Effect effect.now))) }
    ensures taken { OnOk result (core.new.taken ≡ core.old.taken + 1) }
    ensures err { OnErr result (KeepsStates core.old core.new) }
{
    match effect {
        Effect::Alloca { dest, size, align } => {
            if core.turns >= core.limit {
                return Ok(cut(core));
            }
            let event = alloca(core, *dest, *size, *align)?;
            Ok(event)
        }
        Effect::Persistence(action) => Ok(persistence(core, code, *action)),
        Effect::Outside(action) => {
            if core.turns >= core.limit {
                return Ok(cut(core));
            }
            Ok(outside(core, code, input, *action))
        }
    }
}

/// An op on memory or on the outside, or a flush or a fence.
#[inline(always)]
pub fn step_memory(
    core: &mut Core,
    code: &Code,
    input: &Input,
    memory: &Memory,
) -> Result<Event, NoMemory>
    requires room { HasRoom core.old }
    requires within { MemoryWithin (numbers_of code.now core.old) memory.now }
    requires laid { IsLaid core.old }
    ensures ok { IfOk result (λ e. CarriesOutOp input.now code.now core.old core.new e (ops.Memory memory.now)) }
    ensures taken { OnOk result (core.new.taken ≡ core.old.taken + 1) }
    ensures err { OnErr result (KeepsStates core.old core.new) }
{
    match memory {
        Memory::Load {
            dest,
            width,
            align,
            addr,
        } => {
            if core.turns >= core.limit {
                return Ok(cut(core));
            }
            Ok(load(core, code, *dest, *width, *align, *addr))
        }
        Memory::Store {
            size,
            align,
            value,
            addr,
        } => {
            if core.turns >= core.limit {
                return Ok(cut(core));
            }
            let event = store(core, code, *size, *align, *value, *addr)?;
            Ok(event)
        }
        Memory::Effect(effect) => {
            let event = step_effect(core, code, input, effect)?;
            Ok(event)
        }
    }
}
