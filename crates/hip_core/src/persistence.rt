ghost use Rattle.std.specs.Prelude.{◌≡◌, ◌+◌, ◌<◌, ◌^◌, cond, false, Some};
ghost use Rattle.hip_runs.specs.Actions.{Fences, Flushes, Persists, flushing};
ghost use Rattle.hip_code.specs.Ops.{PersistenceWithin};
ghost use Rattle.hip_code.specs.declared.op.Effect.TheVariants as effects;
ghost use Rattle.hip_code.specs.declared.op.Memory.TheVariants as memories;
ghost use Rattle.hip_code.specs.declared.op.Op.TheVariants as ops;
ghost use Rattle.hip_core.specs.Acts.{Acts, DoesNext, numbers_of};
ghost use Rattle.hip_core.specs.Room.{HasRoom};

use crate::core_parts::Core;
use crate::values::read_here;
use hip_code::{Code, Persistence};
use hip_runs::{Ending, Event, TrapKind};

// Ends the run in a trap, without a turn.
fn halt(core: &mut Core, kind: TrapKind) -> Event
    requires { core.old.taken + 1 < 2 ^ 128 }
    ensures event { result ≡ Event.End (Ending.Trap kind) }
    ensures core { core.new ≡ record core.old { ending = Some (Ending.Trap kind); taken = core.old.taken + 1 } }
{
    let ending = Ending::Trap(kind);
    core.cut(ending);
    Event::End(ending)
}

// The flush of the line of an address.
fn flush(core: &mut Core, addr: u64) -> Event
    requires room { HasRoom core.old }
    ensures does { DoesNext core.old core.new result false (λ m. flushing m.program m.input m.world addr 1
        (Flushes addr 1)) }
    ensures taken { core.new.taken ≡ core.old.taken + 1 }
{
    match core.storage.flush(addr) {
        Ok(event) => {
            core.move_on();
            event
        }
        Err(kind) => halt(core, kind),
    }
}

// The flush of the lines of a range.
fn flush_range(core: &mut Core, addr: u64, size: u64) -> Event
    requires room { HasRoom core.old }
    ensures does { DoesNext core.old core.new result false (λ m. flushing m.program m.input m.world addr size
        (Flushes addr size)) }
    ensures taken { core.new.taken ≡ core.old.taken + 1 }
{
    match core.storage.flush_range(addr, size) {
        Ok(event) => {
            core.move_on();
            event
        }
        Err(kind) => halt(core, kind),
    }
}

// The flush of the lines of a range, and a fence after it.
fn persist(core: &mut Core, addr: u64, size: u64) -> Event
    requires room { HasRoom core.old }
    ensures does { DoesNext core.old core.new result false (λ m. flushing m.program m.input m.world addr size
        (Persists addr size)) }
    ensures taken { core.new.taken ≡ core.old.taken + 1 }
{
    match core.storage.persist(addr, size) {
        Ok(event) => {
            core.move_on();
            event
        }
        Err(kind) => halt(core, kind),
    }
}

// A fence.
fn fence(core: &mut Core) -> Event
    requires room { HasRoom core.old }
    ensures does { DoesNext core.old core.new result false (λ m. Fences) }
    ensures taken { core.new.taken ≡ core.old.taken + 1 }
{
    core.move_on();
    Event::Fence
}

// The flush of the lines of a range, which a fence may follow.
fn range(core: &mut Core, addr: u64, size: u64, fence: bool) -> Event
    requires room { HasRoom core.old }
    ensures does { DoesNext core.old core.new result false (λ m. flushing m.program m.input m.world addr size
        (cond fence (Persists addr size) (Flushes addr size))) }
    ensures taken { core.new.taken ≡ core.old.taken + 1 }
{
    if fence {
        persist(core, addr, size)
    } else {
        flush_range(core, addr, size)
    }
}

/// A flush or a fence, which takes no turn.
pub fn persistence(core: &mut Core, code: &Code, persistence: Persistence) -> Event
    requires room { HasRoom core.old }
    requires within { PersistenceWithin (numbers_of code.now core.old) persistence }
    ensures acts { Acts code.now core.old core.new result (ops.Memory (memories.Effect
        (effects.Persistence persistence))) }
    ensures taken { core.new.taken ≡ core.old.taken + 1 }
{
    match persistence {
        Persistence::Flush(addr) => {
            let address = read_here(core, code, addr);
            flush(core, address)
        }
        Persistence::Fence => fence(core),
        Persistence::Range { addr, size, fence } => {
            let address = read_here(core, code, addr);
            let count = read_here(core, code, size);
            range(core, address, count, fence)
        }
    }
}
