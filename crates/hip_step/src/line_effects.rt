//! What the event of a step does to the cache lines.

ghost use Rattle.std.specs.Prelude.{◌≡◌, ◌-◌, ◌*◌, ◌<◌, ◌≤◌, length, true, OnOk, Some};
ghost use Rattle.hip_types.specs.declared.areas.TheConstants.{LINE_SIZE};
ghost use Rattle.hip_runs.specs.Actions.{in_region};
ghost use Rattle.hip_step.specs.Pending.{HasRoomFor, pending_after};
ghost use Rattle.hip_step.specs.Within.{IsWithin};

use hip_lines::Lines;
use hip_runner::StoreAhead;
use hip_runs::{Event, Input};
use hip_types::NoMemory;

/// Makes room for the parts of a store, if it lies in the region.
#[inline(always)]
pub fn make_room(lines: &mut Lines, input: &Input, store: StoreAhead) -> Result<(), NoMemory>
    requires whole { length input.now.image ≡ LINE_SIZE * length lines.old.lines }
    requires some { 0 < store.size }
    requires few { store.size ≤ 8 }
    ensures lines { lines.new.lines ≡ lines.old.lines }
    ensures ok { OnOk result (in_region input.now store.addr store.size ≡ true
        → lines.new.room ≡ Some (store.addr - input.now.base, store.size)) }
{
    let size = input.image.len() as u64;
    let Some(offset) = store.addr.checked_sub(input.base) else {
        return Ok(());
    };
    if offset <= size && store.size as u64 <= size - offset {
        return lines.make_room(offset, store.size);
    }
    Ok(())
}

/// Notes the event of a step. The tag of a store is the number of steps before it.
#[inline(always)]
pub fn note(lines: &mut Lines, base: u64, event: Event, tag: u128)
    requires within { IsWithin base (LINE_SIZE * length lines.old.lines) event }
    requires room { HasRoomFor base event lines.old }
    ensures { lines.new.lines ≡ pending_after base event tag lines.old.lines }
{
    match event {
        Event::Store { addr, size, .. } => match lines.note_store(addr - base, size, tag) {
            Ok(()) => {}
            Err(_) => unreachable!(),
        },
        Event::Flush { line, size } => lines.flush_range(line - base, size),
        Event::Persist { line, size } => {
            lines.flush_range(line - base, size);
            lines.fence();
        }
        Event::Fence => lines.fence(),
        _ => {}
    }
}
