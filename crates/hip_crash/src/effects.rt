//! What the event of a step does to what is kept of the region.

ghost use Rattle.std.specs.Prelude.{◌≡◌, ◌<◌, ◌^◌, ℕ, List, length};
ghost use Rattle.hip_step.specs.Within.{IsWithin};
ghost use Rattle.hip_crash.specs.Effects.{noted};
ghost use Rattle.hip_crash.specs.Region.{seen_at};
ghost use Rattle.hip_crash.specs.PendingChange.{WaitsWithin};
ghost use Rattle.hip_crash.specs.declared.pending_change.Waiting.TheVariants as waits;

use crate::region_log::RegionLog;
use crate::values::StoredValue;
use hip_runs::Event;

/// Notes the event of a step in what is kept of a region at a base; it takes no memory.
#[inline(always)]
pub fn note(log: &mut RegionLog, base: u64, event: Event)
    requires idle { log.old.waiting ≡ waits.Nothing }
    requires within { (image : List ℕ) × IsWithin base (length image) event × (length image < 2 ^ 40) }
    ensures seen { (image : List ℕ) → (j : ℕ)
        → seen_at log.new image j ≡ noted base event j (seen_at log.old image j) }
    ensures within { (image : List ℕ) → IsWithin base (length image) event → WaitsWithin log.new.waiting image }
{
    if let Event::Quiet = event {
        return;
    }
    match event {
        Event::Store { addr, value, size } => log.note_store(StoredValue {
            offset: addr - base,
            value,
            size,
        }),
        Event::Flush { line, size } => log.note_flush(line - base, size),
        Event::Persist { line, size } => log.note_persist(line - base, size),
        Event::Fence => log.note_fence(),
        _ => {}
    }
}
