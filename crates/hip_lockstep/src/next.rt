//! The next entry of a trace.

ghost use Rattle.std.specs.Prelude.{◌≡◌, ◌+◌, ◌<◌, ◌^◌, IsTrue};
ghost use Rattle.hip_lockstep.specs.Nexts.{EndsHere, FindsEntry, KeepsEntry, ReadsEnd, ReadsEntry};
ghost use Rattle.hip_trace.specs.declared.refusal.Progress.TheVariants.{Reading};

use crate::refusal::ReplayRefusal;
use hip_io::Cabinet;
use hip_run_traces::MisfitKind;
use hip_trace::{Entry, KeptEntry, Reader, TraceRefusal};

// The entry that was read after n others, or why there is none.
fn found(count: u128, next: Result<Option<Entry>, TraceRefusal>) -> Result<Entry, ReplayRefusal>
    requires { count + 1 < 2 ^ 128 }
    ensures { FindsEntry count next result }
{
    let entry = count + 1;
    match next {
        Ok(Some(next)) => Ok(next),
        Ok(None) => Err(ReplayRefusal::Misfit {
            entry,
            kind: MisfitKind::Early,
        }),
        Err(TraceRefusal::Malformed) => Err(ReplayRefusal::Misfit {
            entry,
            kind: MisfitKind::Malformed,
        }),
        Err(TraceRefusal::ReadFault) => Err(ReplayRefusal::ReadFault),
    }
}

// The entry after n others.
pub(crate) fn next_entry<C: Cabinet>(
    count: u128,
    reader: &mut Reader,
    cabinet: &mut C,
) -> Result<Entry, ReplayRefusal>
    requires room { count + 1 < 2 ^ 128 }
    requires current { IsTrue (C.state cabinet.old).is_current }
    requires reading { reader.old.progress ≡ Reading }
    ensures read { ReadsEntry count reader.old reader.new (C.state cabinet.old) (C.state cabinet.new) result }
    ensures current { IsTrue (C.state cabinet.new).is_current }
{
    let next = reader.next(cabinet);
    found(count, next)
}

// Reads the entry after n others, and keeps it.
pub(crate) fn read_next<C: Cabinet>(
    count: u128,
    next: &mut KeptEntry,
    reader: &mut Reader,
    cabinet: &mut C,
) -> Result<(), ReplayRefusal>
    requires room { count + 1 < 2 ^ 128 }
    requires current { IsTrue (C.state cabinet.old).is_current }
    requires reading { reader.old.progress ≡ Reading }
    ensures read { KeepsEntry count reader.old reader.new (C.state cabinet.old) (C.state cabinet.new) next.new result }
    ensures current { IsTrue (C.state cabinet.new).is_current }
{
    if reader.keep_usual(next) {
        return Ok(());
    }
    let entry = next_entry(count, reader, cabinet)?;
    next.set(entry);
    Ok(())
}

// Success if nothing was read after n entries, else the refusal.
fn ended(count: u128, next: Result<Option<Entry>, TraceRefusal>) -> Result<(), ReplayRefusal>
    requires { count + 1 < 2 ^ 128 }
    ensures { EndsHere count next result }
{
    let entry = count + 1;
    match next {
        Ok(None) => Ok(()),
        Ok(Some(_)) => Err(ReplayRefusal::Misfit {
            entry,
            kind: MisfitKind::Extra,
        }),
        Err(TraceRefusal::Malformed) => Err(ReplayRefusal::Misfit {
            entry,
            kind: MisfitKind::Malformed,
        }),
        Err(TraceRefusal::ReadFault) => Err(ReplayRefusal::ReadFault),
    }
}

// The end of the file, after n entries.
pub(crate) fn read_end<C: Cabinet>(
    count: u128,
    reader: &mut Reader,
    cabinet: &mut C,
) -> Result<(), ReplayRefusal>
    requires room { count + 1 < 2 ^ 128 }
    requires current { IsTrue (C.state cabinet.old).is_current }
    requires reading { reader.old.progress ≡ Reading }
    ensures read { ReadsEnd count reader.old reader.new (C.state cabinet.old) (C.state cabinet.new) result }
    ensures current { IsTrue (C.state cabinet.new).is_current }
{
    let next = reader.next(cabinet);
    ended(count, next)
}
