//! The steps of a run up to an entry of its trace.

ghost use Rattle.std.specs.Prelude.{◌≡◌, OnOk};
ghost use Rattle.hip_run_commands.specs.StepsToEntry.{ReachesEntry};
ghost use Rattle.hip_run_commands.specs.ImagesAtEntries.{TraceHasEntry};

use hip_crash::CrashLog;
use hip_step::Machine;
use hip_types::NoMemory;

/// Takes the steps of a run up to the first state with n entries, and notes them.
pub(crate) fn advance_to<'a>(
    log: &mut CrashLog<'a>,
    machine: &mut Machine<'a>,
    entry: u128,
) -> Result<(), NoMemory>
    requires same { log.old ≡ machine.old }
    requires fresh { log.old.taken ≡ 0 }
    requires has { TraceHasEntry log.old.program log.old.input entry }
    ensures { OnOk result (ReachesEntry log.old log.new entry) }
{
    'steps: while log.entries() < entry {
        log.advance(machine)?;
    }
    Ok(())
}
