//! The entries of a trace, compared with the steps of a run.

ghost use Rattle.std.specs.Prelude.{◌≡◌, ◌+◌, ◌<◌, ◌^◌, Some, IsTrue};
ghost use Rattle.hip_runs.specs.Outputs.{ending_by};
ghost use Rattle.hip_runs.specs.declared.event.Event.{Event};
ghost use Rattle.hip_lockstep.specs.InStep.{Meets};
ghost use Rattle.hip_lockstep.specs.Usuals.{usual_of};
ghost use Rattle.hip_trace.specs.declared.refusal.Progress.TheVariants.{Reading};

use crate::entries::{ending_of, entry_of_ending, usual_of};
use crate::next::{read_end, read_next};
use crate::refusal::ReplayRefusal;
use hip_io::Cabinet;
use hip_run_traces::MisfitKind;
use hip_runs::{Ending, Event};
use hip_trace::{KeptEntry, Reader, Usual};

/// How many entries of a trace match the run so far, and the entry that was read after them.
#[derive(Drop)]
pub struct Lockstep {
    pub next: KeptEntry,
    pub entries: u128,
}

impl Lockstep {
    /// Compares the entry of the next step, which has this event, with the one that was read, and reads the next one; a
    /// step without an entry reads nothing. If the step ends the run, the file must end too, and the ending is
    /// answered.
    #[inline(always)]
    pub fn meet<C: Cabinet>(
        &mut self,
        event: Event,
        reader: &mut Reader,
        cabinet: &mut C,
    ) -> Result<Option<Ending>, ReplayRefusal>
        requires room { self.old.entries + 2 < 2 ^ 128 }
        requires current { IsTrue (C.state cabinet.old).is_current }
        requires reading { reader.old.progress ≡ Reading }
        ensures meets { Meets event self.old self.new reader.old reader.new (C.state cabinet.old)
            (C.state cabinet.new) result }
        ensures current { IsTrue (C.state cabinet.new).is_current }
    {
        match usual_of(event) {
            Some(made) => self.meet_usual(made, reader, cabinet),
            None => match ending_of(event) {
                Some(ending) => self.meet_ending(ending, reader, cabinet),
                None => Ok(None),
            },
        }
    }

    // Compares the entry of a step that does not end the run, and reads the next one.
    #[inline(always)]
    fn meet_usual<C: Cabinet>(
        &mut self,
        made: Usual,
        reader: &mut Reader,
        cabinet: &mut C,
    ) -> Result<Option<Ending>, ReplayRefusal>
        requires room { self.old.entries + 2 < 2 ^ 128 }
        requires current { IsTrue (C.state cabinet.old).is_current }
        requires reading { reader.old.progress ≡ Reading }
        ensures meets { (e : Event) → usual_of e ≡ Some made → Meets e self.old self.new reader.old reader.new
            (C.state cabinet.old) (C.state cabinet.new) result }
        ensures current { IsTrue (C.state cabinet.new).is_current }
    {
        if !self.next.is_usual(made) {
            return Err(ReplayRefusal::Misfit {
                entry: self.entries + 1,
                kind: MisfitKind::Differs,
            });
        }
        self.entries += 1;
        read_next(self.entries, &mut self.next, reader, cabinet)?;
        Ok(None)
    }

    // Compares the entry of the step that ends the run, and reads the end of the file.
    fn meet_ending<C: Cabinet>(
        &mut self,
        ending: Ending,
        reader: &mut Reader,
        cabinet: &mut C,
    ) -> Result<Option<Ending>, ReplayRefusal>
        requires room { self.old.entries + 2 < 2 ^ 128 }
        requires current { IsTrue (C.state cabinet.old).is_current }
        requires reading { reader.old.progress ≡ Reading }
        ensures meets { (e : Event) → ending_by e ≡ Some ending → Meets e self.old self.new reader.old reader.new
            (C.state cabinet.old) (C.state cabinet.new) result }
        ensures current { IsTrue (C.state cabinet.new).is_current }
    {
        if !self.next.is(&entry_of_ending(ending)) {
            return Err(ReplayRefusal::Misfit {
                entry: self.entries + 1,
                kind: MisfitKind::Differs,
            });
        }
        self.entries += 1;
        read_end(self.entries, reader, cabinet)?;
        Ok(Some(ending))
    }
}
