ghost use Rattle.std.specs.Prelude.{◌≡◌, [], IsTrue, OnOk};
ghost use Rattle.hip_io.specs.Cabinets.{CabinetState};
ghost use Rattle.hip_lockstep.specs.InStep.{IsInStep};
ghost use Rattle.hip_lockstep.specs.HeaderInput.{HasHeader};
ghost use Rattle.hip_report.specs.EndOfRun.{IsOver};
ghost use Rattle.hip_replay.specs.Replays.{Follows, FollowsSteps, Replays};
ghost use Rattle.hip_report.specs.TrackerView.{HasNoted};
ghost use Rattle.hip_trace.specs.declared.refusal.Progress.TheVariants.{Reading};

use hip_invariants::runs_are_bounded;
use hip_io::Cabinet;
use hip_lockstep::{Begun, Ended, Lockstep, ReplayRefusal, read_header};
use hip_report::{SharedFindings, Sought, Tracker};
use hip_runs::{Ending, Input, events_tell_output_and_ending, longest, runs_end};
use hip_sound::Checked;
use hip_step::{Begin, Machine};
use hip_trace::Reader;
use std::alloc::Global;

/// The run whose trace was replayed: its input, what it found of what was sought, how it has ended, and how many
/// entries its trace has. The findings have no marks if none were sought.
#[derive(Drop)]
pub struct Replayed {
    pub input: Input,
    pub findings: SharedFindings,
    pub ending: Ending,
    pub entries: u128,
}

/// What a run that was followed found, how it has ended, and how many entries its trace has.
#[derive(Drop)]
pub(crate) struct Followed {
    pub findings: SharedFindings,
    pub ending: Ending,
    pub entries: u128,
}

// A program, and what is sought in its run.
#[derive(Clone, Copy)]
struct SearchedProgram<'a> {
    checked: &'a Checked,
    sought: Sought,
}

/// Compares the rest of the current file with the trace of the run on the input that its header gives. It reads one
/// entry for each that the run makes, and at most one after the run's end. Memory is taken by the input and the
/// machine, and by what is noted: stores that are not durable, reports, and marks if they are sought.
pub fn replay<C: Cabinet>(
    alloc: Global,
    checked: &Checked,
    sought: Sought,
    reader: &mut Reader,
    cabinet: &mut C,
) -> Result<Replayed, ReplayRefusal>
    requires new { reader.old ≡ record { held = []; count = 0; progress = Reading } }
    requires current { IsTrue (C.state cabinet.old).is_current }
    ensures { Replays checked.now sought reader.new (C.state cabinet.old) (C.state cabinet.new) result }
{
    let Begun { input, lockstep } = read_header(alloc, checked, reader, cabinet)?;
    let Followed {
        findings,
        ending,
        entries,
    } = run_beside(
        alloc,
        SearchedProgram { checked, sought },
        &input,
        lockstep,
        reader,
        cabinet,
    )?;
    Ok(Replayed {
        input,
        findings,
        ending,
        entries,
    })
}

// Runs a program on an input, and compares the entries after the header with those of the run.
fn run_beside<C: Cabinet>(
    alloc: Global,
    searched: SearchedProgram<'_>,
    input: &Input,
    lockstep: Lockstep,
    reader: &mut Reader,
    cabinet: &mut C,
) -> Result<Followed, ReplayRefusal>
    requires current { IsTrue (C.state cabinet.old).is_current }
    requires begun { (start : CabinetState) × HasHeader searched.checked.now start reader.old (C.state cabinet.old)
        (record { input = input.now; lockstep = lockstep }) }
    ensures { (start : CabinetState) → HasHeader searched.entry.checked.now start reader.old (C.state cabinet.old)
        (record { input = input.now; lockstep = lockstep }) →
        Follows searched.entry.checked.now input.now searched.entry.sought start reader.new (C.state cabinet.new) result }
{
    let mut machine = Machine::new(alloc, searched.checked, input)?;
    note_beside(
        alloc,
        &mut machine,
        searched.sought,
        lockstep,
        reader,
        cabinet,
    )
}

// Takes the steps of a run after its header, compares their entries with those of a trace, and notes what is found.
fn note_beside<'a, C: Cabinet>(
    alloc: Global,
    machine: &mut Machine<'a>,
    sought: Sought,
    lockstep: Lockstep,
    reader: &mut Reader,
    cabinet: &mut C,
) -> Result<Followed, ReplayRefusal>
    requires fresh { machine.old.taken ≡ 0 }
    requires current { IsTrue (C.state cabinet.old).is_current }
    requires begun { (start : CabinetState) × IsInStep machine.old.program machine.old.input start 0 reader.old
        (C.state cabinet.old) lockstep }
    ensures { (start : CabinetState) → IsInStep machine.old.program machine.old.input start 0 reader.old
        (C.state cabinet.old) lockstep →
        Follows machine.old.program machine.old.input sought start reader.new (C.state cabinet.new) result }
{
    runs_are_bounded();
    let _program = machine.checked().program();
    let mut tracker = Tracker::new(alloc, lockstep.entries, sought)?;
    let ended = follow(machine, &mut tracker, lockstep, reader, cabinet)?;
    let findings = tracker.close(machine)?;
    Ok(Followed {
        findings,
        ending: ended.ending,
        entries: ended.entries,
    })
}

// Takes the steps of a run, and compares their entries with those of a trace.
fn follow<'a, C: Cabinet>(
    machine: &mut Machine<'a>,
    tracker: &mut Tracker<'a>,
    mut lockstep: Lockstep,
    reader: &mut Reader,
    cabinet: &mut C,
) -> Result<Ended, ReplayRefusal>
    requires current { IsTrue (C.state cabinet.old).is_current }
    requires begun { (start : CabinetState) × IsInStep machine.old.program machine.old.input start machine.old.taken
        reader.old (C.state cabinet.old) lockstep }
    requires noted { HasNoted tracker.old machine.old }
    ensures steps { (start : CabinetState) → IsInStep machine.old.program machine.old.input start machine.old.taken
        reader.old (C.state cabinet.old) lockstep →
        FollowsSteps machine.old.program machine.old.input start reader.new (C.state cabinet.new) result }
    ensures over { OnOk result (IsOver machine.old machine.new tracker.old tracker.new) }
{
    runs_end();
    runs_are_bounded();
    events_tell_output_and_ending();
    // No body has 2^64 instructions, so the entries can be counted.
    let program = machine.checked().program();
    let _most = longest(program);
    'steps: loop {
        let event = tracker.next_event(machine)?;
        match lockstep.meet(event, reader, cabinet)? {
            None => {}
            Some(ending) => {
                return Ok(Ended {
                    ending,
                    entries: lockstep.entries,
                });
            }
        }
    }
}
