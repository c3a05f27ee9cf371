ghost use Rattle.std.specs.Prelude.{◌≡◌, OnOk};
ghost use Rattle.hip_io.specs.Sinks.{AppendsAll, SinkState};
ghost use Rattle.hip_report.specs.EndOfRun.{IsOver};
ghost use Rattle.hip_report.specs.TrackerView.{HasNoted};
ghost use Rattle.hip_run_traces.specs.Traces.{header_of};
ghost use Rattle.hip_runs.specs.Validity.{IsValid};
ghost use Rattle.hip_trace.specs.Texts.{lines_of};
ghost use Rattle.hip_replay.specs.Delivery.{HoldsNothing};
ghost use Rattle.hip_replay.specs.RecordedTrace.{PutsTrace, Records};
ghost use Rattle.hip_replay.specs.Steps.{IsAtStart};

use crate::delivery::out_of_memory;
use crate::refusal::RecordRefusal;
use hip_invariants::runs_are_bounded;
use hip_io::{Put, Sink};
use hip_lockstep::{Ended, ending_of, put_entry, put_header};
use hip_report::{SharedFindings, Sought, Tracker};
use hip_runs::{Ending, Input, events_tell_output_and_ending, longest, runs_end};
use hip_sound::Checked;
use hip_step::{Begin, Machine};
use std::alloc::Global;

/// How a recorded run has ended, how many entries its trace has, and what it found.
#[derive(Drop)]
pub struct Recorded {
    pub ending: Ending,
    pub entries: u128,
    pub findings: SharedFindings,
}

/// Runs a program on an input, writes the trace of the run as `write_trace` does, and answers what the run found.
/// Memory is taken by the machine and by what is noted (stores that are not durable, marks and reports).
pub fn record_run<S: Sink>(
    alloc: Global,
    checked: &Checked,
    input: &Input,
    out: &mut S,
) -> Result<Recorded, RecordRefusal>
    requires { IsValid checked.now input.now }
    ensures records { Records checked.now input.now (S.state out.old) (S.state out.new) result }
    ensures delivered { HoldsNothing result (S.held out.new) }
{
    let mut machine = match Machine::new(alloc, checked, input) {
        Ok(machine) => machine,
        Err(_) => return Err(out_of_memory(out)),
    };
    record_whole(alloc, &mut machine, out)
}

// Writes the trace of a run, and notes its steps.
fn record_whole<'a, S: Sink>(
    alloc: Global,
    machine: &mut Machine<'a>,
    out: &mut S,
) -> Result<Recorded, RecordRefusal>
    requires { machine.old.taken ≡ 0 }
    ensures records { Records machine.old.program machine.old.input (S.state out.old) (S.state out.new) result }
    ensures delivered { HoldsNothing result (S.held out.new) }
{
    let _program = machine.checked().program();
    let header = put_header(machine.input(), out)?;
    record_steps(alloc, machine, header, out)
}

// Takes the steps of a run after its header, notes them, and writes their entries.
fn record_steps<'a, S: Sink>(
    alloc: Global,
    machine: &mut Machine<'a>,
    header: u128,
    out: &mut S,
) -> Result<Recorded, RecordRefusal>
    requires { IsAtStart machine.old header }
    ensures records { (start : SinkState) → AppendsAll start (S.state out.old) (lines_of (header_of machine.old.input)) →
        Records machine.old.program machine.old.input start (S.state out.new) result }
    ensures delivered { HoldsNothing result (S.held out.new) }
{
    runs_are_bounded();
    let _program = machine.checked().program();
    let mut tracker = match Tracker::new(alloc, header, Sought::Findings) {
        Ok(tracker) => tracker,
        Err(_) => return Err(out_of_memory(out)),
    };
    let ended = put_noted(machine, &mut tracker, header, out)?;
    let findings = tracker.close(machine)?;
    Ok(Recorded {
        ending: ended.ending,
        entries: ended.entries,
        findings,
    })
}

// Takes the steps of a run after its header, notes them, writes their entries and delivers them.
fn put_noted<'a, S: Sink>(
    machine: &mut Machine<'a>,
    tracker: &mut Tracker<'a>,
    header: u128,
    out: &mut S,
) -> Result<Ended, RecordRefusal>
    requires start { IsAtStart machine.old header }
    requires noted { HasNoted tracker.old machine.old }
    ensures trace { (start : SinkState) → AppendsAll start (S.state out.old) (lines_of (header_of machine.old.input)) →
        PutsTrace machine.old.program machine.old.input start (S.state out.new) result }
    ensures delivered { HoldsNothing result (S.held out.new) }
    ensures ended { OnOk result (IsOver machine.old machine.new tracker.old tracker.new) }
{
    match note_entries(machine, tracker, header, out) {
        Ok(ended) => match out.deliver() {
            Put::Done => Ok(ended),
            Put::Failed => Err(RecordRefusal::WriteFault),
        },
        Err(RecordRefusal::NoMemory) => Err(out_of_memory(out)),
        Err(RecordRefusal::WriteFault) => Err(RecordRefusal::WriteFault),
    }
}

// Goes from event to event of a run after its header, notes the steps, and writes the entries of the events. No other
// step has one.
fn note_entries<'a, S: Sink>(
    machine: &mut Machine<'a>,
    tracker: &mut Tracker<'a>,
    mut entries: u128,
    out: &mut S,
) -> Result<Ended, RecordRefusal>
    requires start { IsAtStart machine.old entries }
    requires noted { HasNoted tracker.old machine.old }
    ensures trace { (start : SinkState) → AppendsAll start (S.state out.old) (lines_of (header_of machine.old.input)) →
        PutsTrace machine.old.program machine.old.input start (S.state out.new) result }
    ensures ended { OnOk result (IsOver machine.old machine.new tracker.old tracker.new) }
{
    runs_end();
    runs_are_bounded();
    events_tell_output_and_ending();
    // No body has 2^64 instructions, so the entries can be counted.
    let program = machine.checked().program();
    let _most = longest(program);
    'steps: loop {
        let event = tracker.next_event(machine)?;
        entries += put_entry(event, out)?;
        match ending_of(event) {
            Some(ending) => return Ok(Ended { ending, entries }),
            None => {}
        }
    }
}
