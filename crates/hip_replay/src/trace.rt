ghost use Rattle.std.specs.Prelude.{◌≡◌};
ghost use Rattle.hip_io.specs.Sinks.{AppendsAll, SinkState};
ghost use Rattle.hip_run_traces.specs.Traces.{header_of};
ghost use Rattle.hip_runs.specs.Validity.{IsValid};
ghost use Rattle.hip_trace.specs.Texts.{lines_of};
ghost use Rattle.hip_replay.specs.Delivery.{HoldsNothing};
ghost use Rattle.hip_replay.specs.RecordedTrace.{PutsTrace};
ghost use Rattle.hip_replay.specs.Steps.{IsAtStart};

use crate::delivery::out_of_memory;
use crate::refusal::RecordRefusal;
use hip_invariants::runs_are_bounded;
use hip_io::{Put, Sink};
use hip_lockstep::{Ended, ending_of, put_entry, put_header};
use hip_runner::Runner;
use hip_runs::{Input, events_tell_output_and_ending, longest, runs_end};
use hip_sound::Checked;
use hip_step::Begin;
use std::alloc::Global;

/// Runs a program on an input, and writes the trace of the run, a line for each entry. The entries are put as the steps
/// are taken, and delivered at the end and before a refusal, so after a refusal out has a front of the trace. Only the
/// runner takes memory.
pub fn write_trace<S: Sink>(
    alloc: Global,
    checked: &Checked,
    input: &Input,
    out: &mut S,
) -> Result<Ended, RecordRefusal>
    requires { IsValid checked.now input.now }
    ensures trace { PutsTrace checked.now input.now (S.state out.old) (S.state out.new) result }
    ensures delivered { HoldsNothing result (S.held out.new) }
{
    let mut runner = match Runner::new(alloc, checked, input) {
        Ok(runner) => runner,
        Err(_) => return Err(out_of_memory(out)),
    };
    put_trace(&mut runner, out)
}

// Puts the trace of a run, and delivers it.
fn put_trace<'a, S: Sink>(runner: &mut Runner<'a>, out: &mut S) -> Result<Ended, RecordRefusal>
    requires { runner.old.taken ≡ 0 }
    ensures trace { PutsTrace runner.old.program runner.old.input (S.state out.old) (S.state out.new) result }
    ensures delivered { HoldsNothing result (S.held out.new) }
{
    let _program = runner.checked().program();
    let header = put_header(runner.input(), out)?;
    put_steps(runner, header, out)
}

// Takes the steps of a run after its header, writes their entries and delivers them.
fn put_steps<'a, S: Sink>(
    runner: &mut Runner<'a>,
    header: u128,
    out: &mut S,
) -> Result<Ended, RecordRefusal>
    requires { IsAtStart runner.old header }
    ensures trace { (start : SinkState) → AppendsAll start (S.state out.old) (lines_of (header_of runner.old.input)) →
        PutsTrace runner.old.program runner.old.input start (S.state out.new) result }
    ensures delivered { HoldsNothing result (S.held out.new) }
{
    match put_entries(runner, header, out) {
        Ok(ended) => match out.deliver() {
            Put::Done => Ok(ended),
            Put::Failed => Err(RecordRefusal::WriteFault),
        },
        Err(RecordRefusal::NoMemory) => Err(out_of_memory(out)),
        Err(RecordRefusal::WriteFault) => Err(RecordRefusal::WriteFault),
    }
}

// Goes from event to event of a run after its header, and writes the entries of the events. No other step has an entry.
fn put_entries<'a, S: Sink>(
    runner: &mut Runner<'a>,
    mut entries: u128,
    out: &mut S,
) -> Result<Ended, RecordRefusal>
    requires { IsAtStart runner.old entries }
    ensures { (start : SinkState) → AppendsAll start (S.state out.old) (lines_of (header_of runner.old.input)) →
        PutsTrace runner.old.program runner.old.input start (S.state out.new) result }
{
    runs_end();
    runs_are_bounded();
    events_tell_output_and_ending();
    // No body has 2^64 instructions, so the entries can be counted.
    let program = runner.checked().program();
    let _most = longest(program);
    'steps: loop {
        let event = runner.next_event()?;
        entries += put_entry(event, out)?;
        match ending_of(event) {
            Some(ending) => return Ok(Ended { ending, entries }),
            None => {}
        }
    }
}
