ghost use Rattle.std.specs.Prelude.{◌≡◌, ◌++◌, codes};
ghost use Rattle.std.specs.Fmt.{signed_decimal};
ghost use Rattle.hip_io.specs.Sinks.{HasPut};
ghost use Rattle.hip_runs.specs.Outputs.{printed_by};
ghost use Rattle.hip_runs.specs.Validity.{IsValid};
ghost use Rattle.hip_replay.specs.Delivery.{HoldsNothing};
ghost use Rattle.hip_replay.specs.PrintedText.{Prints};

use crate::delivery::out_of_memory;
use crate::refusal::RecordRefusal;
use hip_invariants::runs_are_bounded;
use hip_io::{Put, Sink};
use hip_lockstep::ending_of;
use hip_num::decimal_into;
use hip_runner::Runner;
use hip_runs::{Ending, Event, Input, events_tell_output_and_ending, runs_end};
use hip_sound::Checked;
use hip_step::Begin;
use std::alloc::Global;

/// Runs a program on an input, and writes what it prints: each number in signed decimal with a line feed. The numbers
/// are put as they are printed, and delivered at the end and before a refusal, so after a refusal out has a front of
/// the run's text. Only the runner takes memory.
pub fn print_run<S: Sink>(
    alloc: Global,
    checked: &Checked,
    input: &Input,
    out: &mut S,
) -> Result<Ending, RecordRefusal>
    requires { IsValid checked.now input.now }
    ensures prints { Prints checked.now input.now (S.state out.old) (S.state out.new) result }
    ensures delivered { HoldsNothing result (S.held out.new) }
{
    runs_end();
    runs_are_bounded();
    events_tell_output_and_ending();
    let mut runner = match Runner::new(alloc, checked, input) {
        Ok(runner) => runner,
        Err(_) => return Err(out_of_memory(out)),
    };
    print_whole(&mut runner, out)
}

// Puts what a run prints, and delivers it.
fn print_whole<'a, S: Sink>(runner: &mut Runner<'a>, out: &mut S) -> Result<Ending, RecordRefusal>
    requires { runner.old.taken ≡ 0 }
    ensures prints { Prints runner.old.program runner.old.input (S.state out.old) (S.state out.new) result }
    ensures delivered { HoldsNothing result (S.held out.new) }
{
    match print_steps(runner, out) {
        Ok(ending) => match out.deliver() {
            Put::Done => Ok(ending),
            Put::Failed => Err(RecordRefusal::WriteFault),
        },
        Err(RecordRefusal::NoMemory) => Err(out_of_memory(out)),
        Err(RecordRefusal::WriteFault) => Err(RecordRefusal::WriteFault),
    }
}

// Goes from print to print of a run, and puts what is printed.
fn print_steps<'a, S: Sink>(runner: &mut Runner<'a>, out: &mut S) -> Result<Ending, RecordRefusal>
    requires { runner.old.taken ≡ 0 }
    ensures { Prints runner.old.program runner.old.input (S.state out.old) (S.state out.new) result }
{
    runs_end();
    runs_are_bounded();
    events_tell_output_and_ending();
    'steps: loop {
        let event = runner.next_print()?;
        match ending_of(event) {
            Some(ending) => return Ok(ending),
            None => match put_event(out, event) {
                Put::Done => {}
                Put::Failed => return Err(RecordRefusal::WriteFault),
            },
        }
    }
}

// Writes what is printed in a step with this event.
#[inline(always)]
fn put_event<S: Sink>(out: &mut S, event: Event) -> Put
    ensures { HasPut (S.state out.old) (S.state out.new) (printed_by event) result }
{
    match event {
        Event::Print(number) => put_line(out, number),
        _ => Put::Done,
    }
}

// Writes a number in signed decimal, with a line feed.
fn put_line<S: Sink>(out: &mut S, number: i64) -> Put
    ensures { HasPut (S.state out.old) (S.state out.new) (signed_decimal number ++ codes "\n") result }
{
    let mut digits = [0; 40];
    let length = decimal_into(&mut digits, number);
    let mut line = [b'\n'; 41];
    line[..length].copy_from_slice(&digits[..length]);
    line[length] = b'\n';
    out.put(&line[..length + 1])
}
