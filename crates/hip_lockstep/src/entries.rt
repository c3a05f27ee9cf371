//! The entries of a run's steps.

ghost use Rattle.std.specs.Prelude.{◌≡◌, IfOk, length};
ghost use Rattle.hip_io.specs.Sinks.{Wrote};
ghost use Rattle.hip_run_traces.specs.Traces.{entry_list, entry_of_ending, entry_of_event, trap_word};
ghost use Rattle.hip_runs.specs.Outputs.{ending_by};
ghost use Rattle.hip_trace.specs.Texts.{line_of, lines_of};
ghost use Rattle.hip_lockstep.specs.Usuals.{usual_of};

use hip_io::{Sink, WriteFault};
use hip_runs::{Ending, Event, TrapKind};
use hip_trace::{Entry, TrapWord, Usual, write_entry, write_usual};

/// The ending of the run, if a step with this event ends it.
#[inline(always)]
pub fn ending_of(event: Event) -> Option<Ending>
    ensures { result ≡ ending_by event }
{
    match event {
        Event::End(ending) => Some(ending),
        _ => None,
    }
}

fn trap_word(kind: TrapKind) -> TrapWord
    ensures { result ≡ trap_word kind }
{
    match kind {
        TrapKind::DivZero => TrapWord::DivZero,
        TrapKind::DivOverflow => TrapWord::DivOverflow,
        TrapKind::ShiftRange => TrapWord::ShiftRange,
        TrapKind::Address => TrapWord::Address,
        TrapKind::Misaligned => TrapWord::Misaligned,
        TrapKind::Stack => TrapWord::Stack,
        TrapKind::Depth => TrapWord::Depth,
        TrapKind::InputEnd => TrapWord::InputEnd,
        TrapKind::Unreachable => TrapWord::Unreachable,
    }
}

pub(crate) fn entry_of_ending(ending: Ending) -> Entry
    ensures { result ≡ entry_of_ending ending }
{
    match ending {
        Ending::Stop(code) => Entry::Stop { code },
        Ending::Trap(kind) => Entry::Trap {
            kind: trap_word(kind),
        },
        Ending::Cut => Entry::Cut,
    }
}

// The entry of a step with this event, if it has one and does not end the run.
#[inline(always)]
pub(crate) fn usual_of(event: Event) -> Option<Usual>
    ensures { result ≡ usual_of event }
{
    match event {
        Event::Store { addr, value, size } => Some(Usual::Store { addr, value, size }),
        Event::Flush { line, size } => Some(Usual::Flush { addr: line, size }),
        Event::Persist { line, size } => Some(Usual::Persist { addr: line, size }),
        Event::Fence => Some(Usual::Fence),
        Event::Assert { addr, size } => Some(Usual::Assert { addr, size }),
        _ => None,
    }
}

/// Writes the entry of a step with this event, and answers how many entries that is: one or none.
#[inline(always)]
pub fn put_entry<S: Sink>(event: Event, out: &mut S) -> Result<u128, WriteFault>
    ensures wrote { Wrote (S.state out.old) (S.state out.new) (lines_of (entry_list (entry_of_event event))) result }
    ensures count { IfOk result (λ n. n ≡ length (entry_list (entry_of_event event))) }
{
    match usual_of(event) {
        Some(usual) => {
            write_usual(usual, out)?;
            Ok(1)
        }
        None => match ending_of(event) {
            Some(ending) => put_ending(ending, out),
            None => Ok(0),
        },
    }
}

// Writes the entry of the step that ends the run.
fn put_ending<S: Sink>(ending: Ending, out: &mut S) -> Result<u128, WriteFault>
    ensures wrote { Wrote (S.state out.old) (S.state out.new) (line_of (entry_of_ending ending)) result }
    ensures count { IfOk result (λ n. n ≡ 1) }
{
    write_entry(&entry_of_ending(ending), out)?;
    Ok(1)
}
