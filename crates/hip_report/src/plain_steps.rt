ghost use Rattle.std.specs.Prelude.{◌≡◌, ◌↔◌, ◌+◌, ◌<◌, ◌^◌, IsTrue};
ghost use Rattle.hip_runner.specs.Quiet.{GoesQuietly};
ghost use Rattle.hip_ledger.specs.Noted.{IsLedger};
ghost use Rattle.hip_report.specs.BeforeStep.{Tracks};

use hip_invariants::runs_are_bounded;
use hip_ledger::{Ledger, Sought};
use hip_runs::Event;
use hip_step::Machine;

/// Whether a step had no event.
#[inline(always)]
pub fn is_quiet(event: Event) -> bool
    ensures { IsTrue result ↔ (event ≡ Event.Quiet) }
{
    matches!(event, Event::Quiet)
}

// Notes plain steps that a machine has taken.
#[inline(always)]
fn count_steps(ledger: &mut Ledger, count: u64)
    requires { ledger.old.steps + count < 2 ^ 128 }
    ensures { ledger.new ≡ record ledger.old { steps = ledger.old.steps + count } }
{
    ledger.steps += count as u128;
}

/// Takes steps without an event, and without a pointer operand if marks are sought, and notes them. It takes no step
/// where a store to the region, a flush or a fence is next.
#[inline(always)]
pub fn pass_steps(ledger: &mut Ledger, machine: &mut Machine<'_>)
    requires { Tracks machine.old ledger.old }
    ensures passes { GoesQuietly machine.old machine.new }
    ensures few { machine.new.taken < 2 ^ 128 }
    ensures noted { IsLedger machine.new.program machine.new.input machine.new.taken ledger.new }
    ensures header { ledger.new.header ≡ ledger.old.header }
    ensures sought { ledger.new.sought ≡ ledger.old.sought }
{
    match ledger.sought {
        Sought::Reports => pass_quietly(ledger, machine),
        Sought::Findings => pass_plainly(ledger, machine),
    }
}

// Takes steps without an event, and notes them; no marks are sought.
#[inline(always)]
fn pass_quietly(ledger: &mut Ledger, machine: &mut Machine<'_>)
    requires tracks { Tracks machine.old ledger.old }
    requires unmarked { ledger.old.sought ≡ Sought.Reports }
    ensures passes { GoesQuietly machine.old machine.new }
    ensures few { machine.new.taken < 2 ^ 128 }
    ensures noted { IsLedger machine.new.program machine.new.input machine.new.taken ledger.new }
    ensures header { ledger.new.header ≡ ledger.old.header }
    ensures sought { ledger.new.sought ≡ ledger.old.sought }
{
    machine.pass_quiet_steps();
    ledger.steps = machine.taken();
}

// Takes steps without an event and without a pointer operand, and notes them.
#[inline(always)]
fn pass_plainly(ledger: &mut Ledger, machine: &mut Machine<'_>)
    requires { Tracks machine.old ledger.old }
    ensures passes { GoesQuietly machine.old machine.new }
    ensures few { machine.new.taken < 2 ^ 128 }
    ensures noted { IsLedger machine.new.program machine.new.input machine.new.taken ledger.new }
    ensures header { ledger.new.header ≡ ledger.old.header }
    ensures sought { ledger.new.sought ≡ ledger.old.sought }
{
    // Lemmas: runs are bounded, the input is valid.
    runs_are_bounded();
    let _input = machine.input();
    let count = machine.pass_plain_steps();
    count_steps(ledger, count);
}
