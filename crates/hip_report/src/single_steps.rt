ghost use Rattle.std.specs.Prelude.{◌≡◌, ◌⊎◌, IfOk, OnErr, OnOk};
ghost use Rattle.hip_runs.specs.Seen.{after_step};
ghost use Rattle.hip_ledger.specs.Noted.{IsLedger};
ghost use Rattle.hip_report.specs.BeforeStep.{TakesStep, Tracks};

use crate::sight::{look, look_quickly};
use crate::step::note_step;
use hip_ledger::Ledger;
use hip_runs::Event;
use hip_step::Machine;
use hip_types::NoMemory;
use std::alloc::Global;

/// Takes a step of any kind, and notes it. The loop of a caller stays small, since this is a function of its own.
#[inline(never)]
pub fn step_generally(
    alloc: Global,
    ledger: &mut Ledger,
    machine: &mut Machine<'_>,
) -> Result<Event, NoMemory>
    requires { Tracks machine.old ledger.old }
    ensures ok { IfOk result (λ e. TakesStep machine.old machine.new e) }
    ensures noted { OnOk result (IsLedger machine.new.program machine.new.input machine.new.taken ledger.new) }
    ensures header { OnOk result (ledger.new.header ≡ ledger.old.header) }
    ensures sought { OnOk result (ledger.new.sought ≡ ledger.old.sought) }
    ensures err { OnErr result ((machine.new ≡ machine.old) ⊎ (machine.new ≡ after_step machine.old)) }
{
    let sight = look(alloc, ledger, machine)?;
    let event = machine.step()?;
    note_step(alloc, ledger, &sight, event, machine)?;
    Ok(event)
}

/// Takes a step, and notes it. Stores whose marks are known or not sought, flushes and fences take a
/// shorter path.
#[inline(always)]
pub fn take_step(
    alloc: Global,
    ledger: &mut Ledger,
    machine: &mut Machine<'_>,
) -> Result<Event, NoMemory>
    requires { Tracks machine.old ledger.old }
    ensures ok { IfOk result (λ e. TakesStep machine.old machine.new e) }
    ensures noted { OnOk result (IsLedger machine.new.program machine.new.input machine.new.taken ledger.new) }
    ensures header { OnOk result (ledger.new.header ≡ ledger.old.header) }
    ensures sought { OnOk result (ledger.new.sought ≡ ledger.old.sought) }
    ensures err { OnErr result ((machine.new ≡ machine.old) ⊎ (machine.new ≡ after_step machine.old)) }
{
    if let Some(sight) = look_quickly(alloc, ledger, machine) {
        if let Some(event) = machine.act_quickly()? {
            note_step(alloc, ledger, &sight, event, machine)?;
            return Ok(event);
        }
    }
    step_generally(alloc, ledger, machine)
}
