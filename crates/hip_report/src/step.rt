ghost use Rattle.std.specs.Prelude.{◌≡◌, ◌+◌, ◌<◌, ◌^◌, [], true, length, nat_eq, OnOk};
ghost use Rattle.hip_types.specs.Distinct.{met};
ghost use Rattle.hip_runs.specs.Ends.{longest};
ghost use Rattle.hip_runs.specs.Found.Marks.{event_hits};
ghost use Rattle.hip_runs.specs.Found.Objects.{global_at};
ghost use Rattle.hip_runs.specs.Seen.{state_of};
ghost use Rattle.hip_runs.specs.StoredParts.Shown.{shown};
ghost use Rattle.hip_ledger.specs.MetMarks.{WereHit};
ghost use Rattle.hip_ledger.specs.Noted.{IsLedger, Stood};
ghost use Rattle.hip_ledger.specs.Sights.{is_still, needs_calls};
ghost use Rattle.hip_report.specs.StandingCalls.{LooksAt};
ghost use Rattle.hip_report.specs.BeforeStep.{HasStepped, TellsGlobal, global_of};

use crate::calls::look_at_calls;
use crate::sight::{Sight, Target, target_at};
use hip_invariants::{runs_are_bounded, stack_keeps_its_shape};
use hip_ledger::{Ledger, Moment, Region, Sought, meet_global};
use hip_runs::{Event, Mark, Object};
use hip_step::Machine;
use hip_types::{NoMemory, Row};
use std::alloc::Global;

// Notes the persistent global that a step with this event stores into, if marks are sought, where this is the target of
// its last operand.
#[inline(always)]
fn note_hit(
    ledger: &mut Ledger,
    event: Event,
    last: Option<Target>,
    machine: &Machine<'_>,
) -> Result<(), NoMemory>
    requires known { WereHit ledger.old.hit.keys ledger.old.flags.items }
    requires last { TellsGlobal machine.now.program machine.now.input last }
    ensures hit { OnOk result (ledger.old.sought ≡ Sought.Findings → ledger.new.hit.keys ≡ met nat_eq ledger.old.hit.keys
        (event_hits machine.now.program machine.now.input event)) }
    ensures known { OnOk result (WereHit ledger.new.hit.keys ledger.new.flags.items) }
    ensures rest { OnOk result (ledger.new ≡ record ledger.old { hit = ledger.new.hit; flags = ledger.new.flags }) }
{
    match ledger.sought {
        Sought::Reports => Ok(()),
        Sought::Findings => meet_hit(ledger, event, last, machine),
    }
}

// Notes the persistent global that a step with this event stores into, where this is the target of its last operand.
#[inline(always)]
fn meet_hit(
    ledger: &mut Ledger,
    event: Event,
    last: Option<Target>,
    machine: &Machine<'_>,
) -> Result<(), NoMemory>
    requires known { WereHit ledger.old.hit.keys ledger.old.flags.items }
    requires last { TellsGlobal machine.now.program machine.now.input last }
    ensures hit { OnOk result (ledger.new.hit.keys ≡ met nat_eq ledger.old.hit.keys
        (event_hits machine.now.program machine.now.input event)) }
    ensures known { OnOk result (WereHit ledger.new.hit.keys ledger.new.flags.items) }
    ensures rest { OnOk result (ledger.new ≡ record ledger.old { hit = ledger.new.hit; flags = ledger.new.flags }) }
{
    match event {
        Event::Store { addr, .. } => match global_at(machine, last, addr) {
            Some(number) => meet_global(&mut ledger.hit, &mut ledger.flags, number),
            None => Ok(()),
        },
        _ => Ok(()),
    }
}

// The global that an address lies in; it may be the target of the last operand.
#[inline(always)]
fn global_at(machine: &Machine<'_>, last: Option<Target>, addr: u64) -> Option<usize>
    requires { TellsGlobal machine.now.program machine.now.input last }
    ensures { result ≡ global_at machine.now.program machine.now.input.base addr }
{
    match last {
        Some(target) if target.addr == addr => global_of(target.object),
        _ => global_of(target_at(machine, addr).object),
    }
}

// The number of the global, if the object is one.
#[inline(always)]
fn global_of(object: Option<Object>) -> Option<usize>
    ensures { result ≡ global_of object }
{
    match object {
        Some(Object::Global(number)) => Some(number),
        _ => None,
    }
}

// The region of the run that a machine takes.
#[inline(always)]
fn region_of<'a>(machine: &'a Machine<'_>) -> Region<'a>
    ensures base { result.base ≡ machine.now.input.base }
    ensures size { result.size ≡ length machine.now.input.image }
    ensures lines { result.lines.now.lines ≡ shown (state_of machine.now).lines }
{
    let input = machine.input();
    Region {
        base: input.base,
        size: input.image.len() as u64,
        lines: machine.lines(),
    }
}

// Whether a step with this event and these new marks has nothing to note.
#[inline(always)]
fn has_nothing_to_note(event: Event, marks: &Row<Mark>) -> bool
    ensures { result ≡ true → (is_still event ≡ true) × (marks.now ≡ []) }
{
    is_still(event) && marks.is_empty()
}

#[inline(always)]
fn is_still(event: Event) -> bool
    ensures { result ≡ is_still event }
{
    match event {
        Event::Quiet => true,
        Event::Print(_) => true,
        _ => false,
    }
}

#[inline(always)]
fn needs_calls(event: Event) -> bool
    ensures { result ≡ needs_calls event }
{
    match event {
        Event::Store { .. } => true,
        Event::Assert { .. } => true,
        Event::End(_) => true,
        _ => false,
    }
}

// Notes the standing calls, if a step with this event needs them.
#[inline(always)]
fn note_calls(
    alloc: Global,
    ledger: &mut Ledger,
    event: Event,
    machine: &Machine<'_>,
) -> Result<(), NoMemory>
    requires { Stood machine.now.program machine.now.input machine.now.taken ledger.old.calls }
    ensures { OnOk result (LooksAt event machine.now ledger.old ledger.new) }
{
    if needs_calls(event) {
        look_at_calls(alloc, &mut ledger.calls, machine)
    } else {
        Ok(())
    }
}

// Drops the ledger that no later check needs, if there are many notes. The last step of the machine was noted.
#[inline(always)]
fn forget(alloc: Global, ledger: &mut Ledger, machine: &Machine<'_>)
    requires noted { IsLedger machine.now.program machine.now.input machine.now.taken ledger.old }
    requires short { longest machine.now.program < 2 ^ 64 }
    ensures noted { IsLedger machine.now.program machine.now.input machine.now.taken ledger.new }
    ensures header { ledger.new.header ≡ ledger.old.header }
    ensures sought { ledger.new.sought ≡ ledger.old.sought }
{
    if !ledger.are_many() {
        return;
    }
    // Lemmas: runs are bounded, the input is valid.
    runs_are_bounded();
    let _input = machine.input();

    let region = region_of(machine);
    ledger.forget(alloc, &region);
}

/// Notes the step that a machine has taken.
#[inline(always)]
pub fn note_step(
    alloc: Global,
    ledger: &mut Ledger,
    sight: &Sight,
    seen: Event,
    machine: &Machine<'_>,
) -> Result<(), NoMemory>
    requires { HasStepped machine.now seen ledger.old sight.now }
    ensures noted { OnOk result (IsLedger machine.now.program machine.now.input machine.now.taken ledger.new) }
    ensures header { OnOk result (ledger.new.header ≡ ledger.old.header) }
    ensures sought { OnOk result (ledger.new.sought ≡ ledger.old.sought) }
{
    if sight.ended {
        return Ok(());
    }
    // Lemmas: runs are bounded, frames have calls, the program is sound, the input is valid.
    runs_are_bounded();
    stack_keeps_its_shape();
    let checked = machine.checked();
    let _program = checked.program();
    let _input = machine.input();
    if has_nothing_to_note(seen, &sight.pointed.marks) {
        ledger.steps += 1;
        return Ok(());
    }

    note_calls(alloc, ledger, seen, machine)?;
    let region = region_of(machine);
    let moment = Moment {
        site: sight.site,
        step: ledger.steps,
        entry: ledger.entries + 1,
    };
    ledger.note_check(alloc, seen, moment.entry, &region)?;
    ledger.note_memory(alloc, seen, moment, &region)?;
    ledger.note_marks(seen, sight.pointed.marks.as_slice())?;
    note_hit(ledger, seen, sight.pointed.last, machine)?;
    ledger.count(seen);
    forget(alloc, ledger, machine);
    Ok(())
}
