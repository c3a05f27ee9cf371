ghost use Rattle.std.specs.Prelude.{◌≡◌, ◌↔◌, ◌<◌, ◌∷◌, false, length, option_map, slice_get, IfNone, IfSome, IsTrue, OnOk};
ghost use Rattle.hip_ledger.specs.Noted.{Stood};
ghost use Rattle.hip_report.specs.StandingCalls.{AreOutermost, StoodOutermost, standing};

use hip_invariants::stack_keeps_its_shape;
use hip_ledger::Calls;
use hip_runner::StandingCall;
use hip_step::Machine;
use hip_types::NoMemory;
use std::alloc::Global;

// How many steps were taken before the call that made the frame at a level.
#[inline(always)]
fn birth_at(machine: &Machine<'_>, level: usize) -> Option<u128>
    ensures { result ≡ option_map (λ l. l.birth) (slice_get (standing machine.now) level) }
{
    match machine.standing_call(level) {
        Some(call) => Some(call.birth),
        None => None,
    }
}

// Whether both are the same birth, or none.
#[inline(always)]
fn is_same_birth(a: Option<u128>, b: Option<u128>) -> bool
    ensures { IsTrue result ↔ (a ≡ b) }
{
    match (a, b) {
        (Some(a), Some(b)) => a == b,
        (None, None) => true,
        _ => false,
    }
}

// Whether these calls are the outermost ones of the `count` standing calls. Calls at one place with one birth are the
// same call, and so are the calls outside of them.
#[inline(always)]
fn are_outermost(calls: &Calls, machine: &Machine<'_>, count: usize) -> bool
    requires stood { StoodOutermost machine.now.program machine.now.input machine.now.taken calls.now }
    requires count { count ≡ length (standing machine.now) }
    ensures are { IsTrue result → AreOutermost calls.now (standing machine.now) }
    ensures some { result ≡ false → 0 < length calls.now }
{
    let known = calls.count();
    if known > count {
        return false;
    }
    is_same_birth(calls.last_birth(), birth_at(machine, count - known))
}

// Removes the calls that are no longer standing.
fn leave_calls(calls: &mut Calls, machine: &Machine<'_>, count: usize) -> Result<(), NoMemory>
    requires stood { StoodOutermost machine.now.program machine.now.input machine.now.taken calls.old }
    requires count { count ≡ length (standing machine.now) }
    ensures { OnOk result (AreOutermost calls.new (standing machine.now)) }
{
    'calls: while !are_outermost(calls, machine, count) {
        calls.leave()?;
    }
    Ok(())
}

// The outermost of the standing calls that are inside of these, if there is one. There are `count` standing calls.
fn next_inside(calls: &Calls, machine: &Machine<'_>, count: usize) -> Option<StandingCall>
    requires outer { AreOutermost calls.now (standing machine.now) }
    requires count { count ≡ length (standing machine.now) }
    ensures none { IfNone result (calls.now ≡ standing machine.now) }
    ensures some { IfSome result (λ call.
        AreOutermost (record { call = call.site; birth = call.birth } ∷ calls.now) (standing machine.now)) }
{
    let known = calls.count();
    if known >= count {
        return None;
    }
    machine.standing_call(count - known - 1)
}

// Adds the standing calls that are inside of these.
fn enter_calls(
    alloc: Global,
    calls: &mut Calls,
    machine: &Machine<'_>,
    count: usize,
) -> Result<(), NoMemory>
    requires outer { AreOutermost calls.old (standing machine.now) }
    requires count { count ≡ length (standing machine.now) }
    ensures { OnOk result (calls.new ≡ standing machine.now) }
{
    'calls: while let Some(call) = next_inside(calls, machine, count) {
        calls.enter(alloc, call.site, call.birth)?;
    }
    Ok(())
}

/// Looks at the standing calls of a machine. The time is linear in the calls and returns since the last look.
#[inline(always)]
pub fn look_at_calls(
    alloc: Global,
    calls: &mut Calls,
    machine: &Machine<'_>,
) -> Result<(), NoMemory>
    requires { Stood machine.now.program machine.now.input machine.now.taken calls.old }
    ensures { OnOk result (calls.new ≡ standing machine.now) }
{
    // Lemma: each frame but the bottom one has a call.
    stack_keeps_its_shape();
    let count = machine.depth() - 1;
    if calls.count() == count && are_outermost(calls, machine, count) {
        return Ok(());
    }
    leave_calls(calls, machine, count)?;
    enter_calls(alloc, calls, machine, count)
}
