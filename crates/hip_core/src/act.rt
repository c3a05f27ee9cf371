ghost use Rattle.std.specs.Prelude.{◌≡◌, ◌+◌, ◌<◌, ◌^◌, IfOk, OnErr, OnOk, Some};
ghost use Rattle.hip_code.specs.Ops.{ControlWithin, OpWithin};
ghost use Rattle.hip_code.specs.declared.op.Op.TheVariants as ops;
ghost use Rattle.hip_core.specs.Acts.{Acts, CarriesOutOp, CarriesHere, IsLaid, IsReady, KeepsStates, numbers_of};
ghost use Rattle.hip_core.specs.Room.{HasRoom, HasTurn};

use crate::branches::branch;
use crate::calls::{call, exit};
use crate::core_parts::Core;
use crate::memory_steps::step_memory;
use crate::values::step_value;
use hip_code::{Code, Control, Op};
use hip_runs::{Ending, Event, Input};
use hip_types::NoMemory;

// The end of a block, or a call.
#[inline(always)]
fn step_control(core: &mut Core, code: &Code, control: &Control) -> Result<Event, NoMemory>
    requires room { HasTurn core.old }
    requires within { ControlWithin (numbers_of code.now core.old) control.now }
    requires laid { IsLaid core.old }
    ensures ok { IfOk result (λ e. Acts code.now core.old core.new e (ops.Control control.now)) }
    ensures taken { OnOk result (core.new.taken ≡ core.old.taken + 1) }
    ensures err { OnErr result (KeepsStates core.old core.new) }
{
    match control {
        Control::Go(go) => {
            let event = branch(core, code, go)?;
            Ok(event)
        }
        Control::Call(callee) => {
            let event = call(core, code, callee)?;
            Ok(event)
        }
        Control::Exit(end) => Ok(exit(core, code, end)),
    }
}

// The run is cut.
pub fn cut(core: &mut Core) -> Event
    requires taken { core.old.taken + 1 < 2 ^ 128 }
    ensures event { result ≡ Event.End Ending.Cut }
    ensures core { core.new ≡ record core.old { ending = Some Ending.Cut; taken = core.old.taken + 1 } }
{
    core.cut(Ending::Cut);
    Event::End(Ending::Cut)
}

// Performs the action of an op.
#[inline(always)]
fn act(core: &mut Core, code: &Code, input: &Input, op: &Op) -> Result<Event, NoMemory>
    requires room { HasRoom core.old }
    requires within { OpWithin (numbers_of code.now core.old) op.now }
    requires laid { IsLaid core.old }
    ensures ok { IfOk result (λ e. CarriesOutOp input.now code.now core.old core.new e op.now) }
    ensures taken { OnOk result (core.new.taken ≡ core.old.taken + 1) }
    ensures err { OnErr result (KeepsStates core.old core.new) }
{
    match op {
        Op::Value { dest, value } => {
            if core.turns >= core.limit {
                return Ok(cut(core));
            }
            Ok(step_value(core, code, *dest, value))
        }
        Op::Control(control) => {
            if core.turns >= core.limit {
                return Ok(cut(core));
            }
            let event = step_control(core, code, control)?;
            Ok(event)
        }
        Op::Memory(memory) => step_memory(core, code, input, memory),
    }
}

/// The op at the machine's place.
#[inline(always)]
pub fn step_core(core: &mut Core, code: &Code, input: &Input) -> Result<Event, NoMemory>
    requires taken { core.old.taken + 1 < 2 ^ 128 }
    requires ready { IsReady code.now core.old }
    ensures ok { IfOk result (λ e. CarriesHere input.now code.now core.old core.new e) }
    ensures taken { OnOk result (core.new.taken ≡ core.old.taken + 1) }
    ensures err { OnErr result (KeepsStates core.old core.new) }
{
    let op = &code.ops[core.top.place];
    act(core, code, input, op)
}
