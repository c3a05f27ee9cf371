ghost use Rattle.std.specs.Prelude.{◌≡◌, ℕ, List, [], ◌∷◌, ◌++◌, None, Some, IfOk, MatchOption, OnOk, slice_get};
ghost use Rattle.std.specs.List.{flat_map};
ghost use Rattle.hip_runs.specs.Found.Marks.{pointer_arg};
ghost use Rattle.hip_code.specs.Named.{is_memory, is_pointer, stores_at, values_passed};
ghost use Rattle.hip_code.specs.Ops.{CallWithin, OpWithin};
ghost use Rattle.hip_core.specs.Acts.{IsReady, numbers_of};
ghost use Rattle.hip_core.specs.PointerOperands.{IsPointerArg, TellsPointer, calls_with, pointer_passed, pointers_among};

use crate::core_parts::Core;
use crate::moves::moves_of;
use crate::values::read_here;
use hip_code::{Call, Code, Control, Memory, Op};
use hip_tree::{Arg, Instr};
use hip_types::{NoMemory, Row, Scalar};
use std::alloc::Global;

fn is_pointer(ty: Scalar) -> bool
    ensures { result ≡ is_pointer ty }
{
    match ty {
        Scalar::Ptr => true,
        Scalar::Int(_) => false,
    }
}

// The place of the pointer of that number among the arguments.
fn pointer_argument(args: &[Arg], operand: usize) -> Option<usize>
    ensures { MatchOption result (slice_get (flat_map pointer_arg args.now) operand ≡ None)
        (λ j. IsPointerArg args.now operand j) }
{
    let mut left = operand;
    'looking: for place in 0..args.len() {
        let arg = &args[place];
        if is_pointer(arg.ty) {
            if left == 0 {
                return Some(place);
            }
            left -= 1;
        }
    }
    None
}

// The value that a call moves for its argument of that number.
fn value_passed(core: &Core, code: &Code, call: Call, place: usize) -> Option<u64>
    requires { CallWithin (numbers_of code.now core.now) call }
    ensures { result ≡ slice_get (values_passed (numbers_of code.now core.now) call) place }
{
    let moves = moves_of(code, call.arguments);
    if place < moves.len() {
        let value = moves[place].value;
        Some(read_here(core, code, value))
    } else {
        None
    }
}

// The address of an op that stores.
fn address_of(core: &Core, code: &Code, op: Op) -> Option<u64>
    requires { OpWithin (numbers_of code.now core.now) op }
    ensures { (a : ℕ) → stores_at (numbers_of code.now core.now) a op → result ≡ Some a }
{
    match op {
        Op::Memory(memory) => match memory {
            Memory::Store { addr, .. } => Some(read_here(core, code, addr)),
            Memory::Load { .. } => None,
            Memory::Effect(_) => None,
        },
        Op::Value { .. } => None,
        Op::Control(_) => None,
    }
}

// The value of the argument of that number of an op that calls.
fn argument_of(core: &Core, code: &Code, op: Op, place: usize) -> Option<u64>
    requires { OpWithin (numbers_of code.now core.now) op }
    ensures calls { (vs : List ℕ) → calls_with (numbers_of code.now core.now) vs op →
        result ≡ slice_get vs place }
    ensures other { is_memory op → result ≡ None }
{
    match op {
        Op::Control(control) => match control {
            Control::Call(call) => value_passed(core, code, call, place),
            Control::Go(_) => None,
            Control::Exit(_) => None,
        },
        Op::Value { .. } => None,
        Op::Memory(_) => None,
    }
}

/// The value of the pointer operand of that number, of the instruction at the machine's place.
pub fn pointer_here(core: &Core, code: &Code, instr: &Instr, operand: usize) -> Option<u64>
    requires { IsReady code.now core.now }
    ensures { TellsPointer code.now core.now instr.now operand result }
{
    let op = code.ops[core.top.place];
    match instr {
        Instr::Store { .. } => {
            if operand > 0 {
                return None;
            }
            address_of(core, code, op)
        }
        Instr::Call { args, .. } => match pointer_argument(args.as_slice(), operand) {
            Some(place) => argument_of(core, code, op, place),
            None => None,
        },
        Instr::Binary { .. } => None,
        Instr::Compare { .. } => None,
        Instr::Select { .. } => None,
        Instr::Cast { .. } => None,
        Instr::Alloca { .. } => None,
        Instr::Load { .. } => None,
        Instr::Gep { .. } => None,
    }
}

// The address of an op that stores, as a list of one. Empty for any other op.
fn address_in(alloc: Global, core: &Core, code: &Code, op: Op) -> Result<Row<u64>, NoMemory>
    requires { OpWithin (numbers_of code.now core.now) op }
    ensures { IfOk result (λ values. (a : ℕ) → stores_at (numbers_of code.now core.now) a op → values ≡ a ∷ []) }
{
    let mut values = Row::new(alloc);
    match address_of(core, code, op) {
        Some(addr) => {
            values.push(addr)?;
            Ok(values)
        }
        None => Ok(values),
    }
}

// Adds the value that a call moves for the argument of this type and place, if it is a pointer.
fn push_passed(
    core: &Core,
    code: &Code,
    call: Call,
    ty: Scalar,
    place: usize,
    values: &mut Row<u64>,
) -> Result<(), NoMemory>
    requires { CallWithin (numbers_of code.now core.now) call }
    ensures { OnOk result (values.new
        ≡ values.old ++ pointer_passed ty (slice_get (values_passed (numbers_of code.now core.now) call) place)) }
{
    match ty {
        Scalar::Int(_) => Ok(()),
        Scalar::Ptr => match value_passed(core, code, call, place) {
            Some(value) => values.push(value),
            None => Ok(()),
        },
    }
}

// The values that a call moves for its pointer arguments.
fn pointers_passed(
    alloc: Global,
    core: &Core,
    code: &Code,
    call: Call,
    args: &[Arg],
) -> Result<Row<u64>, NoMemory>
    requires { CallWithin (numbers_of code.now core.now) call }
    ensures { IfOk result (λ values. values
        ≡ pointers_among args.now (values_passed (numbers_of code.now core.now) call)) }
{
    let mut values = Row::new(alloc);
    'passing: for place in 0..args.len() {
        let arg = &args[place];
        push_passed(core, code, call, arg.ty, place, &mut values)?;
    }
    Ok(values)
}

// The values of the pointer arguments of an op that calls.
fn pointers_in(
    alloc: Global,
    core: &Core,
    code: &Code,
    op: Op,
    args: &[Arg],
) -> Result<Row<u64>, NoMemory>
    requires { OpWithin (numbers_of code.now core.now) op }
    ensures calls { IfOk result (λ values. (vs : List ℕ) → calls_with (numbers_of code.now core.now) vs op →
        values ≡ pointers_among args.now vs) }
    ensures other { IfOk result (λ values. is_memory op → values ≡ []) }
{
    match op {
        Op::Control(control) => match control {
            Control::Call(call) => pointers_passed(alloc, core, code, call, args),
            Control::Go(_) => Ok(Row::new(alloc)),
            Control::Exit(_) => Ok(Row::new(alloc)),
        },
        Op::Value { .. } => Ok(Row::new(alloc)),
        Op::Memory(_) => Ok(Row::new(alloc)),
    }
}

/// The values of all pointer operands of the instruction at the machine's place, in their order.
pub fn pointers_here(
    alloc: Global,
    core: &Core,
    code: &Code,
    instr: &Instr,
) -> Result<Row<u64>, NoMemory>
    requires { IsReady code.now core.now }
    ensures { IfOk result (λ values. (operand : ℕ) →
        TellsPointer code.now core.now instr.now operand (slice_get values operand)) }
{
    let op = code.ops[core.top.place];
    match instr {
        Instr::Store { .. } => address_in(alloc, core, code, op),
        Instr::Call { args, .. } => pointers_in(alloc, core, code, op, args.as_slice()),
        Instr::Binary { .. } => Ok(Row::new(alloc)),
        Instr::Compare { .. } => Ok(Row::new(alloc)),
        Instr::Select { .. } => Ok(Row::new(alloc)),
        Instr::Cast { .. } => Ok(Row::new(alloc)),
        Instr::Alloca { .. } => Ok(Row::new(alloc)),
        Instr::Load { .. } => Ok(Row::new(alloc)),
        Instr::Gep { .. } => Ok(Row::new(alloc)),
    }
}
