ghost use Rattle.std.specs.Prelude.{◌≡◌, Option, Some, length, IfOk};
ghost use Rattle.hip_types.specs.declared.number.Scalar.{Scalar};
ghost use Rattle.hip_tree.specs.declared.instr.Instr.TheVariants as instrs;
ghost use Rattle.hip_externs.specs.Externs.{call_of, row_of};
ghost use Rattle.hip_code.specs.Calls as ops;
ghost use Rattle.hip_code.specs.Resolved.{is_result};
ghost use Rattle.hip_instr_ops.specs.Effects.{StandsForArg};
ghost use Rattle.hip_scope.specs.Grown.{grown};
ghost use Rattle.hip_scope.specs.Growth.{Makes};
ghost use Rattle.hip_scope.specs.Known.{ArgsKnown, ResultKnown};
ghost use Rattle.hip_scope.specs.Scopes.{DescribesScope, DoesHere, names_of};

use hip_code::{Effect, Memory, Op, OpOperand, Outside, Persistence};
use hip_externs::{ExternCall, LineEffect};
use hip_scope::{Growing, Scope, operand, slot};
use hip_tree::Arg;
use hip_types::{Name, NoMemory, Scalar};

/// Where the result of a call goes.
pub fn result_slot(scope: &Scope<'_, '_>, dest: &Option<Name>) -> Result<Option<u32>, NoMemory>
    requires scope { DescribesScope scope.now }
    requires known { ResultKnown (names_of scope.now) dest.now }
    ensures { IfOk result (λ slot. is_result (names_of scope.now) slot dest.now) }
{
    match dest {
        Some(name) => {
            let slot = slot(scope, name)?;
            Ok(Some(slot))
        }
        None => Ok(None),
    }
}

/// The operand of the argument of that number. If there is no such argument, the function does not take one, and the
/// result may be any operand.
fn argument(
    scope: &Scope<'_, '_>,
    tables: &mut Growing,
    args: &[Arg],
    index: usize,
) -> Result<OpOperand, NoMemory>
    requires scope { DescribesScope scope.now }
    requires known { ArgsKnown (names_of scope.now) args.now }
    ensures { IfOk result (λ o. Makes (grown tables.old) (grown tables.new)
        (λ t. StandsForArg scope.now t o args.now index)) }
{
    if index >= args.len() {
        return Ok(OpOperand::Register(0));
    }
    let arg = &args[index];
    let argument = operand(scope, tables, &arg.value)?;
    Ok(argument)
}

/// What a function does to cache lines, by its effect on them and its parameters, with two arguments; the function may
/// take fewer.
fn persistence(effect: LineEffect, params: &[Scalar], a: OpOperand, b: OpOperand) -> Persistence
    ensures { result ≡ ops.line_op effect params.now a b }
{
    match effect {
        LineEffect::Flush => match params {
            [_, _, ..] => Persistence::Range {
                addr: a,
                size: b,
                fence: false,
            },
            _ => Persistence::Flush(a),
        },
        LineEffect::FlushAndFence => Persistence::Range {
            addr: a,
            size: b,
            fence: true,
        },
        LineEffect::Nothing | LineEffect::Fence => Persistence::Fence,
    }
}

/// What a call of an external function does, with the slot of its result and two arguments; the function may take
/// fewer.
fn effect(call: ExternCall, dest: Option<u32>, a: OpOperand, b: OpOperand) -> Effect
    ensures { result ≡ ops.extern_op call dest a b }
{
    match call {
        ExternCall::ReadI64 => Effect::Outside(Outside::Read(dest)),
        ExternCall::PrintI64 => Effect::Outside(Outside::Print(a)),
        ExternCall::PmAssert => Effect::Outside(Outside::Assert { addr: a, size: b }),
        _ => {
            let row = call.row();
            Effect::Persistence(persistence(row.effect, row.params, a, b))
        }
    }
}

pub fn extern_call(
    scope: &Scope<'_, '_>,
    tables: &mut Growing,
    dest: &Option<Name>,
    callee: &Name,
    call: ExternCall,
    args: &[Arg],
) -> Result<Op, NoMemory>
    requires scope { DescribesScope scope.now }
    requires dest { ResultKnown (names_of scope.now) dest.now }
    requires known { ArgsKnown (names_of scope.now) args.now }
    requires named { call_of callee.now ≡ Some call }
    requires as_long { length args.now ≡ length (row_of call).params }
    ensures { IfOk result (λ o. Makes (grown tables.old) (grown tables.new)
        (λ t. (ret : Option Scalar) → DoesHere scope.now t o (instrs.Call dest.now ret callee.now args.now))) }
{
    let slot = result_slot(scope, dest)?;
    let a = argument(scope, tables, args, 0)?;
    let b = argument(scope, tables, args, 1)?;
    Ok(Op::Memory(Memory::Effect(effect(call, slot, a, b))))
}
