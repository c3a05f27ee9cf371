ghost use Rattle.std.specs.Prelude.{◌≡◌, Option, IfOk};
ghost use Rattle.hip_types.specs.declared.number.Scalar.{Scalar};
ghost use Rattle.hip_code.specs.Named.{has_pointer};
ghost use Rattle.hip_tree.specs.declared.instr.Instr.TheVariants as instrs;
ghost use Rattle.hip_scope.specs.Grown.{grown};
ghost use Rattle.hip_scope.specs.Growth.{Makes};
ghost use Rattle.hip_scope.specs.Known.{ArgsKnown, ResultKnown};
ghost use Rattle.hip_instr_ops.specs.Passed.{Calls, PassesArguments};
ghost use Rattle.hip_scope.specs.Scopes.{DescribesScope, DoesHere, names_of};

use crate::externs::result_slot;
use hip_code::{Call, Control, Move, Op, Span};
use hip_scope::{Growing, Scope, number_at, operand, place};
use hip_tree::Arg;
use hip_types::{Name, NoMemory, Scalar};

/// Moves of arguments into the slots of parameters, which are the first ones of the callee.
fn arguments(scope: &Scope<'_, '_>, tables: &mut Growing, args: &[Arg]) -> Result<(), NoMemory>
    requires scope { DescribesScope scope.now }
    requires known { ArgsKnown (names_of scope.now) args.now }
    ensures { IfOk result (λ _. PassesArguments scope.now (grown tables.old) (grown tables.new) args.now) }
{
    'passing: for number in 0..args.len() {
        let arg = &args[number];
        let dest = place(number)?;
        let value = operand(scope, tables, &arg.value)?;
        tables.moves.push(Move { dest, value })?;
    }
    Ok(())
}

// Whether one of the arguments is a pointer.
fn has_pointer(args: &[Arg]) -> bool
    ensures { result ≡ has_pointer args.now }
{
    args.iter().any(|arg| matches!(arg.ty, Scalar::Ptr))
}

/// A call of a function of the program.
pub fn call(
    scope: &Scope<'_, '_>,
    tables: &mut Growing,
    dest: &Option<Name>,
    callee: &Name,
    args: &[Arg],
) -> Result<Op, NoMemory>
    requires scope { DescribesScope scope.now }
    requires dest { ResultKnown (names_of scope.now) dest.now }
    requires known { ArgsKnown (names_of scope.now) args.now }
    requires calls { Calls scope.now.program.now callee.now args.now }
    ensures { IfOk result (λ o. Makes (grown tables.old) (grown tables.new)
        (λ t. (ret : Option Scalar) → DoesHere scope.now t o (instrs.Call dest.now ret callee.now args.now))) }
{
    let number = match scope.functions.number_of(callee.as_slice()) {
        Some(number) => number,
        None => unreachable!(),
    };
    let slot = result_slot(scope, dest)?;
    let from = place(tables.moves.len())?;
    let count = place(args.len())?;
    let frame = place(scope.registers.len())?;
    let function = place(number)?;
    let target = number_at(scope.starts, number);
    let size = number_at(scope.sizes, number);
    arguments(scope, tables, args)?;
    Ok(Op::Control(Control::Call(Call {
        target,
        function,
        size,
        frame,
        arguments: Span { from, count },
        dest: slot,
        pointed: has_pointer(args),
    })))
}
