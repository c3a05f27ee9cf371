ghost use Rattle.std.specs.Prelude.{◌⊎◌, Option, IfOk};
ghost use Rattle.hip_types.specs.declared.number.Scalar.{Scalar};
ghost use Rattle.hip_tree.specs.declared.instr.Instr.TheVariants as instrs;
ghost use Rattle.hip_sound.specs.Given.{CallsExtern, CallsFunction};
ghost use Rattle.hip_instr_ops.specs.Kinds.{IsValue};
ghost use Rattle.hip_scope.specs.Grown.{grown};
ghost use Rattle.hip_scope.specs.Growth.{Makes};
ghost use Rattle.hip_scope.specs.Known.{ArgsKnown, InstrKnown, ResultKnown};
ghost use Rattle.hip_scope.specs.Scopes.{DescribesScope, DoesHere, names_of};

use crate::calls::call;
use crate::externs::extern_call;
use crate::gep::gep;
use crate::memory::{alloca, load, store};
use crate::values::{CastTypes, Operands, binary, cast, compare, select};
use hip_code::Op;
use hip_externs::ExternCall;
use hip_scope::{Growing, Scope};
use hip_tree::{Arg, Instr};
use hip_types::{Name, NoMemory};

/// A call of an external function, or else of a function of the program.
fn any_call(
    scope: &Scope<'_, '_>,
    tables: &mut Growing,
    dest: &Option<Name>,
    callee: &Name,
    args: &[Arg],
) -> Result<Op, NoMemory>
    requires scope { DescribesScope scope.now }
    requires dest { ResultKnown (names_of scope.now) dest.now }
    requires known { ArgsKnown (names_of scope.now) args.now }
    requires callee { (ret : Option Scalar) × (CallsFunction scope.now.program.now callee.now ret args.now
        ⊎ CallsExtern callee.now ret args.now) }
    ensures { IfOk result (λ o. Makes (grown tables.old) (grown tables.new)
        (λ t. (ret : Option Scalar) → DoesHere scope.now t o (instrs.Call dest.now ret callee.now args.now))) }
{
    match ExternCall::named(callee.as_slice()) {
        Some(named) => { extern_call(scope, tables, dest, callee, named, args) }
        None => { call(scope, tables, dest, callee, args) }
    }
}

/// The op of an instruction that computes a value.
fn value_op(scope: &Scope<'_, '_>, tables: &mut Growing, instr: &Instr) -> Result<Op, NoMemory>
    requires scope { DescribesScope scope.now }
    requires known { InstrKnown scope.now.program.now (names_of scope.now) instr.now }
    requires value { IsValue instr.now }
    ensures { IfOk result (λ o. Makes (grown tables.old) (grown tables.new) (λ t. DoesHere scope.now t o instr.now)) }
{
    match instr {
        Instr::Binary {
            dest,
            op,
            width,
            a,
            b,
            ..
        } => { binary(scope, tables, dest, *op, *width, &Operands { a, b }) }
        Instr::Compare {
            dest,
            pred,
            ty,
            a,
            b,
        } => { compare(scope, tables, dest, *pred, *ty, &Operands { a, b }) }
        Instr::Select {
            dest,
            cond,
            a,
            b,
            ..
        } => { select(scope, tables, dest, cond.get(), &Operands { a, b }) }
        Instr::Cast {
            dest,
            op,
            from,
            a,
            to,
        } => {
            let types = CastTypes {
                from: *from,
                to: *to,
            };
            cast(scope, tables, dest, *op, a, types)
        }
        _ => unreachable!(),
    }
}

/// The op of an instruction.
pub fn instr_op(scope: &Scope<'_, '_>, tables: &mut Growing, instr: &Instr) -> Result<Op, NoMemory>
    requires scope { DescribesScope scope.now }
    requires known { InstrKnown scope.now.program.now (names_of scope.now) instr.now }
    ensures { IfOk result (λ o. Makes (grown tables.old) (grown tables.new) (λ t. DoesHere scope.now t o instr.now)) }
{
    match instr {
        Instr::Binary { .. } | Instr::Compare { .. } | Instr::Select { .. } | Instr::Cast { .. } =>
            value_op(scope, tables, instr),
        Instr::Alloca { dest, ty, .. } => { alloca(scope, dest, ty) }
        Instr::Load {
            dest,
            ty,
            addr,
            align,
        } => { load(scope, tables, dest, *ty, addr, *align) }
        Instr::Store {
            ty,
            value,
            addr,
            align,
        } => { store(scope, tables, *ty, value, addr, *align) }
        Instr::Gep {
            dest,
            ty,
            base,
            indices,
            ..
        } => {
            let chosen = indices.as_slice();
            gep(scope, tables, dest, ty, base, chosen)
        }
        Instr::Call {
            dest,
            callee,
            args,
            ..
        } => {
            let given = args.as_slice();
            any_call(scope, tables, dest, callee, given)
        }
    }
}
