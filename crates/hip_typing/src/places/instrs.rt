ghost use Rattle.std.specs.Prelude.{◌≡◌, map, option_map};
ghost use Rattle.std.specs.Option.{option_copied};
ghost use Rattle.hip_types.specs.declared.ty.Ty.{out-Ty};
ghost use Rattle.hip_tree.specs.declared.constant.Const.{out-Const};
ghost use Rattle.hip_sound.specs.Places as spec;
ghost use Rattle.hip_typing.specs.Seen.Tables.{callee_seen, params_seen};
ghost use Rattle.hip_sound.specs.Types.{all_pass, same_scalar};
ghost use Rattle.hip_typing.specs.Seen.UsesSeen as seen;
ghost use Rattle.hip_typing.specs.Seen.UsesSeen.{instr_agrees_in, callee_known_in};

use crate::constants::type_fits;
use crate::rules::externs::{is_same_result, is_same_scalar};
use crate::tables::callees::{Callee, CalleeTable, Params};
use hip_globals::index;
use hip_tree::{Arg, Const, Instr, Operand, Param};
use hip_types::{CastOp, Name, Row, Scalar, Ty};

fn widens(from: Scalar, to: Scalar) -> bool
    ensures { result ≡ spec.widens from to }
{
    match (from, to) {
        (Scalar::Int(from), Scalar::Int(to)) => from.bits() < to.bits(),
        _ => false,
    }
}

fn is_integer(ty: Scalar) -> bool
    ensures { result ≡ spec.is_integer ty }
{
    match ty {
        Scalar::Int(_) => true,
        Scalar::Ptr => false,
    }
}

/// Whether `zext` and `sext` widen, `trunc` narrows, and the other two go between pointers and integers.
pub fn cast_agrees(op: CastOp, from: Scalar, to: Scalar) -> bool
    ensures { result ≡ spec.cast_agrees op from to }
{
    match op {
        CastOp::Zext => widens(from, to),
        CastOp::Sext => widens(from, to),
        CastOp::Trunc => widens(to, from),
        CastOp::Ptrtoint => !is_integer(from) && is_integer(to),
        CastOp::Inttoptr => is_integer(from) && !is_integer(to),
    }
}

/// The field that a literal names.
fn literal_field<'t>(fields: &'t Row<Ty>, value: &Const) -> Option<&'t Ty>
    ensures { option_copied result ≡ spec.literal_field fields.now (out-Const value.now) }
{
    match value {
        Const::Int(bits) => fields.get(index(*bits) as usize),
        _ => None,
    }
}

fn named_field<'t>(fields: &'t Row<Ty>, operand: &Operand) -> Option<&'t Ty>
    ensures { option_copied result ≡ spec.named_field fields.now operand.now }
{
    match operand {
        Operand::Reg(_) => None,
        Operand::Fixed(value) => literal_field(fields, value),
    }
}

/// The type that an index enters: an array's element, or the field that a literal names.
fn entered_by<'t>(ty: &'t Ty, operand: &Operand) -> Option<&'t Ty>
    ensures { option_copied result ≡ spec.entered_by operand.now (out-Ty ty.now) }
{
    match ty {
        Ty::Array(_, element) => Some(element.get()),
        Ty::Struct(fields) => named_field(fields, operand),
        _ => None,
    }
}

fn args_enter(ty: &Ty, indices: &[Arg]) -> bool
    ensures { result ≡ spec.args_enter indices.now ty.now }
{
    let mut ty = ty;
    'each: for index in indices {
        match entered_by(ty, &index.value) {
            Some(inner) => ty = inner,
            None => return false,
        }
    }
    true
}

/// Whether each index after the first enters an aggregate.
pub fn gep_agrees(ty: &Ty, indices: &[Arg]) -> bool
    ensures { result ≡ spec.gep_agrees indices.now ty.now }
{
    match indices {
        [] => false,
        [_, rest @ ..] => args_enter(ty, rest),
    }
}

/// Whether the register of a call agrees with its result: a call without a result has none.
pub fn register_agrees(dest: &Option<Name>, ret: Option<Scalar>) -> bool
    ensures { result ≡ spec.register_agrees dest.now ret }
{
    match (dest, ret) {
        (Some(_), None) => false,
        _ => true,
    }
}

/// Whether arguments have the types of the parameters, in order.
fn params_are(params: Params<'_>, args: &[Arg]) -> bool
    ensures { result ≡ all_pass (map same_scalar (params_seen params.entry)) (map (λ a. a.ty) args.now) }
{
    match params {
        Params::Scalars(types) => scalars_are(types, args),
        Params::Named(params) => named_are(params, args),
    }
}

fn scalars_are(types: &[Scalar], args: &[Arg]) -> bool
    ensures { result ≡ all_pass (map same_scalar types.now) (map (λ a. a.ty) args.now) }
{
    if types.len() != args.len() {
        return false;
    }
    'each: for at in 0..types.len() {
        if !is_same_scalar(types[at], args[at].ty) {
            return false;
        }
    }
    true
}

fn named_are(params: &[Param], args: &[Arg]) -> bool
    ensures { result ≡ all_pass (map same_scalar (map (λ p. p.ty) params.now)) (map (λ a. a.ty) args.now) }
{
    if params.len() != args.len() {
        return false;
    }
    'each: for at in 0..params.len() {
        if !is_same_scalar(params[at].ty, args[at].ty) {
            return false;
        }
    }
    true
}

/// Whether a call agrees with its callee in the result's type and in the number and the types of arguments.
fn call_agrees(callee: Option<Callee<'_>>, ret: Option<Scalar>, args: &[Arg]) -> bool
    ensures { result ≡ spec.signature_agrees ret args.now (option_map callee_seen callee.entry) }
{
    match callee {
        Some(callee) => is_same_result(callee.ret, ret) && params_are(callee.params, args),
        None => false,
    }
}

/// Whether an instruction's own types agree.
pub fn instr_agrees(callees: &CalleeTable<'_>, instr: &Instr) -> bool
    ensures { result ≡ instr_agrees_in callees.now.names callees.now.values instr.now }
{
    match instr {
        Instr::Cast { op, from, to, .. } => cast_agrees(*op, *from, *to),
        Instr::Gep { ty, indices, .. } => gep_agrees(ty, indices.as_slice()),
        Instr::Call {
            dest,
            ret,
            callee,
            args,
        } => {
            call_agrees(callees.get(callee.as_slice()), *ret, args.as_slice())
                && register_agrees(dest, *ret)
        }
        _ => true,
    }
}

/// Whether the callee of a call exists.
pub fn callee_known(callees: &CalleeTable<'_>, instr: &Instr) -> bool
    ensures { result ≡ callee_known_in callees.now.names callees.now.values instr.now }
{
    match instr {
        Instr::Call { callee, .. } => callees.get(callee.as_slice()).is_some(),
        _ => true,
    }
}

/// Whether the type that an instruction writes fits.
pub fn written_fits(instr: &Instr) -> bool
    ensures { result ≡ seen.written_fits instr.now }
{
    match instr {
        Instr::Alloca { ty, .. } => type_fits(ty),
        Instr::Gep { ty, .. } => type_fits(ty),
        _ => true,
    }
}
