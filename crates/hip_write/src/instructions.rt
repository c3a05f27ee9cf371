//! Operands and instructions.

ghost use Rattle.std.specs.Prelude.{◌++◌, codes, map};
ghost use Rattle.std.specs.Fmt.{decimal};
ghost use Rattle.hip_io.specs.Sinks.{Writes};
ghost use Rattle.hip_grammar.specs.Show.{operand_text, arg_text, align_text, assigned_text, result_text, instr_text, flags_text, inbounds_text, type_text, after_commas};
ghost use Rattle.hip_grammar.specs.Words.{binary_text, cast_text, pred_text, scalar_text};
ghost use Rattle.hip_write.specs.Parts.{calculation_text, memory_text};

use crate::constants::{put_const, put_inbounds};
use crate::lists::{Written, put_more, put_parenthesized};
use crate::text::{put_assigned, put_name, put_natural, put_register};
use crate::types::{put_ret, put_type};
use crate::words::{put_flags, put_keyword};
use hip_grammar::Keyword;
use hip_io::{Put, Sink, put_after};
use hip_tree::{Arg, Flags, Instr, Operand};
use hip_types::{BinaryOp, CastOp, Name, Pred, Row, Scalar, Ty};

pub fn put_operand<S: Sink>(before: Put, out: &mut S, operand: &Operand) -> Put
    ensures { Writes before result (S.state out.old) (S.state out.new) (operand_text operand.now) }
{
    match operand {
        Operand::Reg(name) => put_register(before, out, name),
        Operand::Fixed(value) => put_const(before, out, value),
    }
}

impl Written for Arg {
    ghost text = { arg_text };

    fn put<S: Sink>(&self, before: Put, out: &mut S) -> Put {
        let put = put_keyword(before, out, self.ty);
        let put = put_after(put, out, b" ");
        put_operand(put, out, &self.value)
    }
}

fn put_aligned<S: Sink>(before: Put, out: &mut S, n: u64) -> Put
    ensures { Writes before result (S.state out.old) (S.state out.new) (codes ", align " ++ decimal n) }
{
    let put = put_after(before, out, b", align ");
    put_natural(put, out, n)
}

pub fn put_align<S: Sink>(before: Put, out: &mut S, align: Option<u64>) -> Put
    ensures { Writes before result (S.state out.old) (S.state out.new) (align_text align) }
{
    match align {
        None => put_after(before, out, b""),
        Some(n) => put_aligned(before, out, n),
    }
}

fn put_result<S: Sink>(before: Put, out: &mut S, dest: &Option<Name>) -> Put
    ensures { Writes before result (S.state out.old) (S.state out.new) (result_text dest.now) }
{
    match dest {
        None => put_after(before, out, b""),
        Some(dest) => put_assigned(before, out, dest),
    }
}

fn put_operands<S: Sink>(before: Put, out: &mut S, a: &Operand, b: &Operand) -> Put
    ensures { Writes before result (S.state out.old) (S.state out.new)
        (operand_text a.now ++ (codes ", " ++ operand_text b.now)) }
{
    let put = put_operand(before, out, a);
    let put = put_after(put, out, b", ");
    put_operand(put, out, b)
}

/// Puts the beginning of an operation: its register, its word and its flags.
fn put_operation<S: Sink>(before: Put, out: &mut S, dest: &Name, op: BinaryOp, flags: Flags) -> Put
    ensures { Writes before result (S.state out.old) (S.state out.new)
        (assigned_text dest.now ++ (binary_text op ++ (codes " " ++ flags_text flags))) }
{
    let put = put_assigned(before, out, dest);
    let put = put_keyword(put, out, op);
    let put = put_after(put, out, b" ");
    put_flags(put, out, flags)
}

/// Puts the beginning of a comparison: its register and its predicate.
fn put_comparison<S: Sink>(before: Put, out: &mut S, dest: &Name, pred: Pred) -> Put
    ensures { Writes before result (S.state out.old) (S.state out.new)
        (assigned_text dest.now ++ (codes "icmp " ++ (pred_text pred ++ codes " "))) }
{
    let put = put_assigned(before, out, dest);
    let put = put_after(put, out, b"icmp ");
    let put = put_keyword(put, out, pred);
    put_after(put, out, b" ")
}

/// Puts two operands after their type.
fn put_typed_operands<S: Sink, K: Keyword>(
    before: Put,
    out: &mut S,
    ty: K,
    a: &Operand,
    b: &Operand,
) -> Put
    ensures { Writes before result (S.state out.old) (S.state out.new)
        (K.text ty ++ (codes " " ++ (operand_text a.now ++ (codes ", " ++ operand_text b.now)))) }
{
    let put = put_keyword(before, out, ty);
    let put = put_after(put, out, b" ");
    put_operands(put, out, a, b)
}

/// Puts the beginning of a `select`: its register and its condition.
fn put_condition<S: Sink>(before: Put, out: &mut S, dest: &Name, cond: &Operand) -> Put
    ensures { Writes before result (S.state out.old) (S.state out.new)
        (assigned_text dest.now ++ (codes "select i1 " ++ (operand_text cond.now ++ codes ", "))) }
{
    let put = put_assigned(before, out, dest);
    let put = put_after(put, out, b"select i1 ");
    let put = put_operand(put, out, cond);
    put_after(put, out, b", ")
}

/// Puts the two operands of a `select`, each after its type.
fn put_choices<S: Sink>(before: Put, out: &mut S, ty: Scalar, a: &Operand, b: &Operand) -> Put
    ensures { Writes before result (S.state out.old) (S.state out.new)
        (scalar_text ty ++ (codes " " ++ (operand_text a.now
        ++ (codes ", " ++ (scalar_text ty ++ (codes " " ++ operand_text b.now)))))) }
{
    let put = put_keyword(before, out, ty);
    let put = put_after(put, out, b" ");
    let put = put_operand(put, out, a);
    let put = put_after(put, out, b", ");
    let put = put_keyword(put, out, ty);
    let put = put_after(put, out, b" ");
    put_operand(put, out, b)
}

/// Puts the beginning of a conversion: its register, its word and the type that it converts from.
fn put_conversion<S: Sink>(before: Put, out: &mut S, dest: &Name, op: CastOp, from: Scalar) -> Put
    ensures { Writes before result (S.state out.old) (S.state out.new)
        (assigned_text dest.now ++ (cast_text op ++ (codes " " ++ scalar_text from))) }
{
    let put = put_assigned(before, out, dest);
    let put = put_keyword(put, out, op);
    let put = put_after(put, out, b" ");
    put_keyword(put, out, from)
}

/// Puts the operand of a conversion, and the type that it converts to.
fn put_converted<S: Sink>(before: Put, out: &mut S, a: &Operand, to: Scalar) -> Put
    ensures { Writes before result (S.state out.old) (S.state out.new)
        (codes " " ++ (operand_text a.now ++ (codes " to " ++ scalar_text to))) }
{
    let put = put_after(before, out, b" ");
    let put = put_operand(put, out, a);
    let put = put_after(put, out, b" to ");
    put_keyword(put, out, to)
}

fn put_alloca<S: Sink>(before: Put, out: &mut S, dest: &Name, ty: &Ty, align: Option<u64>) -> Put
    ensures { Writes before result (S.state out.old) (S.state out.new)
        (instr_text (Instr.Alloca dest.now ty.now align)) }
{
    let put = put_assigned(before, out, dest);
    let put = put_after(put, out, b"alloca ");
    let put = put_type(put, out, ty);
    put_align(put, out, align)
}

fn put_load<S: Sink>(
    before: Put,
    out: &mut S,
    dest: &Name,
    ty: Scalar,
    addr: &Operand,
    align: Option<u64>,
) -> Put
    ensures { Writes before result (S.state out.old) (S.state out.new)
        (instr_text (Instr.Load dest.now ty addr.now align)) }
{
    let put = put_assigned(before, out, dest);
    let put = put_after(put, out, b"load ");
    let put = put_keyword(put, out, ty);
    let put = put_after(put, out, b", ptr ");
    let put = put_operand(put, out, addr);
    put_align(put, out, align)
}

fn put_store<S: Sink>(
    before: Put,
    out: &mut S,
    ty: Scalar,
    value: &Operand,
    addr: &Operand,
    align: Option<u64>,
) -> Put
    ensures { Writes before result (S.state out.old) (S.state out.new)
        (instr_text (Instr.Store ty value.now addr.now align)) }
{
    let put = put_after(before, out, b"store ");
    let put = put_keyword(put, out, ty);
    let put = put_after(put, out, b" ");
    let put = put_operand(put, out, value);
    let put = put_after(put, out, b", ptr ");
    let put = put_operand(put, out, addr);
    put_align(put, out, align)
}

/// Puts the beginning of a `getelementptr`: its register and the type that the indices go into.
fn put_indexed_type<S: Sink>(before: Put, out: &mut S, dest: &Name, inbounds: bool, ty: &Ty) -> Put
    ensures { Writes before result (S.state out.old) (S.state out.new)
        (assigned_text dest.now ++ (codes "getelementptr " ++ (inbounds_text inbounds ++ type_text ty.now))) }
{
    let put = put_assigned(before, out, dest);
    let put = put_after(put, out, b"getelementptr ");
    let put = put_inbounds(put, out, inbounds);
    put_type(put, out, ty)
}

/// Puts the base pointer of a `getelementptr`, and the indices.
fn put_indexed<S: Sink>(before: Put, out: &mut S, base: &Operand, indices: &Row<Arg>) -> Put
    ensures { Writes before result (S.state out.old) (S.state out.new)
        (codes ", ptr " ++ (operand_text base.now ++ after_commas (map arg_text indices.now))) }
{
    let put = put_after(before, out, b", ptr ");
    let put = put_operand(put, out, base);
    put_more(put, out, indices)
}

fn put_call<S: Sink>(
    before: Put,
    out: &mut S,
    dest: &Option<Name>,
    ret: Option<Scalar>,
    callee: &Name,
    args: &Row<Arg>,
) -> Put
    ensures { Writes before result (S.state out.old) (S.state out.new)
        (instr_text (Instr.Call dest.now ret callee.now args.now)) }
{
    let put = put_result(before, out, dest);
    let put = put_after(put, out, b"call ");
    let put = put_ret(put, out, ret);
    let put = put_after(put, out, b" @");
    let put = put_name(put, out, callee);
    put_parenthesized(put, out, args)
}

/// Puts an operation or a comparison, and nothing of any other instruction.
fn put_calculation<S: Sink>(before: Put, out: &mut S, instr: &Instr) -> Put
    ensures { Writes before result (S.state out.old) (S.state out.new) (calculation_text instr.now) }
{
    match instr {
        Instr::Binary {
            dest,
            op,
            flags,
            width,
            a,
            b,
        } => {
            let put = put_operation(before, out, dest, *op, *flags);
            put_typed_operands(put, out, *width, a, b)
        }
        Instr::Compare {
            dest,
            pred,
            ty,
            a,
            b,
        } => {
            let put = put_comparison(before, out, dest, *pred);
            put_typed_operands(put, out, *ty, a, b)
        }
        _ => put_after(before, out, b""),
    }
}

/// Puts an instruction on memory or on addresses, and nothing of any other.
fn put_memory_instr<S: Sink>(before: Put, out: &mut S, instr: &Instr) -> Put
    ensures { Writes before result (S.state out.old) (S.state out.new) (memory_text instr.now) }
{
    match instr {
        Instr::Alloca { dest, ty, align } => put_alloca(before, out, dest, ty, *align),
        Instr::Load {
            dest,
            ty,
            addr,
            align,
        } => put_load(before, out, dest, *ty, addr, *align),
        Instr::Store {
            ty,
            value,
            addr,
            align,
        } => put_store(before, out, *ty, value, addr, *align),
        Instr::Gep {
            dest,
            inbounds,
            ty,
            base,
            indices,
        } => {
            let put = put_indexed_type(before, out, dest, *inbounds, ty);
            put_indexed(put, out, base, indices)
        }
        _ => put_after(before, out, b""),
    }
}

pub fn put_instr<S: Sink>(before: Put, out: &mut S, instr: &Instr) -> Put
    ensures { Writes before result (S.state out.old) (S.state out.new) (instr_text instr.now) }
{
    match instr {
        Instr::Alloca { .. } => put_memory_instr(before, out, instr),
        Instr::Load { .. } => put_memory_instr(before, out, instr),
        Instr::Store { .. } => put_memory_instr(before, out, instr),
        Instr::Gep { .. } => put_memory_instr(before, out, instr),
        Instr::Call {
            dest,
            ret,
            callee,
            args,
        } => put_call(before, out, dest, *ret, callee, args),
        Instr::Select {
            dest,
            cond,
            ty,
            a,
            b,
        } => {
            let put = put_condition(before, out, dest, cond.get());
            put_choices(put, out, *ty, a, b)
        }
        Instr::Cast {
            dest,
            op,
            from,
            a,
            to,
        } => {
            let put = put_conversion(before, out, dest, *op, *from);
            put_converted(put, out, a, *to)
        }
        _ => put_calculation(before, out, instr),
    }
}
