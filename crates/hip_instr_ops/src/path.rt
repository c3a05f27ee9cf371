ghost use Rattle.std.specs.Prelude.{◌≡◌, true, Some, IsSome, IfOk};
ghost use Rattle.hip_types.specs.Layout.{Fits};
ghost use Rattle.hip_types.specs.declared.ty.Ty.{out-Ty};
ghost use Rattle.hip_grammar.specs.Spelling.{spelled_index};
ghost use Rattle.hip_tree.specs.declared.instr.Operand.TheVariants as operands;
ghost use Rattle.std.specs.List.{list_all};
ghost use Rattle.hip_sound.specs.Places.{entered_by, gep_agrees};
ghost use Rattle.hip_globals.specs.Values.{const_value};
ghost use Rattle.hip_runs.specs.Actions.{index_value};
ghost use Rattle.hip_instr_ops.specs.Far.{Enters, IndicesLead, Steps};
ghost use Rattle.hip_instr_ops.specs.Fields.{IsField, IsLiteralIndex};
ghost use Rattle.hip_scope.specs.Known.{ArgsKnown, OperandKnown};
ghost use Rattle.hip_scope.specs.Scopes.{DescribesScope, names_of};

use crate::memory::small_size;
use crate::values::width_of;
use hip_code::{OpOperand, Term, extend};
use hip_globals::index;
use hip_scope::{Scope, slot};
use hip_tree::{Arg, Const};
use hip_types::{NoMemory, Row, Ty, field_offset};

/// How far indices lead: an offset in bytes, modulo 2^64, and terms for the indices in registers.
#[derive(Drop)]
pub struct Path {
    pub offset: u64,
    pub terms: Row<Term>,
}

/// The number of a constant index, sign-extended to 64 bits.
fn literal(scope: &Scope<'_, '_>, arg: &Arg, value: &Const) -> Result<u64, NoMemory>
    requires scope { DescribesScope scope.now }
    requires known { OperandKnown (names_of scope.now) (operands.Fixed value.now) }
    ensures { IfOk result (λ n. n ≡ index_value arg.now.ty
        (const_value scope.now.program.now.globals scope.now.base value.now)) }
{
    let number = scope.addresses.value(scope.alloc, value)?;
    Ok(extend(width_of(arg.ty), number))
}

/// Steps over values of a size: as many as the index says.
fn step_over(scope: &Scope<'_, '_>, path: &mut Path, arg: &Arg, size: u32) -> Result<(), NoMemory>
    requires scope { DescribesScope scope.now }
    requires known { OperandKnown (names_of scope.now) arg.now.value }
    ensures { IfOk result (λ _. Steps scope.now arg.now size path.old path.new) }
{
    match &arg.value {
        hip_tree::Operand::Fixed(value) => {
            let number = literal(scope, arg, value)?;
            path.offset = path
                .offset
                .wrapping_add(number.wrapping_mul(u64::from(size)));
            Ok(())
        }
        hip_tree::Operand::Reg(name) => {
            let index = OpOperand::Register(slot(scope, name)?);
            let width = width_of(arg.ty);
            let scale = size;
            path.terms.push(Term {
                index,
                width,
                scale,
            })?;
            Ok(())
        }
    }
}

/// The number of the field that an index names.
fn field_number(fields: &[Ty], arg: &Arg) -> usize
    requires { IsField fields.now arg.now.value }
    ensures { IsLiteralIndex arg.now.value result }
{
    match &arg.value {
        hip_tree::Operand::Fixed(value) => match value {
            Const::Int(bits) => index(*bits) as usize,
            _ => unreachable!(),
        },
        hip_tree::Operand::Reg(_) => unreachable!(),
    }
}

/// Enters an element of an array or a field of a struct.
fn enter<'t>(
    scope: &Scope<'_, '_>,
    path: &mut Path,
    part: &'t Ty,
    arg: &Arg,
) -> Result<&'t Ty, NoMemory>
    requires scope { DescribesScope scope.now }
    requires known { OperandKnown (names_of scope.now) arg.now.value }
    requires spelled { spelled_index arg.now ≡ true }
    requires fits { Fits part.now }
    requires entered { IsSome (entered_by arg.now.value (out-Ty part.now)) }
    ensures part { IfOk result (λ inner. entered_by arg.now.value (out-Ty part.now) ≡ Some inner.now) }
    ensures fits { IfOk result (λ inner. Fits inner.now) }
    ensures enters { IfOk result (λ inner. Enters scope.now part.now arg.now inner.now path.old path.new) }
{
    match part {
        Ty::Array(_, item) => {
            let item = item.get();
            step_over(scope, path, arg, small_size(item))?;
            Ok(item)
        }
        Ty::Struct(fields) => {
            let number = field_number(fields.as_slice(), arg);
            match fields.get(number) {
                Some(field) => {
                    path.offset = path.offset.wrapping_add(field_offset(part, number));
                    Ok(field)
                }
                None => unreachable!(),
            }
        }
        Ty::Int(_) => unreachable!(),
        Ty::Ptr => unreachable!(),
    }
}

/// How far the indices of a `getelementptr` lead.
pub fn path_of(scope: &Scope<'_, '_>, ty: &Ty, indices: &[Arg]) -> Result<Path, NoMemory>
    requires scope { DescribesScope scope.now }
    requires known { ArgsKnown (names_of scope.now) indices.now }
    requires spelled { list_all spelled_index indices.now ≡ true }
    requires fits { Fits ty.now }
    requires agrees { gep_agrees indices.now ty.now ≡ true }
    ensures { IfOk result (λ path. IndicesLead scope.now ty.now indices.now path) }
{
    let mut path = Path {
        offset: 0,
        terms: Row::new(scope.alloc),
    };
    if indices.is_empty() {
        unreachable!();
    }
    let first = &indices[0];
    step_over(scope, &mut path, first, small_size(ty))?;
    let mut part = ty;
    'inner: for number in 1..indices.len() {
        let arg = &indices[number];
        part = enter(scope, &mut path, part, arg)?;
    }
    Ok(path)
}
