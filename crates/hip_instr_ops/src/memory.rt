ghost use Rattle.std.specs.Prelude.{◌≡◌, ◌<◌, ◌≤◌, Option, ℕ, IfOk};
ghost use Rattle.hip_types.specs.Layout as layout;
ghost use Rattle.hip_types.specs.Layout.{Fits};
ghost use Rattle.hip_tree.specs.declared.instr.Instr.TheVariants as instrs;
ghost use Rattle.hip_names.specs.Names.{IsAmong};
ghost use Rattle.hip_runs.specs.Operands as spec;
ghost use Rattle.hip_code.specs.Numbers.{Tables};
ghost use Rattle.hip_scope.specs.Grown.{grown};
ghost use Rattle.hip_scope.specs.Growth.{Makes};
ghost use Rattle.hip_scope.specs.Known.{OperandKnown};
ghost use Rattle.hip_scope.specs.Scopes.{DescribesScope, DoesHere, names_of};

use crate::values::width_of;
use hip_code::{Effect, Memory, Op};
use hip_scope::{Growing, Scope, operand, slot};
use hip_types::{Name, NoMemory, Scalar, Ty, align, size};

/// How many bytes a scalar takes.
fn scalar_size(ty: Scalar) -> u32
    ensures size { result ≡ spec.scalar_size ty }
    ensures small { result ≤ 8 }
{
    match ty {
        Scalar::Int(width) => width.bytes(),
        Scalar::Ptr => 8,
    }
}

/// The alignment of an access: the smaller of its type's and the written one.
fn access_align(ty: Scalar, written: Option<u64>) -> u32
    ensures { result ≡ spec.access_align ty written }
{
    let natural = scalar_size(ty);
    match written {
        None => natural,
        Some(written) => u64::from(natural).min(written) as u32,
    }
}

pub fn load(
    scope: &Scope<'_, '_>,
    tables: &mut Growing,
    dest: &Name,
    ty: Scalar,
    addr: &hip_tree::Operand,
    written: Option<u64>,
) -> Result<Op, NoMemory>
    requires scope { DescribesScope scope.now }
    requires dest { IsAmong (names_of scope.now) dest.now }
    requires addr { OperandKnown (names_of scope.now) addr.now }
    requires written { 0 < spec.access_align ty written }
    ensures { IfOk result (λ o. Makes (grown tables.old) (grown tables.new)
        (λ t. DoesHere scope.now t o (instrs.Load dest.now ty addr.now written))) }
{
    let dest = slot(scope, dest)?;
    let addr = operand(scope, tables, addr)?;
    Ok(Op::Memory(Memory::Load {
        dest,
        width: width_of(ty),
        align: access_align(ty, written),
        addr,
    }))
}

pub fn store(
    scope: &Scope<'_, '_>,
    tables: &mut Growing,
    ty: Scalar,
    value: &hip_tree::Operand,
    addr: &hip_tree::Operand,
    written: Option<u64>,
) -> Result<Op, NoMemory>
    requires scope { DescribesScope scope.now }
    requires value { OperandKnown (names_of scope.now) value.now }
    requires addr { OperandKnown (names_of scope.now) addr.now }
    requires written { 0 < spec.access_align ty written }
    ensures { IfOk result (λ o. Makes (grown tables.old) (grown tables.new)
        (λ t. DoesHere scope.now t o (instrs.Store ty value.now addr.now written))) }
{
    let value = operand(scope, tables, value)?;
    let addr = operand(scope, tables, addr)?;
    Ok(Op::Memory(Memory::Store {
        size: scalar_size(ty),
        align: access_align(ty, written),
        value,
        addr,
    }))
}

/// How many bytes a value takes; at most 67,108,864.
pub fn small_size(ty: &Ty) -> u32
    requires { Fits ty.now }
    ensures { result ≡ layout.size_of ty.now }
{
    size(ty) as u32
}

fn small_align(ty: &Ty) -> u32
    requires { Fits ty.now }
    ensures { result ≡ layout.align_of ty.now }
{
    align(ty) as u32
}

pub fn alloca(scope: &Scope<'_, '_>, dest: &Name, ty: &Ty) -> Result<Op, NoMemory>
    requires scope { DescribesScope scope.now }
    requires dest { IsAmong (names_of scope.now) dest.now }
    requires fits { Fits ty.now }
    ensures { IfOk result (λ o. (t : Tables) (written : Option ℕ)
        → DoesHere scope.now t o (instrs.Alloca dest.now ty.now written)) }
{
    let dest = slot(scope, dest)?;
    Ok(Op::Memory(Memory::Effect(Effect::Alloca {
        dest,
        size: small_size(ty),
        align: small_align(ty),
    })))
}
