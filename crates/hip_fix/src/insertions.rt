ghost use Rattle.std.specs.Prelude.{◌≡◌, [], ◌∷◌, IfOk};
ghost use Rattle.hip_runs.specs.Operands.{access_align, scalar_size};
ghost use Rattle.hip_repairs.specs.Repaired as spec;
ghost use Rattle.hip_repairs.specs.Repaired.{is_wide};

use hip_ir::Structural;
use hip_tree::{Arg, Const, Instr, Operand};
use hip_types::{Bits, NoMemory, Row, Scalar, Width};
use std::alloc::Global;

/// How many bytes a scalar takes in memory.
fn scalar_size(ty: Scalar) -> u64
    ensures { result ≡ scalar_size ty }
{
    u64::from(ty.width().bytes())
}

/// The alignment of an access: the smaller of its type's and the written one.
fn access_align(ty: Scalar, align: Option<u64>) -> u64
    ensures { result ≡ access_align ty align }
{
    match align {
        Some(written) => scalar_size(ty).min(written),
        None => scalar_size(ty),
    }
}

/// Whether a store may lie in two cache lines.
pub fn is_wide(ty: Scalar, align: Option<u64>) -> bool
    ensures { result ≡ is_wide ty align }
{
    access_align(ty, align) < scalar_size(ty)
}

/// A call without a result.
fn call(alloc: Global, callee: &[u8], args: Row<Arg>) -> Result<Instr, NoMemory>
    ensures { IfOk result (λ i. i ≡ Instr.Call None None callee.now args) }
{
    Ok(Instr::Call {
        dest: None,
        ret: None,
        callee: Row::from_slice(alloc, callee)?,
        args,
    })
}

fn address_argument(alloc: Global, addr: &Operand) -> Result<Row<Arg>, NoMemory>
    ensures { IfOk result (λ args. args ≡ record { ty = Scalar.Ptr; value = addr.now } ∷ []) }
{
    let mut args = Row::new(alloc);
    args.push(Arg {
        ty: Scalar::Ptr,
        value: addr.copy(alloc)?,
    })?;
    Ok(args)
}

/// `call void @llvm.x86.clwb(ptr A)`
pub fn line_flush(alloc: Global, addr: &Operand) -> Result<Instr, NoMemory>
    ensures { IfOk result (λ i. i ≡ spec.line_flush addr.now) }
{
    call(alloc, b"llvm.x86.clwb", address_argument(alloc, addr)?)
}

/// `call void @pmem_flush(ptr A, i64 S)`
pub fn range_flush(alloc: Global, addr: &Operand, ty: Scalar) -> Result<Instr, NoMemory>
    ensures { IfOk result (λ i. i ≡ spec.range_flush addr.now (scalar_size ty)) }
{
    let mut args = address_argument(alloc, addr)?;
    args.push(Arg {
        ty: Scalar::Int(Width::W64),
        value: Operand::Fixed(Const::Int(Bits::new(Width::W64, scalar_size(ty)))),
    })?;
    call(alloc, b"pmem_flush", args)
}

/// `call void @llvm.x86.sse.sfence()`
pub fn fence(alloc: Global) -> Result<Instr, NoMemory>
    ensures { IfOk result (λ i. i ≡ spec.the_fence) }
{
    call(alloc, b"llvm.x86.sse.sfence", Row::new(alloc))
}
