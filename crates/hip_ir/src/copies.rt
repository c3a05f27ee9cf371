ghost use Rattle.std.specs.Prelude.{◌≡◌, IfOk};

use crate::structural::Structural;
use hip_types::NoMemory;
use std::alloc::Global;

/// Copies of two values.
pub fn copy_two<A: Structural, B: Structural>(
    alloc: Global,
    a: &A,
    b: &B,
) -> Result<(A, B), NoMemory>
    ensures { IfOk result (λ copies. copies ≡ (a.now, b.now)) }
{
    let a = a.copy(alloc)?;
    match b.copy(alloc) {
        Ok(b) => Ok((a, b)),
        Err(refused) => Err(refused),
    }
}

/// Copies of three values.
pub fn copy_three<A: Structural, B: Structural, C: Structural>(
    alloc: Global,
    a: &A,
    b: &B,
    c: &C,
) -> Result<(A, B, C), NoMemory>
    ensures { IfOk result (λ copies. copies ≡ (a.now, b.now, c.now)) }
{
    let (a, b) = copy_two(alloc, a, b)?;
    match c.copy(alloc) {
        Ok(c) => Ok((a, b, c)),
        Err(refused) => Err(refused),
    }
}

/// Copies of four values.
pub fn copy_four<A: Structural, B: Structural, C: Structural, D: Structural>(
    alloc: Global,
    a: &A,
    b: &B,
    c: &C,
    d: &D,
) -> Result<(A, B, C, D), NoMemory>
    ensures { IfOk result (λ copies. copies ≡ (a.now, b.now, c.now, d.now)) }
{
    let (a, b) = copy_two(alloc, a, b)?;
    match copy_two(alloc, c, d) {
        Ok((c, d)) => Ok((a, b, c, d)),
        Err(refused) => Err(refused),
    }
}
