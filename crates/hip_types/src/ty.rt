ghost use Rattle.std.specs.Prelude.{◌≡◌, ◌↔◌, IsTrue, IfOk};

use crate::link::Link;
use crate::memory::NoMemory;
use crate::number::Width;
use crate::row::Row;
use std::alloc::Global;

/// The type of a value in memory.
#[derive(Drop)]
pub enum Ty {
    Int(Width),
    /// A pointer, of 64 bits.
    Ptr,
    /// An array: the number of its elements, and their type. The elements follow one another.
    Array(u64, Link<Ty>),
    /// Fields in order, each at the next multiple of its alignment.
    Struct(Row<Ty>),
}

/// A new type that is equal to the given one.
#[cycle(copy)]
pub fn copy_ty(alloc: Global, ty: &Ty) -> Result<Ty, NoMemory>
    ensures { IfOk result (λ t. t ≡ ty.now) }
{
    match ty {
        Ty::Int(width) => Ok(Ty::Int(*width)),
        Ty::Ptr => Ok(Ty::Ptr),
        Ty::Array(count, item) => Ok(Ty::Array(
            *count,
            Link::new(alloc, copy_ty(alloc, item.get())?)?,
        )),
        Ty::Struct(fields) => Ok(Ty::Struct(copy_fields(alloc, fields.as_slice())?)),
    }
}

#[cycle(copy)]
fn copy_fields(alloc: Global, fields: &[Ty]) -> Result<Row<Ty>, NoMemory>
    ensures { IfOk result (λ all. all ≡ fields.now) }
{
    let mut copies = Row::new(alloc);
    copies.reserve(fields.len())?;
    for field in fields {
        copies.push(copy_ty(alloc, field)?)?;
    }
    Ok(copies)
}

/// Whether two types are equal.
#[cycle(same)]
pub fn same_ty(a: &Ty, b: &Ty) -> bool
    ensures { IsTrue result ↔ (a.now ≡ b.now) }
{
    match (a, b) {
        (Ty::Int(v), Ty::Int(w)) => *v == *w,
        (Ty::Ptr, Ty::Ptr) => true,
        (Ty::Array(m, x), Ty::Array(n, y)) => *m == *n && same_ty(x.get(), y.get()),
        (Ty::Struct(x), Ty::Struct(y)) => same_fields(x.as_slice(), y.as_slice()),
        _ => false,
    }
}

#[cycle(same)]
fn same_fields(a: &[Ty], b: &[Ty]) -> bool
    ensures { IsTrue result ↔ (a.now ≡ b.now) }
{
    if a.len() != b.len() {
        return false;
    }
    for i in 0..a.len() {
        if !same_ty(&a[i], &b[i]) {
            return false;
        }
    }
    true
}
