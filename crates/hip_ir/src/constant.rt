ghost use Rattle.std.specs.Prelude.{◌≡◌, ◌↔◌, IsTrue, IfOk};
ghost use Rattle.hip_tree.specs.declared.constant.Const.TheVariants as consts;

use crate::copies::copy_two;
use crate::structural::Structural;
use hip_tree::{Const, ConstGep, TypedConst};
use hip_types::{Link, NoMemory, Row, Ty, copy_ty, same_ty};
use std::alloc::Global;

/// A new constant that is equal to the given one.
#[cycle(copy)]
pub fn copy_const(alloc: Global, value: &Const) -> Result<Const, NoMemory>
    ensures { IfOk result (λ c. c ≡ value.now) }
{
    match value {
        Const::Int(bits) => Ok(Const::Int(*bits)),
        Const::Null => Ok(Const::Null),
        Const::Zero => Ok(Const::Zero),
        Const::Address(name) => Ok(Const::Address(name.copy(alloc)?)),
        Const::Gep(gep) => copy_gep(alloc, gep.get()),
        Const::Array(items) => Ok(Const::Array(copy_items(alloc, items.as_slice())?)),
        Const::Struct(items) => Ok(Const::Struct(copy_items(alloc, items.as_slice())?)),
    }
}

#[cycle(copy)]
fn copy_gep(alloc: Global, gep: &ConstGep) -> Result<Const, NoMemory>
    ensures { IfOk result (λ c. c ≡ consts.Gep gep.now) }
{
    match copy_const(alloc, &gep.base) {
        Ok(base) => gep_from(alloc, gep, base),
        Err(refused) => Err(refused),
    }
}

// A copy of the constant `getelementptr`. A copy of its base is given, and moved into it.
fn gep_from(alloc: Global, gep: &ConstGep, base: Const) -> Result<Const, NoMemory>
    requires { base ≡ gep.now.base }
    ensures { IfOk result (λ c. c ≡ consts.Gep gep.now) }
{
    match copy_two(alloc, &gep.ty, &gep.indices) {
        Ok((ty, indices)) => {
            let copy = ConstGep {
                inbounds: gep.inbounds,
                ty,
                base,
                indices,
            };
            Ok(Const::Gep(Link::new(alloc, copy)?))
        }
        Err(refused) => Err(refused),
    }
}

#[cycle(copy)]
fn copy_items(alloc: Global, items: &[TypedConst]) -> Result<Row<TypedConst>, NoMemory>
    ensures { IfOk result (λ all. all ≡ items.now) }
{
    let mut copies = Row::from_vec(Vec::with_capacity(alloc, items.len())?);
    for item in items {
        copies.push(copy_typed(alloc, item)?)?;
    }
    Ok(copies)
}

#[cycle(copy)]
fn copy_typed(alloc: Global, item: &TypedConst) -> Result<TypedConst, NoMemory>
    ensures { IfOk result (λ c. c ≡ item.now) }
{
    match copy_const(alloc, &item.value) {
        Ok(value) => typed_from(alloc, &item.ty, value),
        Err(refused) => Err(refused),
    }
}

// A value, which is moved, with a copy of its type.
fn typed_from(alloc: Global, ty: &Ty, value: Const) -> Result<TypedConst, NoMemory>
    ensures { IfOk result (λ c. c ≡ record { ty = ty.now; value = value }) }
{
    match copy_ty(alloc, ty) {
        Ok(ty) => Ok(TypedConst { ty, value }),
        Err(refused) => Err(refused),
    }
}

/// Whether two constants are equal.
#[cycle(same)]
pub fn same_const(a: &Const, b: &Const) -> bool
    ensures { IsTrue result ↔ (a.now ≡ b.now) }
{
    match (a, b) {
        (Const::Int(v), Const::Int(w)) => v.same(w),
        (Const::Null, Const::Null) => true,
        (Const::Zero, Const::Zero) => true,
        (Const::Address(x), Const::Address(y)) => x.same(y),
        (Const::Gep(x), Const::Gep(y)) => same_gep(x.get(), y.get()),
        (Const::Array(x), Const::Array(y)) => same_items(x.as_slice(), y.as_slice()),
        (Const::Struct(x), Const::Struct(y)) => same_items(x.as_slice(), y.as_slice()),
        _ => false,
    }
}

#[cycle(same)]
fn same_gep(a: &ConstGep, b: &ConstGep) -> bool
    ensures { IsTrue result ↔ (a.now ≡ b.now) }
{
    a.inbounds == b.inbounds
        && same_ty(&a.ty, &b.ty)
        && same_const(&a.base, &b.base)
        && a.indices.same(&b.indices)
}

#[cycle(same)]
fn same_typed(a: &TypedConst, b: &TypedConst) -> bool
    ensures { IsTrue result ↔ (a.now ≡ b.now) }
{
    same_ty(&a.ty, &b.ty) && same_const(&a.value, &b.value)
}

#[cycle(same)]
fn same_items(a: &[TypedConst], b: &[TypedConst]) -> bool
    ensures { IsTrue result ↔ (a.now ≡ b.now) }
{
    if a.len() != b.len() {
        return false;
    }
    for i in 0..a.len() {
        if !same_typed(&a[i], &b[i]) {
            return false;
        }
    }
    true
}

impl Structural for Const {
    fn copy(&self, alloc: Global) -> Result<Const, NoMemory> {
        copy_const(alloc, self)
    }

    fn same(&self, other: &Const) -> bool {
        same_const(self, other)
    }
}
