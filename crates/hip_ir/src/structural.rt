ghost use Rattle.std.specs.Prelude.{◌≡◌, ◌↔◌, [], ◌∷◌, ◌++◌, IsTrue, IfOk, OnOk};

use hip_types::{
    BinaryOp, Bits, CastOp, Link, NoMemory, Pred, Row, Scalar, Ty, Width, copy_ty, same_ty,
};
use std::alloc::Global;

/// A type whose values contracts compare by their structure.
pub trait Structural: Drop {
    /// A new value that is equal to this one.
    fn copy(&self, alloc: Global) -> Result<Self, NoMemory>
        ensures { IfOk result (λ t. t ≡ self.now) };

    /// Whether two values are equal.
    fn same(&self, other: &Self) -> bool
        ensures { IsTrue result ↔ (self.now ≡ other.now) };
}

impl Structural for u8 {
    fn copy(&self, _alloc: Global) -> Result<u8, NoMemory> {
        Ok(*self)
    }

    fn same(&self, other: &u8) -> bool {
        *self == *other
    }
}

impl Structural for Scalar {
    fn copy(&self, _alloc: Global) -> Result<Scalar, NoMemory> {
        Ok(*self)
    }

    fn same(&self, other: &Scalar) -> bool {
        *self == *other
    }
}

impl Structural for Bits {
    fn copy(&self, _alloc: Global) -> Result<Bits, NoMemory> {
        Ok(*self)
    }

    fn same(&self, other: &Bits) -> bool {
        *self == *other
    }
}

impl Structural for Width {
    fn copy(&self, _alloc: Global) -> Result<Width, NoMemory> {
        Ok(*self)
    }

    fn same(&self, other: &Width) -> bool {
        *self == *other
    }
}

impl Structural for BinaryOp {
    fn copy(&self, _alloc: Global) -> Result<BinaryOp, NoMemory> {
        Ok(*self)
    }

    fn same(&self, other: &BinaryOp) -> bool {
        *self == *other
    }
}

impl Structural for Pred {
    fn copy(&self, _alloc: Global) -> Result<Pred, NoMemory> {
        Ok(*self)
    }

    fn same(&self, other: &Pred) -> bool {
        *self == *other
    }
}

impl Structural for CastOp {
    fn copy(&self, _alloc: Global) -> Result<CastOp, NoMemory> {
        Ok(*self)
    }

    fn same(&self, other: &CastOp) -> bool {
        *self == *other
    }
}

impl Structural for Ty {
    fn copy(&self, alloc: Global) -> Result<Ty, NoMemory> {
        copy_ty(alloc, self)
    }

    fn same(&self, other: &Ty) -> bool {
        same_ty(self, other)
    }
}

impl<T: Structural> Structural for Link<T> {
    fn copy(&self, alloc: Global) -> Result<Link<T>, NoMemory> {
        let value = self.get().copy(alloc)?;
        Link::new(alloc, value)
    }

    fn same(&self, other: &Link<T>) -> bool {
        self.get().same(other.get())
    }
}

impl<T: Structural> Structural for Option<T> {
    fn copy(&self, alloc: Global) -> Result<Option<T>, NoMemory> {
        match self {
            Some(item) => Ok(Some(item.copy(alloc)?)),
            None => Ok(None),
        }
    }

    fn same(&self, other: &Option<T>) -> bool {
        match (self, other) {
            (Some(a), Some(b)) => a.same(b),
            (None, None) => true,
            _ => false,
        }
    }
}

/// Adds a copy of an item.
fn push_copy<T: Structural>(alloc: Global, copies: &mut Row<T>, item: &T) -> Result<(), NoMemory>
    ensures { OnOk result (copies.new ≡ copies.old ++ item.now ∷ []) }
{
    match item.copy(alloc) {
        Ok(item) => copies.push(item),
        Err(refused) => Err(refused),
    }
}

impl<T: Structural> Structural for Row<T> {
    fn copy(&self, alloc: Global) -> Result<Row<T>, NoMemory> {
        let mut copies = Row::from_vec(Vec::with_capacity(alloc, self.len())?);
        for item in self.as_slice() {
            push_copy(alloc, &mut copies, item)?;
        }
        Ok(copies)
    }

    fn same(&self, other: &Row<T>) -> bool {
        let a = self.as_slice();
        let b = other.as_slice();
        if a.len() != b.len() {
            return false;
        }
        for i in 0..a.len() {
            if !a[i].same(&b[i]) {
                return false;
            }
        }
        true
    }
}
