use crate::comparisons::{same_five, same_four, same_three, same_two};
use crate::copies::{copy_four, copy_three, copy_two};
use crate::structural::Structural;
use hip_tree::{Arg, Instr, Operand};
use hip_types::NoMemory;
use std::alloc::Global;

impl Structural for Operand {
    fn copy(&self, alloc: Global) -> Result<Operand, NoMemory> {
        match self {
            Operand::Reg(name) => Ok(Operand::Reg(name.copy(alloc)?)),
            Operand::Fixed(value) => Ok(Operand::Fixed(value.copy(alloc)?)),
        }
    }

    fn same(&self, other: &Operand) -> bool {
        match (self, other) {
            (Operand::Reg(a), Operand::Reg(b)) => a.same(b),
            (Operand::Fixed(a), Operand::Fixed(b)) => a.same(b),
            _ => false,
        }
    }
}

impl Structural for Arg {
    fn copy(&self, alloc: Global) -> Result<Arg, NoMemory> {
        Ok(Arg {
            ty: self.ty,
            value: self.value.copy(alloc)?,
        })
    }

    fn same(&self, other: &Arg) -> bool {
        self.ty == other.ty && self.value.same(&other.value)
    }
}

/// Copies a variant: the fields in braces by the function after `by`, those in brackets as they are.
macro_rules! copy_variant {
    ($instr:expr, $alloc:expr,
        $($variant:ident { $($field:ident),* } by $copy:ident [ $($plain:ident),* ],)*) => {
        match $instr {
            $(Instr::$variant { $($field,)* $($plain,)* } => {
                let ($($field),*) = $copy($alloc, $($field),*)?;
                Ok(Instr::$variant { $($field,)* $($plain: *$plain,)* })
            })*
        }
    };
}

/// Compares two values of one variant: the fields in braces by the function after `by`, those in brackets by `==`.
/// After each field comes the name of the other value's.
macro_rules! same_variant {
    ($a:expr, $b:expr,
        $($variant:ident { $($x:ident $y:ident),* } by $same:ident [ $($p:ident $q:ident),* ],)*) => {
        match ($a, $b) {
            $((Instr::$variant { $($x,)* $($p,)* }, Instr::$variant { $($x: $y,)* $($p: $q,)* }) => {
                $(*$p == *$q &&)* $same($(($x, $y)),*)
            })*
            _ => false,
        }
    };
}

impl Structural for Instr {
    fn copy(&self, alloc: Global) -> Result<Instr, NoMemory> {
        copy_variant!(self, alloc,
            Binary { dest, a, b } by copy_three [op, flags, width],
            Compare { dest, a, b } by copy_three [pred, ty],
            Select { dest, cond, a, b } by copy_four [ty],
            Cast { dest, a } by copy_two [op, from, to],
            Alloca { dest, ty } by copy_two [align],
            Load { dest, addr } by copy_two [ty, align],
            Store { value, addr } by copy_two [ty, align],
            Gep { dest, ty, base, indices } by copy_four [inbounds],
            Call { dest, callee, args } by copy_three [ret],
        )
    }

    fn same(&self, other: &Instr) -> bool {
        same_variant!(self, other,
            Binary { dest to, op by, width wide, a x, b y } by same_five [flags marks],
            Compare { dest to, pred by, ty at, a x, b y } by same_five [],
            Select { dest to, cond test, ty at, a x, b y } by same_five [],
            Cast { dest place, op by, from first, a x, to last } by same_five [],
            Alloca { dest to, ty at } by same_two [align bytes],
            Load { dest to, ty at, addr from } by same_three [align bytes],
            Store { ty at, value x, addr to } by same_three [align bytes],
            Gep { dest to, ty at, base from, indices by } by same_four [inbounds bound],
            Call { dest to, ret gives, callee called, args with } by same_four [],
        )
    }
}
