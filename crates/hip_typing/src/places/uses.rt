ghost use Rattle.std.specs.Prelude.{◌≡◌, [], ◌∷◌};
ghost use Rattle.hip_types.specs.declared.number.Scalar.TheVariants.{Int, Ptr};
ghost use Rattle.hip_types.specs.declared.number.Width.TheVariants.{W1};
ghost use Rattle.hip_sound.specs.Registers.{use_of, arg_uses, instr_uses, end_uses};
ghost use Rattle.hip_typing.specs.Seen.UsesSeen.{uses_seen};

use hip_tree::{Arg, End, Instr, Operand};
use hip_types::{Scalar, Width};

/// An operand and the type that its place states.
#[derive(Clone, Copy)]
pub struct OperandUse<'a> {
    pub operand: &'a Operand,
    pub ty: Scalar,
}

/// What a place uses: up to three operands, and then arguments.
#[derive(Clone, Copy)]
pub struct Uses<'a> {
    pub first: Option<OperandUse<'a>>,
    pub second: Option<OperandUse<'a>>,
    pub third: Option<OperandUse<'a>>,
    pub args: &'a [Arg],
}

impl<'a> Uses<'a> {
    fn of_args(args: &'a [Arg]) -> Uses<'a>
        ensures { uses_seen result ≡ arg_uses args.now }
    {
        Uses {
            first: None,
            second: None,
            third: None,
            args,
        }
    }

    fn one(operand: &'a Operand, ty: Scalar) -> Uses<'a>
        ensures { uses_seen result ≡ use_of operand.now ty ∷ [] }
    {
        Uses {
            first: Some(OperandUse { operand, ty }),
            second: None,
            third: None,
            args: &[],
        }
    }

    fn two(a: &'a Operand, a_ty: Scalar, b: &'a Operand, b_ty: Scalar) -> Uses<'a>
        ensures { uses_seen result ≡ use_of a.now a_ty ∷ use_of b.now b_ty ∷ [] }
    {
        Uses {
            first: Some(OperandUse {
                operand: a,
                ty: a_ty,
            }),
            second: Some(OperandUse {
                operand: b,
                ty: b_ty,
            }),
            third: None,
            args: &[],
        }
    }

    /// What a choice of one of two operands uses.
    fn choice(cond: &'a Operand, a: &'a Operand, b: &'a Operand, ty: Scalar) -> Uses<'a>
        ensures { uses_seen result ≡ use_of cond.now (Int W1) ∷ use_of a.now ty ∷ use_of b.now ty ∷ [] }
    {
        Uses {
            first: Some(OperandUse {
                operand: cond,
                ty: Scalar::Int(Width::W1),
            }),
            second: Some(OperandUse { operand: a, ty }),
            third: Some(OperandUse { operand: b, ty }),
            args: &[],
        }
    }

    /// What an address with indices uses.
    fn address(base: &'a Operand, indices: &'a [Arg]) -> Uses<'a>
        ensures { uses_seen result ≡ use_of base.now Ptr ∷ arg_uses indices.now }
    {
        Uses {
            first: Some(OperandUse {
                operand: base,
                ty: Scalar::Ptr,
            }),
            second: None,
            third: None,
            args: indices,
        }
    }

    /// What an instruction uses.
    pub fn of_instr(instr: &'a Instr) -> Uses<'a>
        ensures { uses_seen result ≡ instr_uses instr.now }
    {
        match instr {
            Instr::Binary { width, a, b, .. } => {
                let ty = Scalar::Int(*width);
                Uses::two(a, ty, b, ty)
            }
            Instr::Compare { ty, a, b, .. } => Uses::two(a, *ty, b, *ty),
            Instr::Select { cond, ty, a, b, .. } => Uses::choice(cond.get(), a, b, *ty),
            Instr::Cast { from, a, .. } => Uses::one(a, *from),
            Instr::Alloca { .. } => Uses::of_args(&[]),
            Instr::Load { addr, .. } => Uses::one(addr, Scalar::Ptr),
            Instr::Store {
                ty,
                value,
                addr,
                ..
            } => Uses::two(value, *ty, addr, Scalar::Ptr),
            Instr::Gep { base, indices, .. } => Uses::address(base, indices.as_slice()),
            Instr::Call { args, .. } => Uses::of_args(args.as_slice()),
        }
    }

    /// What the end of a block uses.
    pub fn of_end(end: &'a End) -> Uses<'a>
        ensures { uses_seen result ≡ end_uses end.now }
    {
        match end {
            End::CondBr { cond, .. } => Uses::one(cond.get(), Scalar::Int(Width::W1)),
            End::Switch { width, value, .. } => Uses::one(value.get(), Scalar::Int(*width)),
            End::Ret(Some(arg)) => Uses::one(&arg.value, arg.ty),
            End::Ret(None) => Uses::of_args(&[]),
            End::Br { .. } => Uses::of_args(&[]),
            End::Unreachable => Uses::of_args(&[]),
        }
    }
}
