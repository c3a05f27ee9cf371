use crate::constant::Const;
use hip_types::{BinaryOp, CastOp, Link, Name, Pred, Row, Scalar, Ty, Width};

/// A value that an instruction takes: the value of a register, or a constant.
pub enum Operand {
    Reg(Name),
    Fixed(Const),
}

impl Drop for Operand {
    fn drop(self) {
        match self {
            Operand::Reg(_) => {}
            Operand::Fixed(_) => {}
        }
    }
}

/// An operand with its type.
#[derive(Drop)]
pub struct Arg {
    pub ty: Scalar,
    pub value: Operand,
}

/// A flag of an operation on integers. It states that the result does not wrap as a number without a sign, that it does
/// not wrap as a number with a sign, or that a division or a shift to the right loses nothing. It changes no value.
#[derive(Clone, Copy, PartialEq, Eq)]
pub enum Flag {
    Nuw,
    Nsw,
    Exact,
}

/// Which flags an operation on integers has.
#[derive(Clone, Copy, PartialEq, Eq)]
pub struct Flags {
    pub nuw: bool,
    pub nsw: bool,
    pub exact: bool,
}

/// An instruction that is neither a phi nor the end of a block. `dest` is the register that it assigns, `align` the
/// alignment that is written, in bytes.
pub enum Instr {
    Binary {
        dest: Name,
        op: BinaryOp,
        flags: Flags,
        width: Width,
        a: Operand,
        b: Operand,
    },
    Compare {
        dest: Name,
        pred: Pred,
        ty: Scalar,
        a: Operand,
        b: Operand,
    },
    Select {
        dest: Name,
        cond: Link<Operand>,
        ty: Scalar,
        a: Operand,
        b: Operand,
    },
    Cast {
        dest: Name,
        op: CastOp,
        from: Scalar,
        a: Operand,
        to: Scalar,
    },
    Alloca {
        dest: Name,
        ty: Ty,
        align: Option<u64>,
    },
    Load {
        dest: Name,
        ty: Scalar,
        addr: Operand,
        align: Option<u64>,
    },
    Store {
        ty: Scalar,
        value: Operand,
        addr: Operand,
        align: Option<u64>,
    },
    Gep {
        dest: Name,
        inbounds: bool,
        ty: Ty,
        base: Operand,
        indices: Row<Arg>,
    },
    Call {
        dest: Option<Name>,
        ret: Option<Scalar>,
        callee: Name,
        args: Row<Arg>,
    },
}

/// Takes an instruction apart, and drops its fields. After the instruction come the variants, each with all its fields.
macro_rules! drop_fields {
    ($instr:expr, $($variant:ident { $($field:ident)* },)*) => {
        match $instr {
            $(Instr::$variant { $($field: _,)* } => {})*
        }
    };
}

impl Drop for Instr {
    fn drop(self) {
        drop_fields!(self,
            Binary { dest op flags width a b },
            Compare { dest pred ty a b },
            Select { dest cond ty a b },
            Cast { dest op from a to },
            Alloca { dest ty align },
            Load { dest ty addr align },
            Store { ty value addr align },
            Gep { dest inbounds ty base indices },
            Call { dest ret callee args },
        )
    }
}
